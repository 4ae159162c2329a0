// The versions of a saved form (R9.1) and what a save, a load or a move is refused for; what they are is in specs/, and what is proved of
// them in proofs/. The code of saving, loading and moving stands in the crate `saved`.
#![tactic(auto)]

ghost use Rattle.std.specs.Prelude.{◌≡◌};
ghost use Rattle.forms.specs.Version.{version_byte, is_packed, IsVersion};
ghost use Rattle.forms.specs.Refusal.{refusal_number};

#[derive(Clone, Copy)]
pub enum Version {
    One,
    Two,
}

// R4.1, R9.4 to R9.6: a vector file or a target of another size, a control word of more than 16 bits, or no version and no form.
#[derive(Clone, Copy)]
pub enum Refusal {
    Size,
    HighControlBit,
    Form,
}

// R9.1: the version that has a number.
impl TryFrom<u32> for Version {
    type Error = Refusal;

    ghost try_from_gives = { IsVersion };

    fn try_from(number: u32) -> Result<Version, Refusal> {
        match number {
            1 => Ok(Version::One),
            2 => Ok(Version::Two),
            _ => Err(Refusal::Form),
        }
    }
}

// R9.1: its number, which is byte 4 of the form.
impl From<Version> for u8 {
    ghost from_gives = { λ version byte. byte ≡ version_byte version };

    fn from(version: Version) -> u8 {
        match version {
            Version::One => 1,
            Version::Two => 2,
        }
    }
}

impl Version {
    // R9.8: whether its vector file is packed.
    pub fn is_packed(self) -> bool
        ensures { result ≡ is_packed self }
    {
        match self {
            Version::One => false,
            Version::Two => true,
        }
    }
}

impl Refusal {
    // R4.1: its number.
    pub fn number(self) -> u32
        ensures { result ≡ refusal_number self }
    {
        match self {
            Refusal::Size => 1,
            Refusal::HighControlBit => 2,
            Refusal::Form => 10,
        }
    }
}
