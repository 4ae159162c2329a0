// The short way of normal operands, whose exponent fields are 1 to 30: no zero, no subnormal, nothing special. Digits and exponent stay
// apart: a magnitude is m * 2^e in units of 2^-57, so small that no exponent goes below 0. Operations call what serves any operands at two
// places or more: the back end puts a function that is called once into its caller, however large.
ghost use Rattle.std.specs.Prelude.{◌≡◌, ◌<◌, ◌≤◌, ◌+◌, ◌*◌, ◌^◌, Bool, true, leb, cond, None, Some};
ghost use Rattle.std.specs.Option.{option_map};
ghost use Rattle.half.specs.Format.{exponent_field, significand, units};
ghost use Rattle.half.specs.Exact.{ratio};
ghost use Rattle.half.specs.Round.{rounded_half};
ghost use Rattle.half.specs.Work.{is_normal};

use super::{Mode, Outcome, PE, fields, operands, rounding};

// An exact sum: its sign and its magnitude, digits * 2^exponent.
#[derive(Clone, Copy)]
pub struct Sum {
    pub neg: bool,
    pub digits: u64,
    pub exponent: u32,
}

// With one added to the exponent field, the four bits above its lowest are 0 for 0 and 31 alone.
fn is_normal(h: u16) -> bool
    ensures { result ≡ is_normal h }
{
    ((((h as u32) + 1024) >> 11) & 15) != 0
}

// A half that is normal.
#[derive(Clone, Copy)]
pub struct Normal {
    pub half: u16,
    pub ghost normal: { is_normal half ≡ true },
}

impl Normal {
    pub fn of(h: u16) -> Option<Normal>
        ensures { option_map (λ (x : Normal). x.half) result ≡ cond (is_normal h) (Some h) None }
    {
        if is_normal(h) {
            return Some(Normal { half: h });
        }
        None
    }

    pub fn significand(self) -> u64
        ensures { (result ≡ significand self.half) × (1024 ≤ result) × (result < 2048) }
    {
        1024 + (fields::fraction_of(self.half) as u64)
    }

    pub fn exponent(self) -> u32
        ensures { (result ≡ exponent_field self.half) × (1 ≤ result) × (result < 31) }
    {
        fields::exponent_of(self.half) as u32
    }

    // The magnitude times 2^25.
    pub fn magnitude(self) -> u64
        ensures { (result ≡ units self.half * 2) × (result < 2 ^ 41) }
    {
        self.significand() << self.exponent()
    }

    // All the digits of a product, 21 or 22.
    pub fn product(self, other: Normal) -> u64
        ensures { (result ≡ significand self.half * significand other.half) × (2 ^ 20 ≤ result) × (result < 2 ^ 22) }
    {
        self.significand() * other.significand()
    }
}

// R6.18, R6.20: z * 2^k / 2^26 rounded, for a z of 13 digits, the last of which says whether something is left below (specs/Work.antt,
// place). The half is normal, or too large, so that nothing turns on the mask of UE.
pub fn packed(mode: Mode, neg: bool, z: u64, k: u32) -> Outcome
    requires { (2 ^ 12 ≤ z) × (z < 2 ^ 13) × (k < 128) }
    ensures { (unmasked_ue : Bool) → result ≡ rounded_half mode unmasked_ue neg (ratio (z * 2 ^ k) (2 ^ 26)) }
{
    let q = rounding::whole_steps(mode, neg, z);
    let m = (k as u64) * 1024 + q;
    if 0x7C00 <= m {
        return rounding::overflow(mode, neg);
    }
    let h = fields::with_sign(neg, m as u16);
    Outcome {
        half: h,
        flags: operands::flag_if(PE, z % 4 != 0),
    }
}

// Whether m * 2^e is 2^-14 or more, the smallest normal half.
pub fn is_large(m: u64, e: u32) -> bool
    requires { e < 64 }
    ensures { result ≡ leb (2 ^ 43) (m * 2 ^ e) }
{
    (m != 0) & (m.leading_zeros() <= e + 20)
}

// m * 2^e rounded, where it is large.
pub fn round_large(mode: Mode, neg: bool, m: u64, e: u32) -> Outcome
    requires { (2 ^ 43 ≤ m * 2 ^ e) × (e < 80) }
    ensures { (unmasked_ue : Bool) → result ≡ rounded_half mode unmasked_ue neg (ratio (m * 2 ^ e) (2 ^ 57)) }
{
    let zeros = m.leading_zeros();
    let z = rounding::place_of(m << zeros, 52);
    packed(mode, neg, z, e + 20 - zeros)
}

// m * 2^e rounded, where the half may be subnormal. Callers test which of the two it is: in one function the back end puts both out of
// line.
pub fn round_small(mode: Mode, unmasked_ue: bool, neg: bool, m: u64, e: u32) -> Outcome
    requires { e < 31 }
    ensures { result ≡ rounded_half mode unmasked_ue neg (ratio (m * 2 ^ e) (2 ^ 57)) }
{
    rounding::round(mode, unmasked_ue, neg, rounding::place_of(m, 31 - e))
}
