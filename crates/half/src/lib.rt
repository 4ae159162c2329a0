// IEEE 754 binary16 arithmetic: six operations, each rounded once, with its six flags (docs/RULES.md, R6.1 to R6.24); minimum, maximum
// and comparison (R6.25 to R6.28).
#![tactic(auto)]

ghost use Rattle.std.specs.Prelude.{◌≡◌};
ghost use Rattle.half.specs.Modes.{mode_of_bits};

pub mod choice;
pub mod comparison;
mod fields;
pub mod fused;
mod normal;
mod operands;
pub mod product;
pub mod quotient;
pub mod root;
mod rounding;
pub mod sum;

// The rounding modes (R6.4), in the order of their numbers. Mode and mask of UE stay two parameters, as the definitions take them
// (specs/Operations.antt): the short ways need the mode alone.
#[derive(Clone, Copy, PartialEq, Eq)]
pub enum Mode {
    Nearest,
    Down,
    Up,
    TowardZero,
}

impl Mode {
    // The mode of two bits, and no From: a number above 3 has no mode (R6.4), and is refused where one comes in (numbers::mode_of).
    #[tactic(auto, unfolding(crate::specs::Modes::mode_of_bits))]
    pub fn of_bits(bits: u32) -> Mode
        ensures { result ≡ mode_of_bits bits }
    {
        match bits {
            0 => Mode::Nearest,
            1 => Mode::Down,
            2 => Mode::Up,
            _ => Mode::TowardZero,
        }
    }
}

// The flags (R1.5), in the order of their bits.
const IE: u8 = 1;

const DE: u8 = 2;

const ZE: u8 = 4;

const OE: u8 = 8;

const UE: u8 = 16;

const PE: u8 = 32;

// What an operation hands back: a half, and its flags or-ed.
#[derive(Clone, Copy)]
pub struct Outcome {
    pub half: u16,
    pub flags: u8,
}
