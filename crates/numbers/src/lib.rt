// The half arithmetic for callers that have no enum, as C: a mode is a number, and one above 3 is answered 9 (R8.1 to R8.3, R8.5).
#![tactic(auto, unfolding(crate::specs::Numbers::mode_of, crate::specs::Numbers::answered))]

ghost use Rattle.std.specs.Prelude.{◌≡◌};
ghost use Rattle.numbers.specs.Numbers.{mode_of, yes, done, answered};
ghost use Rattle.half.specs.Operations.{half_add, half_subtract, half_multiply, half_divide, half_root, half_multiply_add};
ghost use Rattle.half.specs.Comparison.{half_minimum, half_maximum, half_compare};

use half::{Mode, Outcome, comparison, fused, product, quotient, root, sum};

// A half and its flags, with the number of the answer: 0, or 9 for a mode above 3. In C's layout, and no Result: C reads it (R8.1).
#[repr(C)]
#[derive(Clone, Copy)]
pub struct Rounded {
    pub half: u16,
    pub flags: u8,
    pub number: u8,
}

// What is answered to a mode above 3 (R8.2).
const REFUSED: Rounded = Rounded {
    half: 0,
    flags: 0,
    number: 9,
};

impl From<Outcome> for Rounded {
    ghost from_gives = { λ o r. r ≡ done o };

    fn from(o: Outcome) -> Rounded {
        Rounded {
            half: o.half,
            flags: o.flags,
            number: 0,
        }
    }
}

// The mode of a number, none above 3.
fn mode_of(number: u32) -> Option<Mode>
    ensures { result ≡ mode_of number }
{
    if 3 < number {
        return None;
    }
    Some(Mode::of_bits(number))
}

pub fn add(mode: u32, unmasked_ue: u32, a: u16, b: u16) -> Rounded
    ensures { result ≡ answered (mode_of mode) (λ (m : Mode). half_add m (yes unmasked_ue) a b) }
{
    mode_of(mode).map_or(REFUSED, |m| sum::add(m, unmasked_ue != 0, a, b).into())
}

pub fn subtract(mode: u32, unmasked_ue: u32, a: u16, b: u16) -> Rounded
    ensures { result ≡ answered (mode_of mode) (λ (m : Mode). half_subtract m (yes unmasked_ue) a b) }
{
    mode_of(mode).map_or(REFUSED, |m| sum::subtract(m, unmasked_ue != 0, a, b).into())
}

pub fn multiply(mode: u32, unmasked_ue: u32, a: u16, b: u16) -> Rounded
    ensures { result ≡ answered (mode_of mode) (λ (m : Mode). half_multiply m (yes unmasked_ue) a b) }
{
    mode_of(mode).map_or(
        REFUSED,
        |m| product::multiply(m, unmasked_ue != 0, a, b).into(),
    )
}

pub fn divide(mode: u32, unmasked_ue: u32, a: u16, b: u16) -> Rounded
    ensures { result ≡ answered (mode_of mode) (λ (m : Mode). half_divide m (yes unmasked_ue) a b) }
{
    mode_of(mode).map_or(
        REFUSED,
        |m| quotient::divide(m, unmasked_ue != 0, a, b).into(),
    )
}

pub fn square_root(mode: u32, unmasked_ue: u32, a: u16) -> Rounded
    ensures { result ≡ answered (mode_of mode) (λ (m : Mode). half_root m (yes unmasked_ue) a) }
{
    mode_of(mode).map_or(
        REFUSED,
        |m| root::square_root(m, unmasked_ue != 0, a).into(),
    )
}

// a * b + c
pub fn multiply_add(mode: u32, unmasked_ue: u32, a: u16, b: u16, c: u16) -> Rounded
    ensures { result ≡ answered (mode_of mode) (λ (m : Mode). half_multiply_add m (yes unmasked_ue) a b c) }
{
    mode_of(mode).map_or(
        REFUSED,
        |m| fused::multiply_add(m, unmasked_ue != 0, a, b, c).into(),
    )
}

// R8.5: these take no mode.

pub fn minimum(a: u16, b: u16) -> Rounded
    ensures { result ≡ done (half_minimum a b) }
{
    comparison::minimum(a, b).into()
}

pub fn maximum(a: u16, b: u16) -> Rounded
    ensures { result ≡ done (half_maximum a b) }
{
    comparison::maximum(a, b).into()
}

// The immediate has the number of a predicate in its lowest five bits.
pub fn compare(immediate: u32, a: u16, b: u16) -> Rounded
    ensures { result ≡ done (half_compare immediate a b) }
{
    comparison::compare(immediate, a, b).into()
}
