// Minimum, maximum and comparison (R6.25 to R6.28), all by one function. None of its tests is a branch, so that a loop over lanes becomes
// vector instructions.
ghost use Rattle.std.specs.Prelude.{◌≡◌, cond, [], ◌∷◌};
ghost use Rattle.std.specs.Int.Signed.{lt_z};
ghost use Rattle.half.specs.Format.{is_nan, value};
ghost use Rattle.lists.specs.Lists.{some};
ghost use Rattle.half.specs.Comparison.{relation, comparison_flags, half_minimum, half_maximum, holds, predicate_of, half_compare};
ghost use Rattle.half.specs.Work.{rank_of, picked};

use super::choice::either;
use super::{DE, IE, Outcome, fields, operands};

// What a predicate answers to each relation (R6.25), and whether it signals a quiet NaN.
#[derive(Clone, Copy)]
pub struct Predicate {
    pub less: bool,
    pub equal: bool,
    pub greater: bool,
    pub unordered: bool,
    pub signals: bool,
}

// The answers of each predicate, four bits from the lowest on: to less, equal, greater, unordered. Those from 16 on answer as those before.
const ANSWERS: u64 = 0xF465_0B9A_7CED_8312;

// Which ones signal, a bit each.
const SIGNALS: u32 = 0x9999_6666;

// Two that signal, and say yes to less alone, and to greater alone: minimum and maximum hand the first operand back where these do.
pub const LT_OS: u32 = 1;

pub const GT_OS: u32 = 14;

// R3.15: by the lowest five bits of an immediate.
pub fn predicate_of(immediate: u32) -> Predicate
    ensures { result ≡ predicate_of immediate }
{
    let answers = ANSWERS >> (immediate % 16 * 4);
    Predicate {
        less: answers % 2 == 1,
        equal: (answers >> 1) % 2 == 1,
        greater: (answers >> 2) % 2 == 1,
        unordered: (answers >> 3) % 2 == 1,
        signals: (SIGNALS >> (immediate % 32)) % 2 == 1,
    }
}

// Halves are in the order of these numbers, the two zeros being one.
fn rank(h: u16) -> u16
    ensures { result ≡ rank_of h }
{
    let m = h % 0x8000;
    if fields::sign_of(h) {
        0x8000 - m
    } else {
        0x8000 + m
    }
}

fn is_less(a: u16, b: u16) -> bool
    ensures { result ≡ lt_z (value a) (value b) }
{
    rank(a) < rank(b)
}

fn any_nan(a: u16, b: u16) -> bool
    ensures { result ≡ some is_nan (a ∷ b ∷ []) }
{
    operands::any_nan(a, b, b)
}

fn holds(p: Predicate, a: u16, b: u16) -> bool
    ensures { result ≡ holds p (relation a b) }
{
    let ordered = either(is_less(b, a), p.greater, p.equal);
    either(
        any_nan(a, b),
        p.unordered,
        either(is_less(a, b), p.less, ordered),
    )
}

// R6.27: IE where there is a NaN and it is invalid, and else DE where there is a subnormal.
fn flags(invalid: bool, a: u16, b: u16) -> u8
    ensures { result ≡ comparison_flags invalid a b }
{
    let nan = any_nan(a, b);
    let subnormal = fields::subnormal(a) | fields::subnormal(b);
    operands::flag_if(IE, nan & invalid) | operands::flag_if(DE, !nan & subnormal)
}

// What the predicate says, 1 or 0, where it is compared, and else the first half where it says yes, and the second where it says no.
pub fn picked(p: Predicate, compares: bool, a: u16, b: u16) -> Outcome
    ensures { result ≡ picked p compares a b }
{
    let yes = holds(p, a, b);
    let invalid = (fields::signalling(a) | fields::signalling(b)) | p.signals;
    Outcome {
        half: either(compares, either(yes, 1, 0), either(yes, a, b)),
        flags: flags(invalid, a, b),
    }
}

pub fn minimum(a: u16, b: u16) -> Outcome
    ensures { result ≡ half_minimum a b }
{
    picked(predicate_of(LT_OS), false, a, b)
}

pub fn maximum(a: u16, b: u16) -> Outcome
    ensures { result ≡ half_maximum a b }
{
    picked(predicate_of(GT_OS), false, a, b)
}

pub fn compare(immediate: u32, a: u16, b: u16) -> Outcome
    ensures { result ≡ half_compare immediate a b }
{
    picked(predicate_of(immediate), true, a, b)
}
