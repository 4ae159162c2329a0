// What the operations share (R6.6, R6.7, R6.9), for three operands: an operation with fewer hands its last one in again. No slice with
// `any`, which is a branch for each operand: comparison::picked has none.
ghost use Rattle.std.specs.Prelude.{◌≡◌, ◌&&◌, cond, [], ◌∷◌};
ghost use Rattle.std.specs.Int.Bits.{bit_or};
ghost use Rattle.half.specs.Format.{is_finite, is_nan, is_signalling, is_subnormal};
ghost use Rattle.half.specs.Round.{IE, DE, flag, outcome};
ghost use Rattle.lists.specs.Lists.{some};
ghost use Rattle.half.specs.Operations.{nan_result, invalid, unlike};

use super::{DE, IE, Outcome, fields};

pub fn all_finite(a: u16, b: u16, c: u16) -> bool
    ensures { result ≡ (is_finite a && (is_finite b && is_finite c)) }
{
    fields::finite(a) & (fields::finite(b) & fields::finite(c))
}

pub fn any_nan(a: u16, b: u16, c: u16) -> bool
    ensures { result ≡ some is_nan (a ∷ b ∷ c ∷ []) }
{
    fields::nan(a) | (fields::nan(b) | fields::nan(c))
}

// The flag f, where it is raised.
pub fn flag_if(f: u8, raised: bool) -> u8
    ensures { result ≡ flag f raised }
{
    if raised { f } else { 0 }
}

fn invalid_flag(a: u16, b: u16, c: u16) -> u8
    ensures { result ≡ flag IE (some is_signalling (a ∷ b ∷ c ∷ [])) }
{
    let any = fields::signalling(a) | (fields::signalling(b) | fields::signalling(c));
    flag_if(IE, any)
}

pub fn denormal_flag(a: u16, b: u16, c: u16) -> u8
    ensures { result ≡ flag DE (some is_subnormal (a ∷ b ∷ c ∷ [])) }
{
    let any = fields::subnormal(a) | (fields::subnormal(b) | fields::subnormal(c));
    flag_if(DE, any)
}

fn nan_or(a: u16, other: u16) -> u16
    ensures { result ≡ cond (is_nan a) a other }
{
    if fields::nan(a) { a } else { other }
}

// R6.6: the first NaN among the operands.
pub fn nan_result(a: u16, b: u16, c: u16) -> Outcome
    ensures { result ≡ nan_result (a ∷ b ∷ c ∷ []) }
{
    let first = nan_or(a, nan_or(b, nan_or(c, 0)));
    Outcome {
        half: fields::quieted(first),
        flags: invalid_flag(a, b, c),
    }
}

pub fn invalid_result() -> Outcome
    ensures { result ≡ invalid }
{
    Outcome {
        half: 0xFE00,
        flags: IE,
    }
}

pub fn unlike_signs(a: u16, b: u16) -> bool
    ensures { result ≡ unlike a b }
{
    fields::sign_of(a) != fields::sign_of(b)
}

pub fn with_flags(f: u8, o: Outcome) -> Outcome
    ensures { result ≡ outcome o.half (bit_or f o.flags) }
{
    Outcome {
        half: o.half,
        flags: f | o.flags,
    }
}
