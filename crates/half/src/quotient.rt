// Division (R6.8, R6.11).
ghost use Rattle.std.specs.Prelude.{◌≡◌, ◌<◌, ◌-◌, ◌*◌, ◌^◌, min, Bool, true, false, not, ◌&&◌};
ghost use Rattle.half.specs.Format.{exponent_field, is_finite, is_zero, significand};
ghost use Rattle.half.specs.Exact.{ratio};
ghost use Rattle.half.specs.Round.{rounded_half};
ghost use Rattle.half.specs.Operations.{half_divide};
ghost use Rattle.half.specs.Work.{place, is_normal};

use super::normal::Normal;
use super::{Mode, Outcome, ZE, fields, normal, operands, rounding};

// The significand of a, in the smaller one of the units of a's and b's significands.
fn significand_beside(a: u16, b: u16) -> u64
    ensures { result ≡ significand a * 2 ^ (exponent_field a - 1 - (exponent_field b - 1)) }
{
    let i = fields::lift_of(a);
    let j = fields::lift_of(b);
    let s = fields::significand_of(a);
    if i < j { s } else { s << (i - j) }
}

// The place of n / y.
fn quotient_place(n: u64, y: u64) -> u64
    requires { (n < 2 ^ 63) × (0 < y) }
    ensures { result ≡ place n y }
{
    let w = n / y * 2;
    if n % y == 0 { w } else { w + 1 }
}

// x / y rounded. From 2^20 on it overflows.
fn finite_quotient(mode: Mode, unmasked_ue: bool, neg: bool, x: u64, y: u64) -> Outcome
    requires { (min x y < 2 ^ 11) × (0 < y) }
    ensures { result ≡ rounded_half mode unmasked_ue neg (ratio x y) }
{
    if y <= x >> 20 {
        return rounding::overflow(mode, neg);
    }
    rounding::round(mode, unmasked_ue, neg, quotient_place(x * 0x400_0000, y))
}

// A quotient with a NaN or an infinity, or with a zero for the divisor, which turns on no mode.
fn special_quotient(a: u16, b: u16) -> Outcome
    requires { (is_finite a && (is_finite b && not (is_zero b))) ≡ false }
    ensures { (mode : Mode) (unmasked_ue : Bool) → result ≡ half_divide mode unmasked_ue a b }
{
    if operands::any_nan(a, b, b) {
        return operands::nan_result(a, b, b);
    }
    if (fields::zero(a) & fields::zero(b)) | (fields::infinite(a) & fields::infinite(b)) {
        return operands::invalid_result();
    }
    let unlike = operands::unlike_signs(a, b);
    let infinity = fields::with_sign(unlike, 0x7C00);
    if fields::finite(a) & !fields::zero(a) & fields::zero(b) {
        return Outcome {
            half: infinity,
            flags: ZE,
        };
    }
    let de = operands::denormal_flag(a, b, b);
    if fields::infinite(a) {
        return Outcome {
            half: infinity,
            flags: de,
        };
    }
    Outcome {
        half: fields::with_sign(unlike, 0),
        flags: de,
    }
}

// The quotient of any operands.
fn any_quotient(mode: Mode, unmasked_ue: bool, a: u16, b: u16) -> Outcome
    ensures { result ≡ half_divide mode unmasked_ue a b }
{
    let ordinary = fields::finite(a) & (fields::finite(b) & !fields::zero(b));
    if !ordinary {
        return special_quotient(a, b);
    }
    let neg = operands::unlike_signs(a, b);
    let x = significand_beside(a, b);
    let y = significand_beside(b, a);
    let o = finite_quotient(mode, unmasked_ue, neg, x, y);
    operands::with_flags(operands::denormal_flag(a, b, b), o)
}

// The place of the quotient of two significands, times 2^21, has 22 digits or 23: from the exponent 22 on the quotient is large.
fn normal_quotient(mode: Mode, unmasked_ue: bool, a: Normal, b: Normal) -> Outcome
    ensures { result ≡ half_divide mode unmasked_ue a.half b.half }
{
    let e = a.exponent() + 35 - b.exponent();
    let n = a.significand() * 0x20_0000;
    let m = quotient_place(n, b.significand());
    let neg = operands::unlike_signs(a.half, b.half);
    if e < 22 {
        return normal::round_small(mode, unmasked_ue, neg, m, e);
    }
    normal::round_large(mode, neg, m, e)
}

pub fn divide(mode: Mode, unmasked_ue: bool, a: u16, b: u16) -> Outcome
    ensures { result ≡ half_divide mode unmasked_ue a b }
{
    let Some(x) = Normal::of(a) else {
        return any_quotient(mode, unmasked_ue, a, b);
    };
    let Some(y) = Normal::of(b) else {
        return any_quotient(mode, unmasked_ue, a, b);
    };
    normal_quotient(mode, unmasked_ue, x, y)
}
