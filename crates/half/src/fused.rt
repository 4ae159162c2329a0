// Fused multiply and add (R6.15).
ghost use Rattle.std.specs.Prelude.{◌≡◌, ◌<◌, ◌≤◌, ◌+◌, ◌*◌, ◌^◌, Bool, true, false, ◌&&◌};
ghost use Rattle.half.specs.Format.{is_finite, negative, units};
ghost use Rattle.half.specs.Operations.{exact_sum, unlike, half_multiply_add};
ghost use Rattle.half.specs.Work.{is_normal, Summed};

use super::normal::Normal;
use super::product::Shift;
use super::{Mode, Outcome, fields, normal, operands, product, sum};

// a * b + c for finite halves: in units of 2^-27 where the product is a multiple of 2^-26, else of 2^-48.
fn finite_fused(mode: Mode, unmasked_ue: bool, a: u16, b: u16, c: u16) -> Outcome
    requires { units c ≤ 2047 * 2 ^ 29 }
    ensures { result ≡ exact_sum mode unmasked_ue (unlike a b) (units a * units b) (negative c) (units c * 2 ^ 24) (2 ^ 48) }
{
    let p = product::scaled_product(a, b);
    let neg = operands::unlike_signs(a, b);
    let sc = fields::sign_of(c);
    let n = fields::magnitude(c);
    match p.shift {
        Shift::Above(k) => {
            let x = (2 * p.significand) << k;
            sum::finite_sum(mode, unmasked_ue, neg, x, sc, n * 8, 1)
        }
        Shift::Below(k) => {
            let x = p.significand << (22 - k);
            sum::finite_sum(mode, unmasked_ue, neg, x, sc, n * 0x100_0000, 22)
        }
    }
}

// With a NaN or an infinity, which turns on no mode.
fn special_fused(a: u16, b: u16, c: u16) -> Outcome
    requires { (is_finite a && (is_finite b && is_finite c)) ≡ false }
    ensures { (mode : Mode) (unmasked_ue : Bool) → result ≡ half_multiply_add mode unmasked_ue a b c }
{
    if operands::any_nan(a, b, c) {
        return operands::nan_result(a, b, c);
    }
    if product::zero_times_infinity(a, b) {
        return operands::invalid_result();
    }
    let infinite = fields::infinite(a) | fields::infinite(b);
    let neg = operands::unlike_signs(a, b);
    if infinite & fields::infinite(c) & (neg != fields::sign_of(c)) {
        return operands::invalid_result();
    }
    let de = operands::denormal_flag(a, b, c);
    if infinite {
        return Outcome {
            half: fields::with_sign(neg, 0x7C00),
            flags: de,
        };
    }
    Outcome { half: c, flags: de }
}

// a * b + c for any operands.
fn any_fused(mode: Mode, unmasked_ue: bool, a: u16, b: u16, c: u16) -> Outcome
    ensures { result ≡ half_multiply_add mode unmasked_ue a b c }
{
    if !operands::all_finite(a, b, c) {
        return special_fused(a, b, c);
    }
    let o = finite_fused(mode, unmasked_ue, a, b, c);
    operands::with_flags(operands::denormal_flag(a, b, c), o)
}

// a * b and c added.
fn normal_fused(a: Normal, b: Normal, c: Normal) -> normal::Sum
    ensures { Summed (unlike a.half b.half) (units a.half * units b.half * 2 ^ 9) (negative c.half) (units c.half * 2 ^ 33) result }
{
    let x = a.product(b);
    let i = a.exponent() + b.exponent() + 7;
    let y = c.significand();
    let j = c.exponent() + 32;
    let neg = operands::unlike_signs(a.half, b.half);
    let sc = fields::sign_of(c.half);
    sum::shifted_sum(neg, x, i, sc, y, j)
}

pub fn multiply_add(mode: Mode, unmasked_ue: bool, a: u16, b: u16, c: u16) -> Outcome
    ensures { result ≡ half_multiply_add mode unmasked_ue a b c }
{
    let (Some(x), Some(y), Some(z)) = (Normal::of(a), Normal::of(b), Normal::of(c)) else {
        return any_fused(mode, unmasked_ue, a, b, c);
    };
    let s = normal_fused(x, y, z);
    if !normal::is_large(s.digits, s.exponent) {
        return any_fused(mode, unmasked_ue, a, b, c);
    }
    normal::round_large(mode, s.neg, s.digits, s.exponent)
}
