// Multiplication (R6.11).
ghost use Rattle.std.specs.Prelude.{◌≡◌, ◌<◌, ◌+◌, ◌-◌, ◌*◌, ◌^◌, Bool, true, false, ◌&&◌, ◌||◌};
ghost use Rattle.std.proofs.Math.IntN.{sub_ℕ};
ghost use Rattle.half.specs.Format.{is_finite, is_infinite, is_zero, units, exponent_field};
ghost use Rattle.half.specs.Operations.{half_multiply};
ghost use Rattle.half.specs.Work.{place, is_normal, Scaled};

use super::normal::Normal;
use super::{Mode, Outcome, fields, normal, operands, rounding};

// How many digits a lowest bit lies above 2^-26, or below.
#[derive(Clone, Copy)]
pub(crate) enum Shift {
    Above(u32),
    Below(u32),
}

// The product of two significands, and where its lowest bit lies.
#[derive(Clone, Copy)]
pub(crate) struct Product {
    pub significand: u64,
    pub shift: Shift,
}

fn product_scale(a: u16, b: u16) -> i32
    ensures { result ≡ sub_ℕ (exponent_field a - 1 + (exponent_field b - 1)) 22 }
{
    fields::scale_of(a) + fields::scale_of(b) + 26
}

pub(crate) fn scaled_product(a: u16, b: u16) -> Product
    ensures { Scaled a b result }
{
    let p = fields::significand_of(a) * fields::significand_of(b);
    let e = product_scale(a, b);
    if 0 <= e {
        return Product {
            significand: p,
            shift: Shift::Above(e as u32),
        };
    }
    Product {
        significand: p,
        shift: Shift::Below((-e) as u32),
    }
}

// The place of a * b among the multiples of 2^-26.
fn product_place(a: u16, b: u16) -> u64
    ensures { result ≡ place (units a * units b) (2 ^ 22) }
{
    let p = scaled_product(a, b);
    match p.shift {
        Shift::Above(k) => (2 * p.significand) << k,
        Shift::Below(k) => rounding::place_of(p.significand, k),
    }
}

// The product of a zero and an infinity.
pub(crate) fn zero_times_infinity(a: u16, b: u16) -> bool
    ensures { result ≡ (is_zero a && is_infinite b || is_infinite a && is_zero b) }
{
    (fields::zero(a) & fields::infinite(b)) | (fields::infinite(a) & fields::zero(b))
}

// A product with a NaN or an infinity, which turns on no mode.
fn special_product(a: u16, b: u16) -> Outcome
    requires { (is_finite a && (is_finite b && is_finite b)) ≡ false }
    ensures { (mode : Mode) (unmasked_ue : Bool) → result ≡ half_multiply mode unmasked_ue a b }
{
    if operands::any_nan(a, b, b) {
        return operands::nan_result(a, b, b);
    }
    if zero_times_infinity(a, b) {
        return operands::invalid_result();
    }
    let de = operands::denormal_flag(a, b, b);
    Outcome {
        half: fields::with_sign(operands::unlike_signs(a, b), 0x7C00),
        flags: de,
    }
}

// The product of any operands.
fn any_product(mode: Mode, unmasked_ue: bool, a: u16, b: u16) -> Outcome
    ensures { result ≡ half_multiply mode unmasked_ue a b }
{
    if !operands::all_finite(a, b, b) {
        return special_product(a, b);
    }
    let neg = operands::unlike_signs(a, b);
    let o = rounding::round(mode, unmasked_ue, neg, product_place(a, b));
    operands::with_flags(operands::denormal_flag(a, b, b), o)
}

// The product of two significands has 21 digits or 22: from the exponent 23 on it is large.
fn normal_product(mode: Mode, unmasked_ue: bool, a: Normal, b: Normal) -> Outcome
    ensures { result ≡ half_multiply mode unmasked_ue a.half b.half }
{
    let m = a.product(b);
    let e = a.exponent() + b.exponent() + 7;
    let neg = operands::unlike_signs(a.half, b.half);
    if e < 23 {
        return normal::round_small(mode, unmasked_ue, neg, m, e);
    }
    normal::round_large(mode, neg, m, e)
}

pub fn multiply(mode: Mode, unmasked_ue: bool, a: u16, b: u16) -> Outcome
    ensures { result ≡ half_multiply mode unmasked_ue a b }
{
    let Some(x) = Normal::of(a) else {
        return any_product(mode, unmasked_ue, a, b);
    };
    let Some(y) = Normal::of(b) else {
        return any_product(mode, unmasked_ue, a, b);
    };
    normal_product(mode, unmasked_ue, x, y)
}
