// Addition and subtraction (R6.12, R6.13).
ghost use Rattle.std.specs.Prelude.{◌≡◌, ◌<◌, ◌≤◌, ◌+◌, ◌*◌, ◌^◌, min, Bool, true, false, ◌&&◌, cond, ltb};
ghost use Rattle.half.specs.Format.{is_finite, is_nan, negative, negated, units, with_sign};
ghost use Rattle.half.specs.Work.{place, is_normal, sum_magnitude, sum_sign, Summed};
ghost use Rattle.half.specs.Operations.{cancelled, exact_sum, half_add, half_subtract};

use super::normal::Normal;
use super::{Mode, Outcome, fields, normal, operands, rounding};

// R6.12: the zero that terms of unlike signs give.
fn cancelled_zero(mode: Mode) -> u16
    ensures { result ≡ cancelled mode }
{
    if mode == Mode::Down { 0x8000 } else { 0 }
}

// The magnitude of ±x and ±y added. By the larger and the smaller one, since the signs of operands are no branch that a processor
// foresees.
fn total(like: bool, x: u64, y: u64) -> u64
    requires { x + y < 2 ^ 64 }
    ensures { result ≡ sum_magnitude like x y }
{
    let l = x.max(y);
    let s = x.min(y);
    if like { l + s } else { l - s }
}

// The sign of the larger one. Signs and magnitudes stay apart, as `exact_sum` takes them.
fn sign_of_larger(sx: bool, x: u64, sy: bool, y: u64) -> bool
    ensures { result ≡ sum_sign sx x sy y }
{
    if x < y { sy } else { sx }
}

// The place of m / 2^k. For k = 1, which most sums come with, it is m itself.
fn place_of_sum(m: u64, k: u32) -> u64
    requires { (1 ≤ k) × (k < 64) }
    ensures { result ≡ place m (2 ^ k) }
{
    if k == 1 {
        return m;
    }
    rounding::place_of(m, k)
}

// R6.12: the zero that a sum is.
fn zero_sum(mode: Mode, like: bool, neg: bool) -> u16
    ensures { result ≡ cond like (with_sign neg 0) (cancelled mode) }
{
    if like {
        return fields::with_sign(neg, 0);
    }
    cancelled_zero(mode)
}

// ±x / 2^(26 + k) and ±y / 2^(26 + k) added and rounded.
pub(crate) fn finite_sum(
    mode: Mode,
    unmasked_ue: bool,
    sx: bool,
    x: u64,
    sy: bool,
    y: u64,
    k: u32,
) -> Outcome
    requires { (x + y < 2 ^ 64) × (1 ≤ k) × (k < 64) }
    ensures { result ≡ exact_sum mode unmasked_ue sx x sy y (2 ^ (k + 26)) }
{
    let like = sx == sy;
    let m = total(like, x, y);
    if m == 0 {
        return Outcome {
            half: zero_sum(mode, like, sx),
            flags: 0,
        };
    }
    let neg = sign_of_larger(sx, x, sy, y);
    rounding::round(mode, unmasked_ue, neg, place_of_sum(m, k))
}

// A sum with a NaN or an infinity, which turns on no mode.
fn special_sum(a: u16, b: u16) -> Outcome
    requires { (is_finite a && (is_finite b && is_finite b)) ≡ false }
    ensures { (mode : Mode) (unmasked_ue : Bool) → result ≡ half_add mode unmasked_ue a b }
{
    if operands::any_nan(a, b, b) {
        return operands::nan_result(a, b, b);
    }
    let de = operands::denormal_flag(a, b, b);
    if fields::infinite(a) & fields::infinite(b) & operands::unlike_signs(a, b) {
        return operands::invalid_result();
    }
    if fields::infinite(a) {
        return Outcome { half: a, flags: de };
    }
    Outcome { half: b, flags: de }
}

// The sum of any operands.
fn any_sum(mode: Mode, unmasked_ue: bool, a: u16, b: u16) -> Outcome
    ensures { result ≡ half_add mode unmasked_ue a b }
{
    if !operands::all_finite(a, b, b) {
        return special_sum(a, b);
    }
    let x = fields::magnitude(a) * 8;
    let y = fields::magnitude(b) * 8;
    let sx = fields::sign_of(a);
    let sy = fields::sign_of(b);
    let o = finite_sum(mode, unmasked_ue, sx, x, sy, y, 1);
    operands::with_flags(operands::denormal_flag(a, b, b), o)
}

// Two normal halves have their digits in 64 bits, at one exponent.
fn normal_sum(a: Normal, b: Normal) -> normal::Sum
    ensures { Summed (negative a.half) (units a.half * 2 ^ 33) (negative b.half) (units b.half * 2 ^ 33) result }
{
    let x = a.magnitude();
    let y = b.magnitude();
    let sx = fields::sign_of(a.half);
    let sy = fields::sign_of(b.half);
    normal::Sum {
        neg: sign_of_larger(sx, x, sy, y),
        digits: total(sx == sy, x, y),
        exponent: 32,
    }
}

// ±x * 2^i and ±y * 2^j added, a product and an addend: at the lower one of the exponents their digits have room in 64 bits.
pub(crate) fn shifted_sum(sx: bool, x: u64, i: u32, sy: bool, y: u64, j: u32) -> normal::Sum
    requires { (x < 2 ^ 22) × (y < 2 ^ 11) × (9 ≤ i) × (i ≤ 67) × (33 ≤ j) × (j ≤ 62) }
    ensures { Summed sx (x * 2 ^ i) sy (y * 2 ^ j) result }
{
    let low = i.min(j);
    let xs = x << (i - low);
    let ys = y << (j - low);
    normal::Sum {
        neg: sign_of_larger(sx, xs, sy, ys),
        digits: total(sx == sy, xs, ys),
        exponent: low,
    }
}

pub fn add(mode: Mode, unmasked_ue: bool, a: u16, b: u16) -> Outcome
    ensures { result ≡ half_add mode unmasked_ue a b }
{
    let Some(x) = Normal::of(a) else {
        return any_sum(mode, unmasked_ue, a, b);
    };
    let Some(y) = Normal::of(b) else {
        return any_sum(mode, unmasked_ue, a, b);
    };
    let s = normal_sum(x, y);
    if !normal::is_large(s.digits, s.exponent) {
        return any_sum(mode, unmasked_ue, a, b);
    }
    normal::round_large(mode, s.neg, s.digits, s.exponent)
}

// R6.13: the sign turned, but that of a NaN.
fn subtrahend(b: u16) -> u16
    ensures { result ≡ cond (is_nan b) b (negated b) }
{
    if fields::nan(b) { b } else { b ^ 0x8000 }
}

pub fn subtract(mode: Mode, unmasked_ue: bool, a: u16, b: u16) -> Outcome
    ensures { result ≡ half_subtract mode unmasked_ue a b }
{
    add(mode, unmasked_ue, a, subtrahend(b))
}
