// Square root (R6.14).
ghost use Rattle.std.specs.Prelude.{◌≡◌, ◌+◌, ◌-◌, ◌*◌, ◌/◌, ◌<◌, ◌^◌, Bool, true, false, not, ◌&&◌};
ghost use Rattle.std.specs.Float.Ieee.{size};
ghost use Rattle.half.specs.Format.{is_finite, is_zero, negative, units};
ghost use Rattle.half.specs.Exact.{root_from, root_of};
ghost use Rattle.half.specs.Round.{rounded_half};
ghost use Rattle.half.specs.Operations.{half_root};
ghost use Rattle.half.specs.Work.{is_normal, root_place};

use super::normal::Normal;
use super::{Mode, Outcome, fields, normal, operands};

// A line that stays near the root of n, for an n of 23 digits one, for 24 (long) another: start + rise / 2^24. It is off by less than 20
// and 28, and the root is 2048 or more, so that the mean of Heron's rule is above the root by less than 1/7. (Tried for every n: rounded
// down, it is the whole root or the next number.)
fn start(long: bool) -> u64
    ensures { (0 < result) × (result < 2 ^ 11) }
{
    if long { 1722 } else { 1217 }
}

fn rise(long: bool, n: u64) -> u64
    requires { n < 2 ^ 24 }
    ensures { result < 2 ^ 36 }
{
    if long { n * 2399 } else { n * 3394 }
}

// On the line. That it is above 0 is all that the proof relies on.
fn guess(n: u64) -> u64
    requires { n < 2 ^ 24 }
    ensures { (0 < result) × (result < 2 ^ 13) }
{
    let long = 0x80_0000 <= n;
    start(long) + rise(long, n) / 0x100_0000
}

// s, or the number before it where the square of s is above n.
fn one_down(n: u64, s: u64) -> u64
    requires { (s < 2 ^ 25) × (n < (s + 1) * (s + 1)) }
    ensures { (result < 2 ^ 25) × (n < (result + 1) * (result + 1)) }
{
    if n < s * s { s - 1 } else { s }
}

// The largest number whose square is at most n. The mean of g and n / g is not below it, whatever g is, and close to it where g is:
// one_down finds it, with no branch to foresee, and the loop is there for an n that a guess is far from.
fn integer_root(n: u64) -> u64
    requires { n < 2 ^ 24 }
    ensures { result ≡ root_from 12 n 0 }
{
    let g = guess(n);
    let mut s = one_down(n, (g + n / g) / 2);
    while n < s * s {
        s -= 1;
    }
    s
}

// The place of the root of n.
fn root_place(n: u64) -> u64
    requires { n < 2 ^ 24 }
    ensures { result ≡ root_place 12 n }
{
    let s = integer_root(n);
    if s * s == n { s * 2 } else { s * 2 + 1 }
}

// Half the exponent of x's highest digit, rounded down.
fn half_exponent(x: u64) -> u32
    requires { 0 < x }
    ensures { result ≡ (size x - 1) / 2 }
{
    (63 - x.leading_zeros()) / 2
}

// The root of a finite half above 0. Its magnitude is brought to 23 or 24 digits, so that the root has 12, and 13 with a bit for the
// rest. No root is tiny.
fn finite_root(mode: Mode, a: u16) -> Outcome
    requires { (is_finite a ≡ true) × (is_zero a ≡ false) }
    ensures { (unmasked_ue : Bool) → result ≡ rounded_half mode unmasked_ue false (root_of (units a) (2 ^ 24)) }
{
    let x = fields::magnitude(a);
    let j = half_exponent(x);
    let z = root_place((x << 22) >> (2 * j));
    normal::packed(mode, false, z, j + 2)
}

// The root of a NaN, an infinity, a zero or a negative number, which turns on no mode.
fn special_root(a: u16) -> Outcome
    requires { (is_finite a && (not (negative a) && not (is_zero a))) ≡ false }
    ensures { (mode : Mode) (unmasked_ue : Bool) → result ≡ half_root mode unmasked_ue a }
{
    if operands::any_nan(a, a, a) {
        return operands::nan_result(a, a, a);
    }
    if fields::sign_of(a) & !fields::zero(a) {
        return operands::invalid_result();
    }
    Outcome {
        half: a,
        flags: operands::denormal_flag(a, a, a),
    }
}

// The root of any operand.
fn any_root(mode: Mode, a: u16) -> Outcome
    ensures { (unmasked_ue : Bool) → result ≡ half_root mode unmasked_ue a }
{
    let ordinary = fields::finite(a) & (!fields::sign_of(a) & !fields::zero(a));
    if !ordinary {
        return special_root(a);
    }
    let o = finite_root(mode, a);
    operands::with_flags(operands::denormal_flag(a, a, a), o)
}

// Of a normal half the exponent says by how much the significand is to be raised.
fn normal_root(mode: Mode, a: Normal) -> Outcome
    requires { negative a.half ≡ false }
    ensures { (unmasked_ue : Bool) → result ≡ half_root mode unmasked_ue a.half }
{
    let e = a.exponent();
    let z = root_place(a.significand() << (13 - e % 2));
    normal::packed(mode, false, z, (e + 13) / 2)
}

pub fn square_root(mode: Mode, unmasked_ue: bool, a: u16) -> Outcome
    ensures { result ≡ half_root mode unmasked_ue a }
{
    if fields::sign_of(a) {
        return special_root(a);
    }
    let Some(x) = Normal::of(a) else {
        return any_root(mode, a);
    };
    normal_root(mode, x)
}
