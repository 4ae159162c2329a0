// The one rounding that all operations share (R6.17 to R6.24). A magnitude comes as its place t among the multiples of 2^-26
// (specs/Work.antt): t / 2^27 rounds as the magnitude does.
ghost use Rattle.std.specs.Prelude.{◌≡◌, ◌+◌, ◌-◌, ◌*◌, ◌^◌, ◌<◌, ◌≤◌, true, false, cond};
ghost use Rattle.std.specs.Int.Bits.{bit_or};
ghost use Rattle.std.specs.Float.Ieee.{size};
ghost use Rattle.half.specs.Format.{with_sign};
ghost use Rattle.half.specs.Exact.{ratio, is_nearest, outward, round_to};
ghost use Rattle.half.specs.Round.{OE, PE, outcome, tiny, overflow_fields, rounded_half};
ghost use Rattle.half.specs.Work.{place};

use super::choice::either;
use super::{Mode, OE, Outcome, PE, UE, fields, operands};

fn is_nearest(mode: Mode) -> bool
    ensures { result ≡ is_nearest mode }
{
    mode == Mode::Nearest
}

// A match of four would be a jump by the mode, which no processor foresees; a comparison is none.
fn leads_outward(mode: Mode, neg: bool) -> bool
    ensures { result ≡ outward mode neg }
{
    mode == either(neg, Mode::Down, Mode::Up)
}

// What is added to z before it is divided by 4, to carry where the mode goes up; odd is z / 4 % 2.
fn carry(nearest: bool, outward: bool, odd: u64) -> u64
    requires { odd < 2 }
    ensures { result ≡ cond nearest (1 + odd) (cond outward 3 0) }
{
    if nearest {
        return 1 + odd;
    }
    if outward {
        return 3;
    }
    0
}

// z / 4 rounded to a whole number.
pub fn whole_steps(mode: Mode, neg: bool, z: u64) -> u64
    requires { z < 2 ^ 63 }
    ensures { result ≡ round_to mode neg (ratio z 4) 1 1 }
{
    let outward = leads_outward(mode, neg);
    (z + carry(is_nearest(mode), outward, z / 4 % 2)) / 4
}

fn overflow_fields(mode: Mode, neg: bool) -> u16
    ensures { result ≡ overflow_fields mode neg }
{
    if is_nearest(mode) | leads_outward(mode, neg) {
        return 0x7C00;
    }
    0x7BFF
}

// R6.20: what a magnitude gives that is too large.
pub fn overflow(mode: Mode, neg: bool) -> Outcome
    ensures { result ≡ outcome (with_sign neg (overflow_fields mode neg)) (bit_or OE PE) }
{
    let m = overflow_fields(mode, neg);
    Outcome {
        half: fields::with_sign(neg, m),
        flags: OE | PE,
    }
}

// The place of t / 2^k.
pub fn place_of(t: u64, k: u32) -> u64
    requires { (1 ≤ k) × (k < 64) }
    ensures { result ≡ place t (2 ^ k) }
{
    let q = t >> k;
    if q << k == t { 2 * q } else { 2 * q + 1 }
}

// How many digits t has above 14.
fn dropped(t: u64) -> u32
    ensures { result ≡ size t - 14 }
{
    let zeros = t.leading_zeros();
    if zeros < 50 { 50 - zeros } else { 0 }
}

// R6.21: t / 2^27 is tiny. 2^-14 is 8192 of these, and just below it the steps of 11 bits are 4. The last step, from 8188 on, is the odd
// 2047: what is carried into the next leads to 2^-14.
fn is_tiny(mode: Mode, neg: bool, t: u64) -> bool
    ensures { result ≡ tiny mode neg (ratio t (2 ^ 27)) }
{
    let outward = leads_outward(mode, neg);
    (t != 0) & (t < 8192 - carry(is_nearest(mode), outward, 1))
}

// t / 2^27 rounded.
pub fn round(mode: Mode, unmasked_ue: bool, neg: bool, t: u64) -> Outcome
    ensures { result ≡ rounded_half mode unmasked_ue neg (ratio t (2 ^ 27)) }
{
    let k = dropped(t);
    let z = place_of(t, k + 2);
    let q = whole_steps(mode, neg, z);
    let m = (k as u64) * 1024 + q;
    if 0x7C00 <= m {
        return overflow(mode, neg);
    }
    let inexact = z % 4 != 0;
    let ue = is_tiny(mode, neg, t) & (unmasked_ue | inexact);
    let h = fields::with_sign(neg, m as u16);
    Outcome {
        half: h,
        flags: operands::flag_if(PE, inexact) | operands::flag_if(UE, ue),
    }
}
