// Bits of bytes, and the numbers that bytes stand for.
#![tactic(auto, using(crate::proofs::Shifts::masked, crate::proofs::Shifts::flipped, crate::proofs::Shifts::beside))]

ghost use Rattle.std.specs.Prelude.{◌≡◌, ◌+◌, ◌*◌, ◌<◌, ◌^◌, get_or, pos, ◌*ℤ◌};
ghost use Rattle.evex.specs.Bits.{bits, is_set, inverted, four_bytes};

// `width` bits of a byte, from bit `at` on. Both are constants at every call, so that a type for numbers below 8 would be no plainer.
pub(crate) fn bits(x: u8, at: u8, width: u8) -> u8
    requires { (at < 8) × (width < 8) }
    ensures { result ≡ bits x at width }
{
    (x >> at) & ((1 << width) - 1)
}

pub(crate) fn is_set(x: u8, at: u8) -> bool
    requires { at < 8 }
    ensures { result ≡ is_set x at }
{
    bits(x, at, 1) == 1
}

// The same bits, where they are stored inverted.
pub(crate) fn inverted(x: u8, at: u8, width: u8) -> u8
    requires { (at < 8) × (width < 8) }
    ensures { result ≡ inverted x at width }
{
    bits(x, at, width) ^ ((1 << width) - 1)
}

// The number whose low `width` bits are `low`, and whose bits above them are `high`.
pub(crate) fn joined(high: u8, width: u8, low: u8) -> u8
    requires { (high < 8) × (width < 5) × (low < 2 ^ width) }
    ensures { result ≡ high * 2 ^ width + low }
{
    (high << width) | low
}

// A register's number: two bits of the prefix, and three of ModRM or SIB.
pub(crate) fn register(high: u8, middle: u8, low: u8) -> usize
    requires { (high < 2) × (middle < 2) × (low < 8) }
    ensures { result ≡ high * 16 + middle * 8 + low }
{
    usize::from(joined(high, 4, joined(middle, 3, low)))
}

// The byte at a place; 0 past the end.
pub(crate) fn byte_at(code: &[u8], at: usize) -> u8
    ensures { result ≡ get_or code.now at 0 }
{
    code.get(at).copied().unwrap_or(0)
}

// The number of four bytes, the lowest first.
pub(crate) fn four_bytes_at(code: &[u8], at: usize) -> u32
    requires { at < 16 }
    ensures { result ≡ four_bytes code.now at }
{
    u32::from_le_bytes([
        byte_at(code, at),
        byte_at(code, at + 1),
        byte_at(code, at + 2),
        byte_at(code, at + 3),
    ])
}

// R3.13: a displacement of one byte, in bytes.
pub(crate) fn scaled(d: i8, n: u8) -> i32
    ensures { result ≡ d *ℤ pos n }
{
    i32::from(d) * i32::from(n)
}
