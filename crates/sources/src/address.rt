// Addresses (R5.4) and the words at them (R5.5, R5.7).
ghost use Rattle.std.specs.Prelude.{◌≡◌, ◌+◌, ◌*◌, ◌%◌, ◌^◌, ◌<◌, ◌≤◌, ◌&&◌, leb, if◌then◌else◌, nat_le};
ghost use Rattle.evex.specs.Bits.{is_set};
ghost use Rattle.evex.proofs.Bounds.{BaseIn, IndexIn, OperandIn};
ghost use Rattle.lists.specs.Lists.{some};
ghost use Rattle.machine.specs.Memory.{wrapped, base_value, index_value, address_from, located, word_from, word_bytes, outside};
ghost use Rattle.machine.specs.declared.Located.TheVariants.{Words};
ghost use Rattle.sources.specs.Work.{LocatedIn};

use super::mask::{end_of, has};
use evex::{Address, Base, Index, Operand};
use machine::Located;

// A signed number modulo 2 to the 64.
fn wrapped(d: i32) -> u64
    ensures { result ≡ wrapped d }
{
    i64::from(d).cast_unsigned()
}

fn base_value(base: Option<Base>, general: &[u64; 16], next: u64) -> u64
    requires { BaseIn base }
    ensures { result ≡ base_value general.now next base }
{
    match base {
        None => 0,
        Some(Base::General(n)) => general[n],
        Some(Base::NextInstruction) => next,
    }
}

fn index_value(index: Option<Index>, general: &[u64; 16]) -> u64
    requires { IndexIn index }
    ensures { result ≡ index_value general.now index % 2 ^ 64 }
{
    match index {
        None => 0,
        Some(Index { number, scale }) => general[number] << scale,
    }
}

fn address(a: Address, general: &[u64; 16], next: u64) -> u64
    requires { BaseIn a.base × IndexIn a.index }
    ensures { result ≡ address_from general.now next a }
{
    base_value(a.base, general, next)
        .wrapping_add(index_value(a.index, general))
        .wrapping_add(wrapped(a.displacement))
}

// R5.5: where lane j's word begins. Address and broadcast stay two parameters, as the definition takes them.
pub(crate) fn word_from(at: u64, broadcast: bool, j: usize) -> u64
    requires { j < 32 }
    ensures { result ≡ word_from at broadcast j }
{
    if broadcast {
        return at;
    }
    at.wrapping_add((2 * j) as u64)
}

// One of a word's two bytes is outside a memory of this length.
fn word_outside(length: u64, at: u64) -> bool
    ensures { result ≡ some (λ a. leb length a) (word_bytes at) }
{
    (length <= at) | (length <= at.wrapping_add(1))
}

// Lane j is on, and reads outside.
fn lane_outside(on: u32, length: u64, at: u64, broadcast: bool, j: usize) -> bool
    requires { j < 32 }
    ensures { result ≡ (is_set on j && some (λ a. leb length a) (word_bytes (word_from at broadcast j))) }
{
    has(on, j) & word_outside(length, word_from(at, broadcast, j))
}

// So many words from an address on are inside a memory of this length.
fn words_inside(length: u64, at: u64, words: usize) -> bool
    requires { words ≤ 32 }
    ensures { result ≡ nat_le (at + 2 * words) length }
{
    if length < at {
        return false;
    }
    (2 * words) as u64 <= length - at
}

// How many words the lanes below `end` read, one behind the other; under broadcast all read one.
fn words_below(broadcast: bool, end: usize) -> usize
    ensures { result ≡ (if broadcast then 1 else end) }
{
    if broadcast {
        return 1;
    }
    end
}

// Where all words up to the last are inside, no lane needs a look.
fn words_outside(on: u32, length: u64, at: u64, broadcast: bool) -> bool
    ensures { result ≡ outside (is_set on) length (Words at broadcast) }
{
    let end = end_of(on);
    if words_inside(length, at, words_below(broadcast, end)) {
        return false;
    }
    // By the lane's number, of no slice, so that a `fold` is no plainer; and of all lanes, as `any` would branch at each.
    let mut found = false;
    for j in 0..end {
        found |= lane_outside(on, length, at, broadcast, j);
    }
    found
}

// Where the second source is (R5.4).
pub fn locate(second: Operand, general: &[u64; 16], next: u64) -> Located
    requires { OperandIn second }
    ensures { (result ≡ located general.now next second) × LocatedIn result }
{
    match second {
        Operand::Register(n) => Located::Register(n),
        Operand::Memory {
            address: a,
            broadcast,
        } => Located::Words {
            at: address(a, general, next),
            broadcast,
        },
    }
}

// R5.7: a lane that is on needs a byte outside a memory of this length.
pub fn is_outside(on: u32, length: u64, second: Located) -> bool
    ensures { result ≡ outside (is_set on) length second }
{
    match second {
        Located::Register(_) => false,
        Located::Words { at, broadcast } => words_outside(on, length, at, broadcast),
    }
}
