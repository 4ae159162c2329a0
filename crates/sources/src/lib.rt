// The three sources (R5.3, R5.5), each as 32 halves by value. Registers are read whole, though what a lane that is off has does not count
// (R5.2): nothing is computed from it. Memory is read only where a lane is on.
#![tactic(auto)]

ghost use Rattle.std.specs.Prelude.{◌≡◌, ◌+◌, ◌<◌, false, [], ◌∷◌, length, if◌then◌else◌};
ghost use Rattle.lists.specs.Lists.{number_at};
ghost use Rattle.evex.specs.Bits.{is_set};
ghost use Rattle.evex.proofs.Bounds.{DestinationIn, SourceIn};
ghost use Rattle.machine.specs.Memory.{word_from, word_bytes, outside};
ghost use Rattle.machine.specs.Lanes.{register_halves, memory_halves, destination_halves, first_halves};
ghost use Rattle.machine.specs.declared.Located.TheVariants.{Words};
ghost use Rattle.sources.specs.Work.{LocatedIn, every_lane, second_gathered};

use address::word_from;
use evex::Destination;
use machine::Located;
use mask::{end_of, has};

pub mod address;
pub mod mask;

// The half of two bytes, the lower first.
fn half_at(bytes: &[u8], at: usize) -> u16
    requires { at + 1 < length bytes.now }
    ensures { result ≡ number_at bytes.now (at ∷ (at + 1) ∷ []) }
{
    u16::from_le_bytes([bytes[at], bytes[at + 1]])
}

// No array type in this file: docs/GUARANTEES.md names the three functions that take the slice from their callers, and may ask no more.
// Loops here go by the lane's number, which gives the place and the mask bit too, so that `iter_mut` is no plainer; with `array::from_fn`,
// tried, no proof knows of a later call that the closure still holds the same slice.
fn register_halves(vectors: &[u8], n: usize) -> [u16; 32]
    requires { (length vectors.now ≡ 2048) × (n < 32) }
    ensures { result ≡ register_halves every_lane vectors.now n }
{
    let mut halves = [0u16; 32];
    for j in 0..32 {
        halves[j] = half_at(vectors, n * 64 + 2 * j);
    }
    halves
}

fn memory_half(on: u32, memory: &[u8], at: u64, broadcast: bool, j: usize) -> u16
    requires { (outside (is_set on) (length memory.now) (Words at broadcast) ≡ false) × (j < 32) }
    ensures { result ≡ (if is_set on j then number_at memory.now (word_bytes (word_from at broadcast j)) else 0) }
{
    if has(on, j) {
        return half_at(memory, word_from(at, broadcast, j) as usize);
    }
    0
}

fn memory_halves(on: u32, memory: &[u8], at: u64, broadcast: bool) -> [u16; 32]
    requires { outside (is_set on) (length memory.now) (Words at broadcast) ≡ false }
    ensures { result ≡ memory_halves (is_set on) memory.now at broadcast }
{
    let mut halves = [0u16; 32];
    let end = end_of(on);
    for j in 0..end {
        halves[j] = memory_half(on, memory, at, broadcast, j);
    }
    halves
}

// R2.2: the destination, where it is a source.
pub fn destination_halves(vectors: &[u8], accumulates: bool, destination: Destination) -> [u16; 32]
    requires { (length vectors.now ≡ 2048) × DestinationIn destination }
    ensures { result ≡ destination_halves every_lane vectors.now accumulates destination }
{
    let Destination::Vector(n) = destination else {
        return [0u16; 32];
    };
    if accumulates {
        return register_halves(vectors, n);
    }
    [0u16; 32]
}

pub fn first_halves(vectors: &[u8], first: Option<usize>) -> [u16; 32]
    requires { (length vectors.now ≡ 2048) × SourceIn first }
    ensures { result ≡ first_halves every_lane vectors.now first }
{
    match first {
        None => [0u16; 32],
        Some(n) => register_halves(vectors, n),
    }
}

pub fn second_halves(on: u32, vectors: &[u8], memory: &[u8], second: Located) -> [u16; 32]
    requires { (length vectors.now ≡ 2048) × LocatedIn second × (outside (is_set on) (length memory.now) second ≡ false) }
    ensures { result ≡ second_gathered (is_set on) vectors.now memory.now second }
{
    match second {
        Located::Register(n) => register_halves(vectors, n),
        Located::Words { at, broadcast } => memory_halves(on, memory, at, broadcast),
    }
}
