// The destination of a scalar instruction (R5.10): lanes 1 to 7 from a register, lane 0 kept or written, 0 above.
ghost use Rattle.std.specs.Prelude.{◌≡◌, cond, [], ◌∷◌, ◌<◌, ltb, length, get_or, set};
ghost use Rattle.lists.specs.Lists.{table};
ghost use Rattle.evex.specs.Bits.{is_set};
ghost use Rattle.evex.proofs.Bounds.{Bounds};
ghost use Rattle.machine.specs.State.{byte_at};
ghost use Rattle.machine.specs.Lanes.{upper_from, vectors_with};
ghost use Rattle.store.specs.Work.{scalar_or};

use evex::Instruction;
use half::choice::either;
use sources::mask::has;

// R5.10: the first source, or the destination n where that is an operand.
pub(crate) fn upper_from(i: Instruction, n: usize) -> usize
    requires { Bounds i × (n < 32) }
    ensures { (result ≡ upper_from i n) × (result < 32) }
{
    let shape = i.shape;
    if shape.accumulates {
        return n;
    }
    i.first.unwrap_or(n)
}

// A register's bytes up to lane 7, and 0 above.
fn lower_lanes(vectors: &[u8; 2048], n: usize) -> [u8; 64]
    requires { n < 32 }
    ensures { result ≡ table 64 (λ q. cond (ltb q 16) (byte_at vectors.now n q) 0) }
{
    let mut bytes = [0u8; 64];
    let at = n * 64;
    bytes[..16].copy_from_slice(&vectors[at..at + 16]);
    bytes
}

// Writes a register, a range of the file and so a slice, and then the two bytes of its lane 0: the 64 are copied in one piece.
fn store_around(register: &mut [u8], bytes: [u8; 64], low: u8, high: u8)
    requires { length register.old ≡ 64 }
    ensures { register.new ≡ set (set bytes 0 low) 1 high }
{
    register.copy_from_slice(&bytes);
    register[0] = low;
    register[1] = high;
}

pub(crate) fn store_scalar(vectors: &mut [u8; 2048], n: usize, from: usize, kept: u32, half: u16)
    requires { (n < 32) × (from < 32) }
    ensures { vectors.new ≡ vectors_with (scalar_or (is_set kept) from n) vectors.old (half ∷ []) n }
{
    let bytes = lower_lanes(vectors, from);
    let at = n * 64;
    let end = at + 64;
    let keeps = has(kept, 0);
    let [low, high] = half.to_le_bytes();
    let low = either(keeps, vectors[at], low);
    let high = either(keeps, vectors[at + 1], high);
    store_around(&mut vectors[at..end], bytes, low, high);
}
