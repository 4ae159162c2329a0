// The destination (R5.9): the lanes that are not kept are written, with 0 where they are off; the others are left in place. Of a
// scalar instruction it is stored in scalar.rt. Of a comparison it is a mask (R5.11).
#![tactic(auto)]

ghost use Rattle.std.specs.Prelude.{◌≡◌, ◌+◌, ◌*◌, ◌/◌, ◌%◌, ◌<◌, ◌≤◌, length, get_or, set};
ghost use Rattle.lists.specs.Lists.{table, binary};
ghost use Rattle.evex.specs.Bits.{is_set};
ghost use Rattle.evex.proofs.Bounds.{Bounds};
ghost use Rattle.machine.specs.Lanes.{computed, new_register, vectors_with};
ghost use Rattle.store.specs.Work.{kept_by, kept_or, stored_by, halves_of, lowest_bits, vectors_stored, masks_stored};

use evex::{Destination, Instruction};
use lanes::Results;
use scalar::{store_scalar, upper_from};
use sources::mask::{below, end_of, has};

mod scalar;

// Writes lane j of a register.
fn store_half(register: &mut [u8; 64], half: u16, j: usize)
    requires { j < 32 }
    ensures { register.new ≡ set (set register.old (2 * j) (half % 256)) (2 * j + 1) (half / 256 % 256) }
{
    let at = 2 * j;
    let [low, high] = half.to_le_bytes();
    register[at] = low;
    register[at + 1] = high;
}

// Writes every lane. This loop and the next go by the lane's number, which is that of its half, its mask bit and its two bytes: zipped slices
// are no plainer.
fn store_all(register: &mut [u8; 64], halves: [u16; 32])
    ensures { register.new ≡ new_register (λ j. computed) register.old halves }
{
    for j in 0..32 {
        store_half(register, halves[j], j);
    }
}

// Writes the lanes that are not kept. The loop ends behind the last of them.
fn store_some(register: &mut [u8; 64], kept: u32, halves: [u16; 32])
    ensures { register.new ≡ new_register (kept_or (is_set kept) 0) register.old halves }
{
    let end = end_of(!kept);
    for j in 0..end {
        if has(kept, j) {
            continue;
        }
        store_half(register, halves[j], j);
    }
}

// The register lent is number 0 of the contract, as if it were a file by itself. It is a range of the file, and so a slice: of what a range
// holds after `as_mut_array` no proof knows.
fn store_lanes(register: &mut [u8], kept: u32, halves: [u16; 32])
    requires { length register.old ≡ 64 }
    ensures { register.new ≡ new_register (kept_or (is_set kept) 0) register.old halves }
{
    let register = register.as_mut_array::<64>().unwrap();
    if kept == 0 {
        store_all(register, halves);
        return;
    }
    store_some(register, kept, halves);
}

fn store_packed(vectors: &mut [u8; 2048], n: usize, kept: u32, halves: [u16; 32])
    requires { n < 32 }
    ensures { vectors.new ≡ vectors_with (kept_or (is_set kept) n) vectors.old halves n }
{
    let at = n * 64;
    let end = at + 64;
    store_lanes(&mut vectors[at..end], kept, halves);
}

// R5.9: the lanes that are off and keep their half.
fn lanes_kept(on: u32, i: Instruction) -> u32
    requires { Bounds i }
    ensures { is_set result ≡ kept_by (is_set on) i }
{
    if i.zeroing {
        return 0;
    }
    !on & below(i.elements)
}

// Register n.
fn store_vector(vectors: &mut [u8; 2048], on: u32, i: Instruction, n: usize, results: Results)
    requires { Bounds i × (n < 32) }
    ensures { vectors.new ≡ vectors_with (stored_by (is_set on) i n) vectors.old (halves_of i results) n }
{
    let kept = lanes_kept(on, i);
    let shape = i.shape;
    if shape.scalar {
        store_scalar(vectors, n, upper_from(i, n), kept, results.joined);
        return;
    }
    let halves = results.halves;
    store_packed(vectors, n, kept, halves);
}

// The lowest bits of sixteen lanes, in 16 bits, as vector instructions take them. By the lane's number, which is also its bit's.
fn sixteen_bits(halves: [u16; 32], from: usize) -> u16
    requires { from ≤ 16 }
    ensures { result ≡ binary (table 16 (λ j. get_or halves (from + j) 0 % 2)) }
{
    let mut bits = 0u16;
    for j in 0..16 {
        bits |= (halves[from + j] % 2) << j;
    }
    bits
}

fn mask_of(halves: [u16; 32]) -> u32
    ensures { result ≡ lowest_bits halves }
{
    u32::from(sixteen_bits(halves, 0)) | (u32::from(sixteen_bits(halves, 16)) << 16)
}

// R5.11: every bit of the mask.
fn store_mask(masks: &mut [u64; 8], n: usize, bits: u64)
    requires { n < 8 }
    ensures { masks.new ≡ set masks.old n bits }
{
    masks[n] = bits;
}

// R5.9 to R5.11: a vector register, or a mask. The file is a slice, as docs/GUARANTEES.md names this function; with its length known `unwrap`
// is no branch.
pub fn store(vectors: &mut [u8], masks: &mut [u64; 8], on: u32, i: Instruction, results: Results)
    requires { (length vectors.old ≡ 2048) × Bounds i }
    ensures { (vectors.new ≡ vectors_stored (is_set on) i results vectors.old i.destination)
        × (masks.new ≡ masks_stored results masks.old i.destination) }
{
    let vectors = vectors.as_mut_array::<2048>().unwrap();
    let destination = i.destination;
    match destination {
        Destination::Vector(n) => store_vector(vectors, on, i, n, results),
        Destination::Mask(n) => {
            let halves = results.halves;
            store_mask(masks, n, u64::from(mask_of(halves)));
        }
    }
}
