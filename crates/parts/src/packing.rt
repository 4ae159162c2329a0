// The vector file packed (R9.8): a word with a bit for each register, and those that are not all zero.
ghost use Rattle.std.specs.Prelude.{◌≡◌, cond, ◌++◌, ◌+◌, ◌*◌, ◌^◌, ◌≤◌, ◌<◌, length, take, drop};
ghost use Rattle.evex.specs.Bits.{is_set};
ghost use Rattle.forms.specs.File.{present, if_present, presence, pack, word_in, place_of};
ghost use Rattle.forms.specs.File.{zeros, unpack, packed_size, is_empty, has_empty};

use crate::{clear, copy_register, put_number, read_number};

// Some byte of a register is not zero: all are or-ed, so that the loop has no branch.
fn is_present(register: &[u8]) -> bool
    ensures { result ≡ present register.now }
{
    register.iter().fold(0, |all, byte| all | *byte) != 0
}

// Bit i of a word.
fn is_marked(word: u32, i: usize) -> bool
    requires { i < 32 }
    ensures { result ≡ is_set word i }
{
    (word >> i) % 2 == 1
}

// The bit of register i in the word, 0 where it is all zero.
fn mark(register: &[u8; 64], i: usize) -> u32
    requires { i < 32 }
    ensures { result ≡ cond (present register.now) 1 0 * 2 ^ i }
{
    if is_present(register) {
        return 1 << i;
    }
    0
}

// The word of a file.
pub(crate) fn word_of(vectors: &[u8]) -> u32
    requires { length vectors.now ≡ 2048 }
    ensures { result ≡ presence vectors.now }
{
    let mut word = 0;
    let (registers, _) = vectors.as_chunks::<64>();
    for (i, register) in registers.iter().enumerate() {
        word += mark(register, i);
    }
    word
}

// How many bytes a register takes behind the word.
fn size_of(word: u32, i: usize) -> usize
    requires { i < 32 }
    ensures { result ≡ cond (is_set word i) 64 0 }
{
    if is_marked(word, i) {
        return 64;
    }
    0
}

// How many bytes a packed file has, by its word. The loop goes over the numbers of bits, as the definition does.
pub(crate) fn size_by(word: u32) -> usize
    ensures { (result ≡ place_of word 32) × (result ≤ 2052) }
{
    let mut at = 4;
    for i in 0..32 {
        at += size_of(word, i);
    }
    at
}

// A register at a place, if it is marked; the place behind it.
fn put_one(part: &mut [u8], at: usize, word: u32, i: usize, register: &[u8; 64]) -> usize
    requires { (i < 32)
        × (is_set word i ≡ present register.now)
        × (at + length (if_present register.now) ≤ length part.old) }
    ensures { (result ≡ at + length (if_present register.now))
        × (part.new
        ≡ take at part.old
        ++ (if_present register.now ++ drop (length (if_present register.now)) (drop at part.old))) }
{
    if is_marked(word, i) {
        let end = at + 64;
        copy_register(&mut part[at..end], register);
        return end;
    }
    at
}

// A file over a part, packed by its word.
pub(crate) fn put_packed(part: &mut [u8], word: u32, vectors: &[u8])
    requires { (length vectors.now ≡ 2048)
        × (word ≡ presence vectors.now)
        × (length part.old ≡ length (pack vectors.now)) }
    ensures { part.new ≡ pack vectors.now }
{
    put_number(&mut part[0..4], word as u64);
    let mut at = 4;
    let (registers, _) = vectors.as_chunks::<64>();
    for (i, register) in registers.iter().enumerate() {
        at = put_one(part, at, word, i, register);
    }
}

// The word that a packed file begins with.
fn word_in(part: &[u8]) -> u32
    requires { 4 ≤ length part.now }
    ensures { result ≡ word_in part.now }
{
    read_number(&part[0..4]) as u32
}

// How many bytes a packed file should have, as its word says.
pub(crate) fn size_in(part: &[u8]) -> usize
    requires { 4 ≤ length part.now }
    ensures { (result ≡ packed_size part.now) × (result ≤ 2052) }
{
    size_by(word_in(part))
}

// Register i, at a place, is marked and all zero.
fn is_empty(word: u32, i: usize, part: &[u8], at: usize) -> bool
    requires { (i < 32)
        × (word ≡ word_in part.now)
        × (at ≡ place_of word i)
        × (at + cond (is_set word i) 64 0 ≤ length part.now) }
    ensures { result ≡ is_empty part.now i }
{
    if is_marked(word, i) {
        let end = at + 64;
        return !is_present(&part[at..end]);
    }
    false
}

// Some register is. By the number of its bit: those that are there lie at places that the word tells.
pub(crate) fn has_empty(part: &[u8]) -> bool
    requires { length part.now ≡ packed_size part.now }
    ensures { result ≡ has_empty part.now }
{
    let word = word_in(part);
    let mut at = 4;
    for i in 0..32 {
        if is_empty(word, i, part, at) {
            return true;
        }
        at += size_of(word, i);
    }
    false
}

// A register that stands at a place if it is marked, else zeros; the place behind it.
fn read_one(word: u32, i: usize, part: &[u8], at: usize, register: &mut [u8]) -> usize
    requires { (i < 32)
        × (length register.old ≡ 64)
        × (at + cond (is_set word i) 64 0 ≤ length part.now) }
    ensures { (result ≡ at + cond (is_set word i) 64 0)
        × (register.new ≡ cond (is_set word i) (take 64 (drop at part.now)) (zeros 64)) }
{
    if is_marked(word, i) {
        let end = at + 64;
        copy_register(register, &part[at..end]);
        return end;
    }
    clear(register);
    at
}

// The file that is packed in a part. Registers are lent by places: std does not say what the file holds after `as_chunks_mut`.
pub(crate) fn read_packed(part: &[u8], vectors: &mut [u8])
    requires { (length vectors.old ≡ 2048) × (length part.now ≡ packed_size part.now) }
    ensures { vectors.new ≡ unpack part.now }
{
    let word = word_in(part);
    let mut at = 4;
    for i in 0..32 {
        let from = 64 * i;
        let end = 64 * (i + 1);
        at = read_one(word, i, part, at, &mut vectors[from..end]);
    }
}
