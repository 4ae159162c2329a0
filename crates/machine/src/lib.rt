// The machine's own types; its meaning is in specs/, and what is proved of it in proofs/. The code of a step stands in the
// crates `sources`, `lanes`, `store` and `step`.
#![tactic(auto)]

use half::Mode;

// What every step hands back: the number of its answer (R4.1) and the instruction's length in bytes (R4.17).
#[repr(C)]
#[derive(Clone, Copy)]
pub struct Answer {
    pub number: u32,
    pub length: u32,
}

// A state of our own (R1.1): the vector file, the masks and general registers, the control word, the pointer.
#[derive(Drop)]
pub struct Registers {
    pub vectors: [u8; 2048],
    pub masks: [u64; 8],
    pub general: [u64; 16],
    pub control: u32,
    pub pointer: u64,
}

// A state as it is lent to a step: the vector file has its size (R4.3), and the general registers are only read (R1.4).
#[derive(Drop)]
pub struct Machine<'a> {
    pub vectors: &'a mut [u8; 2048],
    pub masks: &'a mut [u64; 8],
    pub general: &'a [u64; 16],
    pub control: &'a mut u32,
    pub pointer: &'a mut u64,
}

// Where the second source is (R5.3, R5.5): a vector register, or the words of memory from an address on, with broadcast the one there.
#[derive(Clone, Copy)]
pub enum Located {
    Register(usize),
    Words { at: u64, broadcast: bool },
}

// What an operation is told besides its operands: the rounding mode, whether UE is unmasked (R7.5), and the immediate (R3.15).
#[derive(Clone, Copy)]
pub struct Environment {
    pub mode: Mode,
    pub underflow: bool,
    pub immediate: u8,
}

// What an operation gives for one element (R2.1): a half, or a bit of a mask.
#[derive(Clone, Copy)]
pub struct Element {
    pub value: u16,
    pub flags: u8,
}
