// The bytes of an instruction: its fields (R3.1 to R3.15), or why they are refused (R4.5 to R4.11).
#![tactic(auto)]

ghost use Rattle.std.specs.Prelude.{◌≡◌, map, Ok, Err};
ghost use Rattle.lists.specs.Lists.{first_of};
ghost use Rattle.evex.specs.Fields.{instruction};
ghost use Rattle.evex.specs.Decode.{row_conditions, decoded, number_of};

use form::Form;
use half::Mode;
use head::Head;

mod bits;
mod form;
mod head;
mod list;

#[derive(Clone, Copy)]
pub enum Operation {
    Add,
    Multiply,
    Subtract,
    Divide,
    SquareRoot,
    Fused132,
    Fused213,
    Fused231,
    Minimum,
    Maximum,
    Compare,
}

// What a row says beyond what finds it and its operation (R2.2, R3.6 to R3.8, R3.15): whether there is one element, whether there
// is a first source, whether the destination is an operand too; whether b in register form only suppresses exceptions, whether the
// destination is a mask, and whether there is an immediate.
#[derive(Clone, Copy)]
pub struct Shape {
    pub scalar: bool,
    pub first: bool,
    pub accumulates: bool,
    pub suppresses: bool,
    pub mask: bool,
    pub immediate: bool,
}

// Whose rounding mode and masks of exceptions count: the control word's, the mode that the instruction gives, with all exceptions masked, or
// the control word's mode with all of them masked.
#[derive(Clone, Copy)]
pub enum Rounding {
    Control,
    Embedded(Mode),
    Suppressed,
}

// What an instruction writes: a vector register, or a mask.
#[derive(Clone, Copy)]
pub enum Destination {
    Vector(usize),
    Mask(usize),
}

// What an address starts from: a general register, or the next instruction's address.
#[derive(Clone, Copy)]
pub enum Base {
    General(usize),
    NextInstruction,
}

// The general register whose value times 2 to the `scale` is added.
#[derive(Clone, Copy)]
pub struct Index {
    pub number: usize,
    pub scale: u8,
}

#[derive(Clone, Copy)]
pub struct Address {
    pub base: Option<Base>,
    pub index: Option<Index>,
    pub displacement: i32,
}

// The second source: a vector register, or memory, where with broadcast one word serves all lanes.
#[derive(Clone, Copy)]
pub enum Operand {
    Register(usize),
    Memory { address: Address, broadcast: bool },
}

// The fields of an instruction. Elements are 1, 8, 16 or 32, one to a lane from lane 0 on (R3.7); `mask` is aaa (R5.1); the first source
// is a vector register; the immediate is 0 where there is none; the size is the length in bytes (R3.14).
// Its bounds are no ghost field: `destination_of` (specs/Fields.antt) makes one of any bytes, and a mask above 7 where R4.10 refuses.
#[derive(Clone, Copy)]
pub struct Instruction {
    pub operation: Operation,
    pub shape: Shape,
    pub elements: usize,
    pub rounding: Rounding,
    pub zeroing: bool,
    pub mask: usize,
    pub destination: Destination,
    pub first: Option<usize>,
    pub second: Operand,
    pub immediate: u8,
    pub size: usize,
}

// Why bytes are refused: the code ends too early; not in the list; reserved encoding (R4.1).
#[derive(Clone, Copy)]
pub enum Refusal {
    Incomplete,
    Unlisted,
    Reserved,
}

impl Refusal {
    // The number of the answer (R4.1). A method, since `From` would not say which number it is.
    pub fn number(self) -> u32
        ensures { result ≡ number_of self }
    {
        match self {
            Refusal::Incomplete => 3,
            Refusal::Unlisted => 4,
            Refusal::Reserved => 5,
        }
    }
}

// From R4.10 on. By itself, since the compiler takes what stands behind many tests for rare, and would not inline the fields.
fn decode_row(form: Form, code: &[u8]) -> Result<Instruction, Refusal>
    ensures { result
        ≡ first_of (map (λ c. (c.0, Err c.1)) (row_conditions form.head code.now form.row))
        (Ok (instruction form.head form.row code.now)) }
{
    if form.is_reserved() {
        return Err(Refusal::Reserved);
    }
    if code.len() < form.size() {
        return Err(Refusal::Incomplete);
    }
    Ok(form.instruction(code))
}

// The instruction that the bytes begin with, in the order of R4.2. What follows it has no effect (R4.18).
#[tactic(auto, unfolding(crate::specs::Decode::decoded, crate::specs::Decode::refusals, crate::specs::Decode::head_conditions, crate::specs::Decode::no_bytes, crate::specs::Decode::wrong_first_byte, crate::specs::Decode::fewer_than_six_bytes, crate::specs::Decode::not_in_list))]
pub fn decode(code: &[u8]) -> Result<Instruction, Refusal>
    ensures { result ≡ decoded code.now }
{
    if code.is_empty() {
        return Err(Refusal::Incomplete);
    }
    if code[0] != 0x62 {
        return Err(Refusal::Unlisted);
    }
    if code.len() < 6 {
        return Err(Refusal::Incomplete);
    }
    let head = Head::of(code);
    if head.has_wrong_fixed_bits() {
        return Err(Refusal::Reserved);
    }
    let row = head.listed().ok_or(Refusal::Unlisted)?;
    decode_row(Form::of(head, row), code)
}
