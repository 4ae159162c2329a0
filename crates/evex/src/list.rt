// The list of instructions (R2.1).
#![tactic(auto, unfolding(crate::specs::List::rows))]

ghost use Rattle.std.specs.Prelude.{◌≡◌, false, ◌&&◌, ◌∷◌, ℕ, ◌+◌, ◌<◌, ◌≤◌, eqb, length, take, drop};
ghost use Rattle.lists.specs.Lists.{some};
ghost use Rattle.evex.specs.List.{rows, operation, shape, find};

use super::{Operation, Shape};

// A row of the table: prefix bits, map, W, opcode, operation, shape.
#[derive(Clone, Copy)]
pub struct Row(pub u8, pub u8, pub u8, pub u8, pub Operation, pub Shape);

// R2.2: two sources; the second alone; two and the destination.
const PACKED: Shape = Shape {
    scalar: false,
    first: true,
    accumulates: false,
    suppresses: false,
    mask: false,
    immediate: false,
};

const ROOT: Shape = Shape {
    first: false,
    ..PACKED
};

const FUSED: Shape = Shape {
    accumulates: true,
    ..PACKED
};

// R2.2, R3.7: one element.
const SCALAR: Shape = Shape {
    scalar: true,
    ..PACKED
};

const FUSED_SCALAR: Shape = Shape {
    scalar: true,
    accumulates: true,
    ..PACKED
};

// R3.8: nothing is rounded. R3.6, R3.15: and a mask is written, by an immediate.
const SELECTING: Shape = Shape {
    suppresses: true,
    ..PACKED
};

const COMPARING: Shape = Shape {
    suppresses: true,
    mask: true,
    immediate: true,
    ..PACKED
};

const COUNT: usize = 19;

impl Row {
    // The columns that are read once the row is found.

    pub(crate) fn operation(self) -> Operation
        ensures { result ≡ operation self }
    {
        self.4
    }

    pub(crate) fn shape(self) -> Shape
        ensures { result ≡ shape self }
    {
        self.5
    }
}

// Row i of the table, which stands before the rest. Its proof holds the whole table, and the search below none of it. A `match` lies ready
// in the program, where a constant array would be laid out at each step.
fn row_at(i: usize) -> Row
    requires { i < length rows }
    ensures { drop i rows ≡ result ∷ drop (i + 1) rows }
{
    match i {
        0 => Row(0, 5, 0, 0x58, Operation::Add, PACKED),
        1 => Row(0, 5, 0, 0x59, Operation::Multiply, PACKED),
        2 => Row(0, 5, 0, 0x5c, Operation::Subtract, PACKED),
        3 => Row(0, 5, 0, 0x5e, Operation::Divide, PACKED),
        4 => Row(0, 5, 0, 0x51, Operation::SquareRoot, ROOT),
        5 => Row(1, 6, 0, 0x98, Operation::Fused132, FUSED),
        6 => Row(1, 6, 0, 0xa8, Operation::Fused213, FUSED),
        7 => Row(1, 6, 0, 0xb8, Operation::Fused231, FUSED),
        8 => Row(2, 5, 0, 0x58, Operation::Add, SCALAR),
        9 => Row(2, 5, 0, 0x59, Operation::Multiply, SCALAR),
        10 => Row(2, 5, 0, 0x5c, Operation::Subtract, SCALAR),
        11 => Row(2, 5, 0, 0x5e, Operation::Divide, SCALAR),
        12 => Row(2, 5, 0, 0x51, Operation::SquareRoot, SCALAR),
        13 => Row(1, 6, 0, 0x99, Operation::Fused132, FUSED_SCALAR),
        14 => Row(1, 6, 0, 0xa9, Operation::Fused213, FUSED_SCALAR),
        15 => Row(1, 6, 0, 0xb9, Operation::Fused231, FUSED_SCALAR),
        16 => Row(0, 5, 0, 0x5d, Operation::Minimum, SELECTING),
        17 => Row(0, 5, 0, 0x5f, Operation::Maximum, SELECTING),
        _ => Row(0, 3, 0, 0xc2, Operation::Compare, COMPARING),
    }
}

// No row before this one has the opcode, and none before the eighth behind it has it with the prefix F3.
fn start_of(opcode: u8) -> usize
    ensures { (some (λ row. eqb row.3 opcode) (take result rows) ≡ false)
        × (some (λ row. eqb row.0 2 && eqb row.3 opcode) (take (result + 8) rows) ≡ false)
        × (result ≤ 18) }
{
    match opcode {
        0x59 => 1,
        0x5c => 2,
        0x5e => 3,
        0x51 => 4,
        0x98 => 5,
        0xa8 => 6,
        0xb8 => 7,
        0x99 => 13,
        0xa9 => 14,
        0xb9 => 15,
        0x5d => 16,
        0x5f => 17,
        0xc2 => 18,
        _ => 0,
    }
}

// Where the search begins: no row before it is the one.
fn first_row(prefix: u8, opcode: u8) -> usize
    ensures { (map w : ℕ) → find (drop result rows) prefix map w opcode ≡ find rows prefix map w opcode }
{
    let number = start_of(opcode);
    if prefix == 2 {
        return number + 8;
    }
    number
}

// The row that has these.
pub(crate) fn find(prefix: u8, map: u8, w: u8, opcode: u8) -> Option<Row>
    ensures { result ≡ find rows prefix map w opcode }
{
    for i in first_row(prefix, opcode)..COUNT {
        let row = row_at(i);
        if (row.0 == prefix) & (row.1 == map) & (row.2 == w) & (row.3 == opcode) {
            return Some(row);
        }
    }
    None
}
