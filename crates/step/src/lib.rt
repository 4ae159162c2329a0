// One step of the machine, in the order of R4.2.
#![tactic(auto)]

ghost use Rattle.std.specs.Prelude.{◌≡◌, length};
ghost use Rattle.evex.specs.Bits.{is_set};
ghost use Rattle.evex.proofs.Bounds.{Bounds};
ghost use Rattle.machine.specs.Step.{step};
ghost use Rattle.machine.specs.State.{state_of, lent_state, stepped_of};
ghost use Rattle.step.specs.Work.{LendsTheSame, stepped, finished, executed, refusal_number};

use evex::{Instruction, Refusal};
use lanes::control::Control;
use lanes::{Results, all_lanes};
use machine::{Answer, Machine};
use sources::address::{is_outside, locate};
use sources::mask::lanes_on;
use sources::{destination_halves, first_halves, second_halves};
use store::store;

// R4.17: an answer other than 0 has length 0.
fn ended(number: u32) -> Answer
    ensures { result ≡ record { number = number; length = 0 } }
{
    Answer { number, length: 0 }
}

fn refusal_number(d: Result<Instruction, Refusal>) -> u32
    ensures { result ≡ refusal_number d }
{
    match d {
        Ok(_) => 0,
        Err(r) => r.number(),
    }
}

// The lanes are computed: an unmasked exception (R4.16), or the destination written and the pointer moved (R4.15).
fn finish(machine: &mut Machine<'_>, i: Instruction, on: u32, next: u64, results: Results) -> Answer
    requires { Bounds i }
    ensures left { stepped result (lent_state machine.new) ≡ finished (is_set on) i results next (lent_state machine.old) }
    ensures same { LendsTheSame machine.old machine.new }
{
    let word = Control {
        bits: *machine.control,
    };
    let rounding = i.rounding;
    if word.raises(rounding, results.flags) {
        let flagged = word.recorded(rounding, word.added(rounding, results.flags));
        *machine.control = flagged.bits;
        return ended(8);
    }
    // One field at a time: the borrow checker does not cover two of them in the call.
    let vectors = &mut *machine.vectors;
    let masks = &mut *machine.masks;
    store(vectors, masks, on, i, results);
    // R7.4: where nothing stops it no flag is left out.
    let flagged = word.recorded(rounding, results.flags);
    *machine.control = flagged.bits;
    *machine.pointer = next;
    Answer {
        number: 0,
        length: i.size as u32,
    }
}

// A decoded instruction. R5.8: all sources are gathered, and all lanes computed, before anything is written.
fn execute(machine: &mut Machine<'_>, memory: &[u8], i: Instruction) -> Answer
    requires { Bounds i }
    ensures left { stepped result (lent_state machine.new) ≡ executed memory.now (lent_state machine.old) i }
    ensures same { LendsTheSame machine.old machine.new }
{
    let next = machine.pointer.wrapping_add(i.size as u64);
    let on = lanes_on(machine.masks, i.mask, i.elements);
    let operand = i.second;
    let second = locate(operand, machine.general, next);
    if is_outside(on, memory.len() as u64, second) {
        return ended(7);
    }
    let shape = i.shape;
    let first = i.first;
    let destination = i.destination;
    let d = destination_halves(machine.vectors, shape.accumulates, destination);
    let f = first_halves(machine.vectors, first);
    let x = second_halves(on, machine.vectors, memory, second);
    let operation = i.operation;
    let word = Control {
        bits: *machine.control,
    };
    let environment = word.environment(i);
    let results = all_lanes(on, operation, environment, d, f, x);
    finish(machine, i, on, next, results)
}

// R4.3 by the array's type: a lent struct does not tell the length of what it lends.
fn has_its_size(vectors: &[u8; 2048])
    ensures { length vectors.now ≡ 2048 }
{}

// R4.19, of a state whose vector file has its size: the answer has the number (R4.1) and the length (R4.17). No `?` and no error
// enum: a step's answer is C's struct (R4.1), and docs/DECISIONS.md, 'Forms of the code that were asked for', names the `let .. else`.
pub fn machine_step(machine: &mut Machine<'_>, code: &[u8], memory: &[u8]) -> Answer
    ensures left { stepped result (lent_state machine.new) ≡ step memory.now (lent_state machine.old) code.now }
    ensures same { LendsTheSame machine.old machine.new }
{
    has_its_size(machine.vectors);
    if 0x10000 <= *machine.control {
        return ended(2);
    }
    let decoded = evex::decode(code);
    let Ok(i) = decoded else {
        return ended(refusal_number(decoded));
    };
    execute(machine, memory, i)
}

// R4.19, of any state.
pub fn step(
    vectors: &mut [u8],
    masks: &mut [u64; 8],
    general: &[u64; 16],
    control: &mut u32,
    pointer: &mut u64,
    code: &[u8],
    memory: &[u8],
) -> Answer
    ensures { stepped_of result vectors.new masks.new general.now control.new pointer.new
        ≡ step memory.now
        (state_of vectors.old masks.old general.now control.old pointer.old)
        code.now }
{
    let Some(vectors) = vectors.as_mut_array::<2048>() else {
        return ended(1);
    };
    let mut machine = Machine {
        vectors,
        masks,
        general,
        control,
        pointer,
    };
    machine_step(&mut machine, code, memory)
}
