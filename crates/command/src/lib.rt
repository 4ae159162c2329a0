// The command (R10.1 to R10.6): a saved state, code and memory are read, steps are made, and their lines are put into the output.
#![tactic(auto)]

ghost use Rattle.std.specs.Prelude.{◌≡◌, ◌≤◌, false, length, MatchOption};
ghost use Rattle.machine.specs.State.{lent_state};
ghost use Rattle.text.specs.Text.{Wrote};
ghost use Rattle.text.specs.Put.{Put};
ghost use Rattle.command.specs.Command.{lines_from, is_laid_out, printed, room, commanded};
ghost use Rattle.command.specs.Work.{AreParts};

use line::{put_step_line, put_stop_line};
use machine::Machine;
use text::put_text;

mod line;

// R10.3, R10.5: step after step, to the end of the code or an answer other than 0, each with its line. The state is not looked at again.
fn put_lines(mut machine: Machine<'_>, code: &[u8], memory: &[u8], out: &mut [u8]) -> usize
    requires { (length code.now ≤ 4096) × (room ≤ length out.old) }
    ensures { Put (lines_from (length code.now) memory.now code.now (lent_state machine.entry) 0) out.old 0 result out.new }
{
    let mut offset = 0;
    let mut at = 0;
    // No index: the offset moves by an instruction's length, and is printed (R10.4).
    while offset < code.len() {
        let answer = step::machine_step(&mut machine, &code[offset..], memory);
        at = put_step_line(out, at, offset, answer.number, *machine.control);
        if answer.number != 0 {
            return put_stop_line(out, at, offset);
        }
        offset += answer.length as usize;
    }
    put_stop_line(out, at, offset)
}

// R10.1: the most bytes of code, and of memory.
const MOST_CODE: usize = 4096;

const MOST_MEMORY: usize = 32768;

// The parts of input that is laid out.
#[derive(Clone, Copy)]
struct Parts<'a> {
    form: &'a [u8],
    code: &'a [u8],
    memory: &'a [u8],
}

// R10.1: saved state, code length, code and memory, which have their sizes.
fn parts_of(input: &[u8]) -> Option<Parts<'_>>
    ensures { MatchOption result (is_laid_out input.now ≡ false) (λ parts. AreParts input.now parts) }
{
    let (form, rest) = input.split_at_checked(saved::size_at(input))?;
    let (count, rest) = rest.split_first_chunk::<2>()?;
    let (code, memory) = rest.split_at_checked(parts::read_number(count) as usize)?;
    if MOST_CODE < code.len() {
        return None;
    }
    if MOST_MEMORY < memory.len() {
        return None;
    }
    Some(Parts { form, code, memory })
}

// All that is printed for the input.
fn print(input: &[u8], out: &mut [u8]) -> usize
    requires { room ≤ length out.old }
    ensures { Put (printed input.now) out.old 0 result out.new }
{
    let Some(parts) = parts_of(input) else {
        return put_text(out, 0, b"bad input\n");
    };
    let Ok(mut own) = saved::loaded(parts.form) else {
        return put_text(out, 0, b"bad input\n");
    };
    let machine = Machine {
        vectors: &mut own.vectors,
        masks: &mut own.masks,
        general: &own.general,
        control: &mut own.control,
        pointer: &mut own.pointer,
    };
    put_lines(machine, parts.code, parts.memory, out)
}

// Every text fits so many bytes (R10.6).
const ROOM: usize = 12288;

// R10.6: all that is printed for the input goes to the start of the output; the answer is its length. In an output that has no room
// nothing is written, and the answer is 0.
pub fn command(input: &[u8], output: &mut [u8]) -> usize
    ensures { Wrote (commanded input.now output.old) output.old result output.new }
{
    if output.len() < ROOM {
        return 0;
    }
    print(input, output)
}
