// The command's own lines. Each function puts one into a lent buffer at a place, and returns the place behind it.
ghost use Rattle.std.specs.Prelude.{◌+◌, ◌≤◌, length};
ghost use Rattle.text.specs.Put.{Put};
ghost use Rattle.command.specs.Command.{step_line, stop_line};

use text::{put_decimal, put_hex, put_text};

// R10.4: the line of a step.
#[tactic(auto, using(text::proofs::Digits::decimal_most, text::proofs::Digits::hex_eight))]
pub fn put_step_line(out: &mut [u8], at: usize, offset: usize, number: u32, control: u32) -> usize
    requires { at + 51 ≤ length out.old }
    ensures { Put (step_line offset number control) out.old at result out.new }
{
    let mut next = put_decimal(out, at, offset as u64);
    next = put_text(out, next, b" ");
    next = put_decimal(out, next, number as u64);
    next = put_text(out, next, b" ");
    next = put_hex(out, next, control);
    put_text(out, next, b"\n")
}

// R10.5: the last line.
#[tactic(auto, using(text::proofs::Digits::decimal_most))]
pub fn put_stop_line(out: &mut [u8], at: usize, offset: usize) -> usize
    requires { at + 26 ≤ length out.old }
    ensures { Put (stop_line offset) out.old at result out.new }
{
    let mut next = put_text(out, at, b"stop ");
    next = put_decimal(out, next, offset as u64);
    put_text(out, next, b"\n")
}
