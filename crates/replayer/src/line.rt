// The line that the second command prints (R14.10).
ghost use Rattle.std.specs.Prelude.{cond, ◌++◌, ◌≤◌, ltb, length};
ghost use Rattle.text.specs.Put.{Put};
ghost use Rattle.text.specs.Text.{decimal, Wrote};
ghost use Rattle.recording.specs.Replay.{replay};
ghost use Rattle.recording.specs.Report.{report_text, too_long, replay_line, line_room, line_for};

use crate::replay;
use recording::Report;
use text::{put_decimal, put_text};

fn put_counted(out: &mut [u8], words: &[u8], n: usize) -> usize
    requires { (length words.now ≤ 11) × (31 ≤ length out.old) }
    ensures { Put (words.now ++ decimal n) out.old 0 result out.new × (result ≤ 31) }
{
    let next = put_text(out, 0, words);
    put_decimal(out, next, n as u64)
}

fn put_report(out: &mut [u8], report: Report) -> usize
    requires { 31 ≤ length out.old }
    ensures { Put (report_text report) out.old 0 result out.new × (result ≤ 31) }
{
    match report {
        Report::Same(n) => put_counted(out, b"same ", n),
        Report::Differs(n) => put_counted(out, b"differs at ", n),
        Report::BadItem(n) => put_counted(out, b"bad item ", n),
        Report::BadState => put_text(out, 0, b"bad state"),
    }
}

// Longer input is not looked at.
fn put_words(input: &[u8], out: &mut [u8]) -> usize
    requires { 31 ≤ length out.old }
    ensures { Put (cond (ltb 65536 (length input.now)) too_long (report_text (replay input.now))) out.old 0 result
        out.new
        × (result ≤ 31) }
{
    if 65536 < input.len() {
        return put_text(out, 0, b"too long");
    }
    put_report(out, replay(input))
}

fn put_line(input: &[u8], out: &mut [u8]) -> usize
    requires { line_room ≤ length out.old }
    ensures { Put (replay_line input.now) out.old 0 result out.new × (result ≤ 32) }
{
    let next = put_words(input, out);
    put_text(out, next, b"\n")
}

// The line goes to the start of the output; the answer is its length. Every line fits 32 bytes: in a shorter output nothing is written,
// and the answer is 0.
pub fn replay_line(input: &[u8], output: &mut [u8]) -> usize
    ensures { Wrote (line_for input.now output.old) output.old result output.new }
{
    if output.len() < 32 {
        return 0;
    }
    put_line(input, output)
}
