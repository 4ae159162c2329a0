// The programs' reading and writing. They take no input that was cut short (R10.7). No contract can say what is read.
#![tactic(auto)]

ghost use Rattle.std.specs.Prelude.{◌^◌, ◌≤◌, ◌<◌, length, MatchResult};

use std::io;
use std::io::{Read, Write};

// A read failed, after so many bytes had come.
#[derive(Drop)]
pub struct Cut {
    pub count: usize,
    pub error: io::Error,
}

// Reads until the buffer is full or the input ends, and answers how many bytes came. `read_exact` does not tell a failed read from the end
// by what it leaves, and one read more would not either: a connection that was reset says so once, and then that the input has ended.
// No `for`: a read answers how many bytes it gave.
pub fn read_input<R: Read>(reader: &mut R, buf: &mut [u8]) -> Result<usize, Cut>
    ensures { MatchResult result (λ count. count ≤ length buf.new) (λ cut. cut.count ≤ length buf.new) }
{
    let mut count = 0;
    while count < buf.len() {
        let more = reader
            .read(&mut buf[count..])
            .map_err(|error| Cut { count, error })?;
        if more == 0 {
            break;
        }
        count += more;
    }
    Ok(count)
}

// What `answer` puts at the start of an output of M bytes, for the up to N bytes of standard input that are read, goes to standard output;
// if a read failed, `failed` goes to standard error instead.
pub fn program<const N: usize, const M: usize, F: FnOnce(&[u8], &mut [u8]) -> usize>(
    rt: &HostRuntime,
    failed: &[u8],
    answer: F,
)
    requires sizes { (N < 2 ^ 63) × (M < 2 ^ 63) }
    requires callable { F.IsAlwaysCallable answer }
    requires within { (input : _) (output : _) (n : _) (after : _) → F.post answer input output n after → n ≤ length after.now }
{
    let mut buf = [0u8; N];
    let mut output = [0u8; M];
    match read_input(&mut rt.stdin(), &mut buf) {
        Ok(n) => {
            let m = answer(&buf[..n], &mut output);
            let _ = rt.stdout().write_all(&output[..m]);
        }
        Err(_) => {
            let _ = rt.stderr().write_all(failed);
        }
    }
}
