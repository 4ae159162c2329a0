// The command, from standard input to standard output (R10.7). It reads and writes by the crate `input`; all else that it does is the crate
// `command`.
#![tactic(auto)]

// The longest good input has 39,127 bytes, so of input that is longer than 65,536 the part that is read is bad too.
fn main(rt: HostRuntime) {
    let failed = b"run: standard input could not be read\n";
    input::program::<65536, 65536, _>(&rt, failed, command::command);
}
