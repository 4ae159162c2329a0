// The second command, from standard input to standard output (R14.10). It reads and writes by the crate `input`; all else that it does is
// the crate `replayer`.
#![tactic(auto)]

// One byte more than may be replayed is read, so that longer input is known.
fn main(rt: HostRuntime) {
    let failed = b"replay: standard input could not be read\n";
    input::program::<65537, 32, _>(&rt, failed, replayer::line::replay_line);
}
