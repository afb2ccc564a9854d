// The running program (document 01, "Worked programs"): standard input to standard output.
// One byte more is read than a program may hold, so that a longer input shows. An output has at most 8,192 bytes, as
// many as are held aside for it, so the answer is never a refusal. Input that is closed or cannot be read counts as ended
// there; output that cannot be written is an error, with which the program ends.
// Kept: two programs of one shape, which document 01 names. They differ in the function of console that they call, which takes what they share.
#![tactic(auto)]

use std::io;
use std::io::Write;

fn main(rt: HostRuntime) -> io::Result<()> {
    let mut input = [0u8; 8193];
    let mut reader = rt.reader();
    let n = console::read_input(&mut reader, &mut input);
    let mut out = [0u8; 8192];
    match console::run_input(&input[..n], &mut out) {
        Ok(m) => io::writer(&rt).write_all(&out[..m]),
        Err(_) => Ok(()),
    }
}
