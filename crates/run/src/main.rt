// The run program: reads a trace from standard input, runs it from reset, and writes a line for each event.
// Thin: what is read, done and printed is proved in the libraries; input and output are std's. A read or a write that fails ends it with an error.
#![tactic(auto)]

use std::io;

// One byte more than the longest trace, so that a longer one is told.
fn main(rt: HostRuntime) -> io::Result<()> {
    let mut input = [0u8; 65537];
    let n = console::read_full(&mut rt.stdin(), &mut input)?;
    console::run(&mut rt.stdout(), &input[..n])
}
