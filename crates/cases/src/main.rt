// Runs many traces from one standard input: for each three bytes with its length, low byte first, and the trace; after each a line `==`.
// docs/CASES.md says where they come from. Thin, as the run program is.
#![tactic(auto)]

use std::io;
use std::io::{Read, Write};

// One trace after another, until the input ends or has one of more than 65,537 bytes.
fn main(rt: HostRuntime) -> io::Result<()> {
    let mut from = rt.stdin();
    let mut to = rt.stdout();
    let mut input = [0u8; 65537];
    for _ in 0..u64::MAX {
        let Some(n) = length(&mut from)? else {
            break;
        };
        let Some(trace) = input.get_mut(..n) else {
            break;
        };
        run_one(&mut from, &mut to, trace)?;
    }
    Ok(())
}

// The length of the next trace, of three bytes, low byte first; none where the input ends.
fn length<R: Read>(from: &mut R) -> io::Result<Option<usize>> {
    let mut bytes = [0u8; 4];
    if console::read_full(from, &mut bytes[..3])? < 3 {
        return Ok(None);
    }
    Ok(Some(u32::from_le_bytes(bytes) as usize))
}

// Reads a trace that fills the buffer, runs it, and ends its output.
fn run_one<R: Read, W: Write>(from: &mut R, to: &mut W, input: &mut [u8]) -> io::Result<()> {
    let n = console::read_full(from, input)?;
    console::run(to, &input[..n])?;
    to.write_all(b"==\n")
}
