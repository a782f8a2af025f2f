// A whole trace run from reset, its lines written a buffer at a time; and the reading of an input into a buffer.
// What is written is `running`'s to say; which bytes reach a system's input and leave its output, no contract says.
#![tactic(auto)]

ghost use Rattle.std.specs.Prelude.{◌≤◌, length, IfOk};

use lines::LONGEST;
use refusal::Refusal;
use running::Stop;
use state::Chip;
use std::io;
use std::io::{Read, Write};
use trace::Refused;

// Reads until the buffer is full or the input ends, and tells how many bytes it put at the start of the buffer.
pub fn read_full<R: Read>(from: &mut R, buf: &mut [u8]) -> io::Result<usize>
    ensures { IfOk result (λ n. n ≤ length buf.new) }
{
    let mut done = 0usize;
    while done < buf.len() {
        let n = from.read(&mut buf[done..])?;
        if n == 0 {
            break;
        }
        done += n;
    }
    Ok(done)
}

// Runs a trace and writes its lines, as many at a time as fit the buffer.
pub fn run<W: Write>(to: &mut W, s: &[u8]) -> io::Result<()> {
    let mut memory = [0u8; 392];
    let mut out = [0u8; 65536];
    let mut chip = Chip::reset();
    let mut place = 0usize;
    let mut number = 0u64;
    let mut turns = u64::MAX;
    while turns > 0 {
        let ran = running::run(chip, &mut memory, s, place, number, &mut out);
        to.write_all(&out[..ran.written])?;
        match ran.stop {
            Ok(Stop::Full) => {}
            Ok(Stop::End) => return Ok(()),
            Err(refused) => return told(to, refused),
        }
        chip = ran.chip;
        place = ran.place;
        number = ran.number;
        turns -= 1;
    }
    Ok(())
}

// An input that is too long, or a state that is not well formed, has printed nothing yet.
fn told<W: Write>(to: &mut W, refused: Refused) -> io::Result<()> {
    match refused.why {
        Refusal::NotWellFormed | Refusal::InputTooLong => at_once(to, refused),
        _ => Ok(()),
    }
}

// Writes the line of a refusal before any event: "8 prints with n 0".
fn at_once<W: Write>(to: &mut W, refused: Refused) -> io::Result<()> {
    let mut line = [0u8; LONGEST];
    let n = lines::refusal(&mut line, 0, 0, refused.why, refused.place);
    to.write_all(&line[..n])
}
