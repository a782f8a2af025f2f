// Runs a trace from any state and place for as many records as fit the caller's buffer, one line each.
// A line that does not fit leaves everything as it is; a call with room for it goes on. The definitions that the contract cites are in specs/.
#![tactic(auto)]

ghost use Rattle.std.specs.Prelude.{ℕ, ◌≡◌, ◌≤◌, List, length, ltb};
ghost use Rattle.refusal.specs.Refusal.{number_of};
ghost use Rattle.trace.specs.Record.{refuse};
ghost use Rattle.running.specs.Output.{spot_at};
ghost use Rattle.running.specs.Run.{running, under_way, fits, reason_of, stopping, stopped, ending, run_for, run_of, Runs};

use lines::LONGEST;
use refusal::Refusal;
use state::Chip;
use trace::Refused;
use window::Memory;

// Why a run stops where nothing is refused: the end of the trace, or no room in the buffer for a line.
#[derive(Clone, Copy, PartialEq, Eq)]
pub enum Stop {
    End,
    Full,
}

// Where a run stops: the chip, the place in the trace, the next event's number, the bytes written, and why.
#[derive(Clone, Copy)]
pub struct Ran {
    pub chip: Chip,
    pub place: usize,
    pub number: u64,
    pub written: usize,
    pub stop: Result<Stop, Refused>,
}

// The longest trace.
pub const MOST: usize = 65536;

// A run under way: the chip, the place in the trace, the next event's number, and the bytes written.
#[derive(Clone, Copy)]
struct Progress {
    chip: Chip,
    place: usize,
    number: u64,
    written: usize,
}

// Runs on from a place, with the next event's number. What is written is within the buffer.
pub fn run(c: Chip, memory: &mut Memory, s: &[u8], at: usize, number: u64, out: &mut [u8]) -> Ran
    ensures runs { Runs (run_of s.now (running (spot_at c memory.old at number) out.old 0)) result memory.new out.new }
    ensures written_in_bounds { result.written ≤ length out.new }
{
    let start = Progress {
        chip: c,
        place: at,
        number,
        written: 0,
    };
    let (run, stop) = to_stop(start, memory, s, out);
    Ran {
        chip: run.chip,
        place: run.place,
        number: run.number,
        written: run.written,
        stop,
    }
}

// Runs on until it stops. A trace that is too long, and a state that is not well formed, print nothing.
fn to_stop(
    run: Progress,
    memory: &mut Memory,
    s: &[u8],
    out: &mut [u8],
) -> (Progress, Result<Stop, Refused>)
    ensures { run_of s.now (under_way run memory.old out.old) ≡ stopping (reason_of result.1) (under_way result.0 memory.new out.new) }
{
    if too_long(s) {
        let why = Refusal::InputTooLong;
        return (run, Err(Refused { why, place: 0 }));
    }
    if !formed::well_formed(run.chip) {
        let why = Refusal::NotWellFormed;
        let place = run.place;
        return (run, Err(Refused { why, place }));
    }
    let (run, stop) = events(run, memory, s, out);
    match stop {
        Ok(_) => (run, stop),
        Err(refused) => printed(run, refused, out),
    }
}

// Whether a trace is longer than the longest.
fn too_long(s: &[u8]) -> bool
    ensures { result ≡ ltb 65536 (length s.now) }
{
    MOST < s.len()
}

// One event after another. A record that is no event, and an event without room for its line, end it.
fn events(
    mut run: Progress,
    memory: &mut Memory,
    s: &[u8],
    out: &mut [u8],
) -> (Progress, Result<Stop, Refused>)
    ensures { run_for (length s.now) s.now (under_way run memory.old out.old) ≡ stopped result.1 (under_way result.0 memory.new out.new) }
{
    loop {
        let found = reader::read(s, run.place);
        let Ok(Some((event, span))) = found else {
            return (run, found.map(|_| Stop::End)); // the end, or the refusal
        };
        if !roomy(run, out) {
            return (run, Ok(Stop::Full));
        }
        let o = step::step(run.chip, memory, event, reader::payload(s, span));
        run.chip = o.chip;
        run.written += lines::line(
            out,
            run.written,
            run.number,
            o.answer,
            memory,
            interrupt::line(o.chip),
        );
        run.place = span.next;
        run.number += 1;
    }
}

// Whether there is room for the longest line, and a number after this one.
fn roomy(run: Progress, out: &[u8]) -> bool
    ensures { result ≡ fits out.now run.written run.number }
{
    LONGEST <= out.len().saturating_sub(run.written) && run.number < u64::MAX
}

// A refusal is printed, if there is room.
fn printed(mut run: Progress, refused: Refused, out: &mut [u8]) -> (Progress, Result<Stop, Refused>)
    ensures { (memory : List ℕ) → ending (refuse (number_of refused.why) refused.place) (under_way run memory out.old)
        ≡ stopping (reason_of result.1) (under_way result.0 memory out.new) }
{
    if !roomy(run, out) {
        return (run, Ok(Stop::Full));
    }
    run.written += lines::refusal(out, run.written, run.number, refused.why, refused.place);
    (run, Err(refused))
}
