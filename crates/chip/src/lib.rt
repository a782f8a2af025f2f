// The chip for everybody: one event, one register read, one register write, on any state whatever. A state that is not well formed is
// refused with 5, then an event out of range with 4, and nothing changes. The definitions that the contracts cite are in specs/.
#![tactic(auto)]

ghost use Rattle.std.specs.Prelude.{◌≡◌, []};
ghost use Rattle.event.specs.declared.Event.TheVariants as ev;
ghost use Rattle.chip.specs.Checked.{admitted, Steps};

use answer::Answer;
use event::Event;
use refusal::Refusal;
use state::Chip;
use window::Memory;

// The next state, the answer to the event or why it is refused, and the interrupt line.
#[derive(Clone, Copy)]
pub struct Stepped {
    pub chip: Chip,
    pub reply: Result<Answer, Refusal>,
    pub line: bool,
}

// Whether an event with so many bytes is done, or what refuses it.
#[tactic(auto, unfolding(crate::specs::Checked::admitted, choice::specs::Choice::pick))]
fn admitted(c: Chip, event: Event, count: usize) -> Result<(), Refusal>
    ensures { result ≡ admitted event count c }
{
    if !formed::well_formed(c) {
        return Err(Refusal::NotWellFormed);
    }
    if !event::in_range(event, count) {
        return Err(Refusal::OutOfRange);
    }
    Ok(())
}

// One event, with its payload beside it: 0 to 64 bytes with data, none with another.
#[tactic(auto, unfolding(crate::specs::Checked::admitted, crate::specs::Checked::stepped, crate::specs::Checked::stepped_bytes, choice::specs::Choice::pick))]
pub fn step(mut c: Chip, memory: &mut Memory, event: Event, s: &[u8]) -> Stepped
    ensures { Steps event s.now c memory.old result memory.new }
{
    let reply = match admitted(c, event, s.len()) {
        Ok(()) => {
            let out = step::step(c, memory, event, s);
            c = out.chip;
            Ok(out.answer)
        }
        Err(why) => Err(why),
    };
    Stepped {
        chip: c,
        reply,
        line: interrupt::line(c),
    }
}

// One register read, one register write.
pub fn read(c: Chip, memory: &mut Memory, register: u8) -> Stepped
    ensures { Steps (ev.Read register) [] c memory.old result memory.new }
{
    step(c, memory, Event::Read(register), &[])
}

pub fn write(c: Chip, memory: &mut Memory, register: u8, value: u8) -> Stepped
    ensures { Steps (ev.Write register value) [] c memory.old result memory.new }
{
    step(c, memory, Event::Write(register, value), &[])
}
