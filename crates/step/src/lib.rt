// One event on the whole chip: a register access, or a bus event, which in the operational state first ends what was awaited.
// Every state and every event has its answer. The definitions that the contracts cite are in specs/.
#![tactic(auto)]

ghost use Rattle.std.specs.Prelude.{ℕ, ◌≡◌, ◌≢◌, true};
ghost use Rattle.event.specs.declared.Event.TheVariants.{Read, Write};
ghost use Rattle.settings.specs.Settings.{operational};
ghost use Rattle.answer.specs.Answer.{Gives};
ghost use Rattle.step.specs.Step.{quiet, step_of, step_bytes};

use answer::{Answer, Out};
use event::{Event, Token};
use state::{Chip, Wait};
use window::Memory;

// One event. It stays a call, as `answer::silent` and `interrupt::line` do: inlined, the chip is copied field by field, which is slower.
#[inline(never)]
#[tactic(auto, unfolding(crate::specs::Step::step_of, crate::specs::Step::step_bytes, crate::specs::Step::read_step, crate::specs::Step::write_step, crate::specs::Step::in_step, crate::specs::Step::out_step, crate::specs::Step::setup_step, crate::specs::Step::data_step, crate::specs::Step::data_step_bytes, crate::specs::Step::end_step, choice::specs::Choice::pick))]
pub fn step(c: Chip, memory: &mut Memory, event: Event, s: &[u8]) -> Out
    ensures { Gives (step_of event s.now c memory.old) (step_bytes event s.now c memory.old) result memory.new }
{
    match event {
        Event::Read(register) => {
            let r = reads::read(c, memory, register);
            Out {
                chip: r.chip,
                answer: Answer::Value(r.value),
            }
        }
        Event::Write(register, v) => answer::silent(writes::write(c, memory, register, v)),
        _ if !settings::operational(c) => answer::silent(c),
        _ => bus_event(c, memory, event, s),
    }
}

// A bus event in the operational state. It stays a call, too: where a function begins, each place in it for a chip is filled with zeros.
#[inline(never)]
#[tactic(auto, unfolding(crate::specs::Step::step_of, crate::specs::Step::step_bytes, crate::specs::Step::in_step, crate::specs::Step::out_step, crate::specs::Step::setup_step, crate::specs::Step::data_step, crate::specs::Step::data_step_bytes, crate::specs::Step::end_step, choice::specs::Choice::pick))]
fn bus_event(c: Chip, memory: &mut Memory, event: Event, s: &[u8]) -> Out
    requires running { operational c ≡ true }
    requires no_read { (r : ℕ) → event ≢ Read r }
    requires no_write { (r v : ℕ) → event ≢ Write r v }
    ensures { Gives (step_of event s.now c memory.old) (step_bytes event s.now c memory.old) result memory.new }
{
    match event {
        Event::Data(pid, sound) => {
            data::data(ends::ended(c, false), memory, pid == 1, sound == 1, s)
        }
        Event::Ack => answer::silent(quiet(c, true)),
        _ => {
            let c = quiet(c, false);
            match event {
                Event::In(address, endpoint) => bus::in_token(c, Token { address, endpoint }),
                Event::Out(address, endpoint) => bus::out_token(c, Token { address, endpoint }),
                Event::Setup(address, endpoint) => bus::setup_token(c, Token { address, endpoint }),
                _ => answer::silent(c),
            }
        }
    }
}

// The wait for a handshake ends; awaited data does not come.
#[tactic(auto, unfolding(crate::specs::Step::quiet, ends::specs::Ends::ended, ends::specs::Ends::ended_at, ends::specs::Ends::ended_zero, ends::specs::Ends::ended_sender, ends::specs::Ends::idled, ends::specs::Ends::dropped, choice::specs::Choice::pick))]
fn quiet(c: Chip, acked: bool) -> Chip
    ensures { result ≡ quiet acked c }
{
    match c.pending.wait {
        Wait::Nothing => c,
        Wait::Handshake(_) => ends::ended(c, acked),
        _ => ends::dropped(c),
    }
}
