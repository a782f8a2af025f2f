// Data after an OUT or a SETUP token, by what is awaited; data that nobody awaits is met with silence.
// What is answered is judged first; the bytes go into the lent memory. The definitions that the contracts cite are in specs/.
#![tactic(auto)]

ghost use Rattle.std.specs.Prelude.{◌≡◌};
ghost use Rattle.answer.specs.Answer.{Gives};
ghost use Rattle.ends.specs.Ends.{idled};
ghost use Rattle.data.specs.Data.{judged_at, data_zero, data_zero_bytes, data_receiver};
ghost use Rattle.data.specs.Data.{data_receiver_bytes, data_setup, data_setup_bytes, data_now, data_now_bytes};

use answer::{Answer, Out};
use state::{Chip, Endpoint, Wait};
use verdict::Judged;
use window::{FifoNumber, Memory};

// Data.
#[tactic(auto, unfolding(crate::specs::Data::data_at, crate::specs::Data::data_at_bytes, choice::specs::Choice::pick))]
pub fn data(c: Chip, memory: &mut Memory, pid: bool, sound: bool, s: &[u8]) -> Out
    ensures { Gives (data_now pid sound c s.now) (data_now_bytes pid sound c s.now memory.old) result memory.new }
{
    match c.pending.wait {
        Wait::Data(Endpoint(0)) => data_zero(c, memory, pid, sound, s),
        Wait::Data(e) => data_receiver(c, memory, e.fifo(), pid, sound, s),
        Wait::Setup => data_setup(c, memory, pid, sound, s),
        _ => answer::silent(c),
    }
}

// Endpoint 0.
#[tactic(auto, unfolding(crate::specs::Data::data_zero, crate::specs::Data::data_zero_bytes))]
fn data_zero(mut c: Chip, memory: &mut Memory, pid: bool, sound: bool, s: &[u8]) -> Out
    ensures { Gives (data_zero pid sound c s.now) (data_zero_bytes sound c s.now memory.old) result memory.new }
{
    let j = controlbus::judge(c.control, sound, s.len());
    c.control = controlbus::received(c.control, memory, pid, sound, s);
    judged_at(j, FifoNumber(0), c)
}

// After a SETUP token.
#[tactic(auto, unfolding(crate::specs::Data::data_setup, crate::specs::Data::data_setup_bytes))]
fn data_setup(mut c: Chip, memory: &mut Memory, pid: bool, sound: bool, s: &[u8]) -> Out
    ensures { Gives (data_setup pid sound c s.now) (data_setup_bytes pid sound c s.now memory.old) result memory.new }
{
    let j = controlbus::judge_setup(c.control, pid, sound, s.len());
    c.control = controlbus::received_setup(c.control, memory, pid, sound, s);
    judged_at(j, FifoNumber(0), c)
}

// Endpoints 2, 4, 6.
#[tactic(auto, unfolding(crate::specs::Data::data_receiver, crate::specs::Data::data_receiver_bytes))]
fn data_receiver(
    mut c: Chip,
    memory: &mut Memory,
    number: FifoNumber,
    pid: bool,
    sound: bool,
    s: &[u8],
) -> Out
    ensures { Gives (data_receiver number pid sound c s.now) (data_receiver_bytes number sound c s.now memory.old) result memory.new }
{
    let r = c.receiver(number);
    let j = r.judge(sound, s.len());
    c = c.with_receiver(number, r.received(memory, number, pid, sound, s));
    judged_at(j, number, c)
}

// The wait is over: the answer to data, and its bits. NAK sets its NAKEV bit; with no room, NAK sets the overrun bit instead.
#[tactic(auto, unfolding(crate::specs::Data::marked_out, crate::specs::Data::overrun))]
fn judged_at(j: Judged, number: FifoNumber, c: Chip) -> Out
    ensures { result ≡ judged_at j number (idled c) }
{
    let mut n = ends::idled(c);
    let answer = match j {
        Judged::Silence => Answer::Silence,
        Judged::Nak => {
            n.events = n.events.nakked_out(number);
            Answer::Nak
        }
        Judged::Stall => Answer::Stall,
        Judged::Overrun => {
            n.events = n.events.overran(number);
            Answer::Nak
        }
        Judged::Ack => Answer::Ack,
    };
    Out { chip: n, answer }
}
