// What is seen of an event. A packet that is sent is named by where its bytes stand in the lent memory.
// The definitions that the contracts cite are in specs/.
#![tactic(auto)]

ghost use Rattle.std.specs.Prelude.{◌≡◌};
ghost use Rattle.answer.specs.Answer.{silent};

use state::Chip;
use window::Window;

// The bytes of a packet: `count` of them in a window of the lent memory, from the place of the counter `from` on.
#[derive(Clone, Copy)]
pub struct Packet {
    pub window: Window,
    pub from: u8,
    pub count: u8,
}

// What is seen of an event: a register's value, or what the chip puts on the bus.
#[derive(Clone, Copy)]
pub enum Answer {
    Silence,
    Value(u8),
    Data0(Packet),
    Data1(Packet),
    Broken,
    Ack,
    Nak,
    Stall,
}

// What an event gives: the next state, and what is seen.
#[derive(Clone, Copy)]
pub struct Out {
    pub chip: Chip,
    pub answer: Answer,
}

// A state, and silence on the bus; a call for speed, as `step` says.
#[inline(never)]
pub fn silent(c: Chip) -> Out
    ensures { result ≡ silent c }
{
    Out {
        chip: c,
        answer: Answer::Silence,
    }
}
