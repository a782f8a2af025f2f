// Endpoint 0 at a bus event: an IN token, the end of the wait for a handshake, an OUT token and its data; SETUP is in setup.rt.
// What is answered and the state after it are two functions, and the second goes by the first. The definitions that the contracts cite are
// in specs/.
#![tactic(auto)]

ghost use Rattle.std.specs.Prelude.{◌≡◌, true, false};
ghost use Rattle.control.specs.State.{with_sends, with_tx_flags};
ghost use Rattle.controlbus.specs.Bus.{disabled, answer_in, sent, handshake, judge_out, Received, Stored, out_token};

use control::Control;
pub use setup::{judge_setup, received_setup, setup_dropped};
use verdict::Judged;
use window::Memory;

pub mod setup;

// What an IN token finds: silence, NAK, STALL, or DATA0 or DATA1 by TOGGLE.
#[derive(Clone, Copy, PartialEq, Eq)]
pub enum Sent0 {
    Silence,
    Nak,
    Stall,
    Data0,
    Data1,
}

// Not enabled to send.
#[tactic(auto, unfolding(crate::specs::Bus::disabled))]
fn disabled(c: Control) -> bool
    ensures { result ≡ disabled c }
{
    !c.sends || c.receives || c.fifo.rcount() != 0
}

// What it answers to an IN token.
#[tactic(auto, unfolding(crate::specs::Bus::answer_in, choice::specs::Choice::pick))]
pub fn answer(c: Control) -> Sent0
    ensures { result ≡ answer_in c }
{
    if c.ignin {
        Sent0::Silence
    } else if disabled(c) {
        Sent0::Nak
    } else if c.stall {
        Sent0::Stall
    } else if c.txtoggle {
        Sent0::Data1
    } else {
        Sent0::Data0
    }
}

// The state after that answer: an IN is a token to 0, so the mark goes in every case.
pub fn sent(mut c: Control) -> Control
    ensures { result ≡ sent c }
{
    let found = answer(c);
    c.mark = false;
    match found {
        Sent0::Silence | Sent0::Nak => c,
        Sent0::Stall => stalled(c),
        Sent0::Data0 | Sent0::Data1 => Control { def: false, ..c },
    }
}

// The state after STALL is answered to an IN token.
fn stalled(mut c: Control) -> Control
    ensures { result ≡ with_sends false (with_tx_flags false true c) }
{
    c.sends = false;
    c.ack = false;
    c.done = true;
    c
}

// The end of the wait for a handshake: whether it was an ACK.
#[tactic(auto, unfolding(crate::specs::Bus::handshake, choice::specs::Choice::pick))]
pub fn handshake(mut c: Control, acked: bool) -> Control
    ensures { result ≡ handshake acked c }
{
    if acked {
        c.fifo = c.fifo.spend();
        c.sends = false;
        c.ack = true;
        c.done = true;
    }
    c
}

// What data after an OUT token finds.
#[tactic(auto, unfolding(crate::specs::Bus::judge_out, verdict::specs::Verdict::heard, choice::specs::Choice::pick))]
pub fn judge(c: Control, sound: bool, count: usize) -> Judged
    ensures { result ≡ judge_out sound count c }
{
    let judged = if c.ignout {
        Judged::Silence
    } else if !c.receives {
        Judged::Nak
    } else if c.stall {
        Judged::Stall
    } else if c.fifo.fits(count) {
        Judged::Ack
    } else {
        Judged::Overrun
    };
    judged.heard(sound)
}

// The state after that data.
#[tactic(auto, unfolding(choice::specs::Choice::pick))]
pub fn received(c: Control, memory: &mut Memory, pid: bool, sound: bool, s: &[u8]) -> Control
    ensures { Received pid sound c s.now memory.old result memory.new }
{
    match judge(c, sound, s.len()) {
        Judged::Silence | Judged::Nak | Judged::Overrun => c,
        Judged::Stall => Control {
            receives: false,
            last: true,
            ..c
        },
        Judged::Ack => stored(c, memory, pid, s),
    }
}

// The state after data that is acknowledged.
#[tactic(auto, unfolding(crate::specs::Bus::stored, choice::specs::Choice::pick))]
fn stored(mut c: Control, memory: &mut Memory, pid: bool, s: &[u8]) -> Control
    ensures { Stored pid c s.now memory.old result memory.new }
{
    c.receives = false;
    if !s.is_empty() {
        c.fifo = c.fifo.fill(memory, s);
        c.last = true;
        c.toggle = pid;
        c.setup = false;
    }
    c
}

// An OUT token to 0.
pub fn out_token(mut c: Control) -> Control
    ensures { result ≡ out_token c }
{
    c.mark = false;
    c
}
