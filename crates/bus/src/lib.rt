// The chip at a token in the operational state: IN, OUT, SETUP.
// The definitions that the contracts cite are in specs/.
#![tactic(auto)]

ghost use Rattle.std.specs.Prelude.{◌≡◌};
ghost use Rattle.answer.specs.declared.Answer.TheVariants.{Nak};
ghost use Rattle.answer.specs.Answer.{gives, packet_of};
ghost use Rattle.state.specs.declared.Wait.TheVariants.{Handshake};
ghost use Rattle.bus.specs.Bus.{awaiting, marked_in, in_zero, in_sender, in_token};
ghost use Rattle.bus.specs.Bus.{out_at, out_token, setup_token};

use answer::{Answer, Out, Packet};
use controlbus::Sent0;
use event::Token;
use sender::Sent;
use state::{Chip, Endpoint, Pending, Wait};
use window::{FifoNumber, Kind, Window};

// Something is awaited, and nothing held.
#[tactic(auto, unfolding(crate::specs::Bus::awaiting))]
fn awaiting(mut c: Chip, wait: Wait) -> Chip
    ensures { result ≡ awaiting wait c }
{
    c.pending = Pending {
        wait,
        ..Pending::idle()
    };
    c
}

// NAK to an IN, and its NAKEV bit.
#[tactic(auto, unfolding(crate::specs::Bus::marked_in))]
fn nak(mut c: Chip, number: FifoNumber) -> Out
    ensures { result ≡ gives (marked_in number c) Nak }
{
    c.events = c.events.nakked_in(number);
    Out {
        chip: c,
        answer: Answer::Nak,
    }
}

// A packet: a handshake is awaited.
fn data(c: Chip, e: Endpoint, answer: Answer) -> Out
    ensures { result ≡ gives (awaiting (Handshake e) c) answer }
{
    Out {
        chip: awaiting(c, Wait::Handshake(e)),
        answer,
    }
}

// All bytes held.
#[tactic(auto, unfolding(answer::specs::Answer::packet_of))]
fn all_held(window: Window, read: u8, write: u8) -> Packet
    ensures { result ≡ packet_of window.kind window.number read write }
{
    Packet {
        window,
        from: read,
        count: ring::level(read, write),
    }
}

// An IN token.
#[tactic(auto, unfolding(crate::specs::Bus::in_at, choice::specs::Choice::pick))]
pub fn in_token(c: Chip, token: Token) -> Out
    ensures { result ≡ in_token token.address token.endpoint c }
{
    match tokens::winner(tokens::in_mask(c, token)) {
        Some(Endpoint(0)) => in_zero(c),
        Some(e) => in_sender(c, e),
        None => answer::silent(c),
    }
}

// Endpoint 0.
#[tactic(auto, unfolding(crate::specs::Bus::in_zero))]
fn in_zero(mut c: Chip) -> Out
    ensures { result ≡ in_zero c }
{
    let z = c.control;
    let window = Window {
        kind: Kind::Control,
        number: FifoNumber(0),
    };
    let packet = all_held(window, z.fifo.read, z.fifo.write);
    c.control = controlbus::sent(z);
    match controlbus::answer(z) {
        Sent0::Silence => answer::silent(c),
        Sent0::Nak => nak(c, FifoNumber(0)),
        Sent0::Stall => Out {
            chip: c,
            answer: Answer::Stall,
        },
        Sent0::Data0 => data(c, Endpoint(0), Answer::Data0(packet)),
        Sent0::Data1 => data(c, Endpoint(0), Answer::Data1(packet)),
    }
}

// Endpoints 1, 3, 5.
#[tactic(auto, unfolding(crate::specs::Bus::in_sender))]
fn in_sender(c: Chip, e: Endpoint) -> Out
    ensures { result ≡ in_sender e c }
{
    let number = e.fifo();
    let s = c.sender(number);
    let window = Window {
        kind: Kind::Transmit,
        number,
    };
    let packet = all_held(window, s.fifo.read, s.fifo.write);
    let n = c.with_sender(number, s.sent());
    match s.answer() {
        Sent::Nak => nak(n, number),
        Sent::Stall => Out {
            chip: n,
            answer: Answer::Stall,
        },
        Sent::Broken => Out {
            chip: n,
            answer: Answer::Broken,
        },
        Sent::Data0 => data(n, e, Answer::Data0(packet)),
        Sent::Data1 => data(n, e, Answer::Data1(packet)),
    }
}

// An OUT token: data is awaited.
pub fn out_token(c: Chip, token: Token) -> Out
    ensures { result ≡ out_token token.address token.endpoint c }
{
    let Some(e) = tokens::winner(tokens::out_mask(c, token)) else {
        return answer::silent(c);
    };
    answer::silent(out_at(c, e))
}

#[tactic(auto, unfolding(crate::specs::Bus::out_at, choice::specs::Choice::pick))]
fn out_at(mut c: Chip, e: Endpoint) -> Chip
    ensures { result ≡ out_at e c }
{
    if e == Endpoint(0) {
        c.control = controlbus::out_token(c.control);
    }
    awaiting(c, Wait::Data(e))
}

// A SETUP token: only for endpoint 0.
#[tactic(auto, unfolding(crate::specs::Bus::setup_token, choice::specs::Choice::pick))]
pub fn setup_token(c: Chip, token: Token) -> Out
    ensures { result ≡ setup_token token.address token.endpoint c }
{
    if tokens::zero_takes(c, token) {
        return answer::silent(awaiting(c, Wait::Setup));
    }
    answer::silent(c)
}
