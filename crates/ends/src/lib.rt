// The end of a wait: for a handshake, with what was held meanwhile, and for data that another bus event came instead of.
// The definitions that the contracts cite are in specs/.
#![tactic(auto)]

ghost use Rattle.std.specs.Prelude.{◌≡◌};
ghost use Rattle.ends.specs.Ends.{idled, done_flush, done_byte, ended_zero, ended_sender, ended, dropped_setup, dropped};

use control::Control;
use state::{Chip, Endpoint, Pending, Wait};
use window::FifoNumber;

// Nothing awaited, nothing held.
#[tactic(auto, unfolding(crate::specs::Ends::idled))]
pub fn idled(mut c: Chip) -> Chip
    ensures { result ≡ idled c }
{
    c.pending = Pending::idle();
    c
}

// The end of a wait for a handshake: whether it was an ACK.
#[tactic(auto, unfolding(crate::specs::Ends::ended_at, choice::specs::Choice::pick))]
pub fn ended(c: Chip, acked: bool) -> Chip
    ensures { result ≡ ended acked c }
{
    match c.pending.wait {
        Wait::Handshake(Endpoint(0)) => ended_zero(c, acked),
        Wait::Handshake(e) => ended_sender(c, e.fifo(), acked),
        _ => c,
    }
}

// Endpoint 0: the wait's flags, then what was held.
#[tactic(auto, unfolding(crate::specs::Ends::ended_zero))]
fn ended_zero(mut c: Chip, acked: bool) -> Chip
    ensures { result ≡ ended_zero acked c }
{
    c.control = done_held(controlbus::handshake(c.control, acked), c.pending);
    idled(c)
}

// A held flush, then a held byte.
#[tactic(auto, unfolding(crate::specs::Ends::done_flush, crate::specs::Ends::done_byte, choice::specs::Choice::pick))]
fn done_held(mut z: Control, p: Pending) -> Control
    ensures { result ≡ done_byte p.holds p.held (done_flush p.flush z) }
{
    if p.flush {
        z = z.flushed();
    }
    if p.holds {
        z = z.tx_command(p.held, true);
    }
    z
}

// Endpoints 1, 3, 5: the wait's flags, then the held byte.
#[tactic(auto, unfolding(crate::specs::Ends::ended_sender, crate::specs::Ends::sender_byte, choice::specs::Choice::pick))]
fn ended_sender(c: Chip, number: FifoNumber, acked: bool) -> Chip
    ensures { result ≡ ended_sender number acked c }
{
    let mut s = c.sender(number).handshake(acked);
    if c.pending.holds {
        s = s.command(c.pending.held, true);
    }
    idled(c.with_sender(number, s))
}

// Another bus event came instead of the data.
pub fn dropped(c: Chip) -> Chip
    ensures { result ≡ dropped c }
{
    match c.pending.wait {
        Wait::Data(_) => idled(c),
        Wait::Setup => dropped_setup(c),
        _ => c,
    }
}

#[tactic(auto, unfolding(crate::specs::Ends::dropped_setup))]
fn dropped_setup(mut c: Chip) -> Chip
    ensures { result ≡ dropped_setup c }
{
    c.control = controlbus::setup_dropped(c.control);
    idled(c)
}
