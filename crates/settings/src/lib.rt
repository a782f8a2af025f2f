// Writes of the registers that belong to no endpoint: MCNTRL, FAR, NFSR and the masks; whether the chip is operational, who awaits a
// handshake, and a command byte held till then.
// The definitions that the contracts cite are in specs/.
#![tactic(auto)]

ghost use Rattle.std.specs.Prelude.{◌≡◌};
ghost use Rattle.settings.specs.Settings.{operational, awaits, held_byte, stop, far_write, nfsr_write, mask_write, Reset};

use receiver::Receiver;
use sender::Sender;
use state::{Chip, Endpoint, Pending, Wait};
use window::Memory;

pub fn operational(c: Chip) -> bool
    ensures { result ≡ operational c }
{
    c.nfsr == 2
}

// Whether an endpoint awaits a handshake.
pub fn awaits(c: Chip, endpoint: Endpoint) -> bool
    ensures { result ≡ awaits endpoint c }
{
    c.pending.wait == Wait::Handshake(endpoint)
}

// A command byte is held, the newest replacing older.
pub fn held(mut c: Chip, v: u8) -> Chip
    ensures { result ≡ held_byte v c }
{
    c.pending.holds = true;
    c.pending.held = v;
    c
}

// MCNTRL: bit 0 resets everything.
#[tactic(auto, unfolding(choice::specs::Choice::pick))]
pub fn mcntrl(c: Chip, memory: &mut Memory, v: u8) -> Chip
    ensures { Reset v c memory.old result memory.new }
{
    if v % 2 == 1 {
        *memory = [0; 392];
        Chip::reset()
    } else {
        c
    }
}

pub fn far(mut c: Chip, v: u8) -> Chip
    ensures { result ≡ far_write v c }
{
    c.aden = v / 128 % 2 == 1;
    c.address = v % 128;
    c
}

// NFSR: any value but 2 leaves the operational state.
#[tactic(auto, unfolding(crate::specs::Settings::nfsr_write, choice::specs::Choice::pick))]
pub fn nfsr(mut c: Chip, v: u8) -> Chip
    ensures { result ≡ nfsr_write v c }
{
    c.nfsr = v % 4;
    if operational(c) { c } else { stop(c) }
}

// TX_EN, LAST, RX_EN, what is awaited and held, and the SETUP mark go.
#[tactic(auto, unfolding(crate::specs::Settings::stop_sender, crate::specs::Settings::stop_receiver, crate::specs::Settings::stop_zero, window::specs::Window::index_of, choice::specs::Choice::pick))]
fn stop(mut c: Chip) -> Chip
    ensures { result ≡ stop c }
{
    c.senders = c.senders.map(Sender::stopped);
    c.receivers = c.receivers.map(Receiver::stopped);
    c.control = c.control.stopped();
    c.pending = Pending::idle();
    c
}

// MAMSK, or the mask of TXEV, RXEV, NAKEV.
#[tactic(auto, unfolding(crate::specs::Settings::mask_write, choice::specs::Choice::pick))]
pub fn mask(mut c: Chip, which: u8, v: u8) -> Chip
    ensures { result ≡ mask_write which v c }
{
    match which {
        0 => c.masks.main = v,
        1 => c.masks.tx = v,
        2 => c.masks.rx = v,
        _ => c.masks.nak = v,
    }
    c
}
