// The event registers TXEV, RXEV and NAKEV, the main event register MAEV and the interrupt line, worked out from the state in one place.
// The definitions that the contracts cite are in specs/.
#![tactic(auto)]

ghost use Rattle.std.specs.Prelude.{◌≡◌, ◌+◌, ◌*◌, ◌≤◌};
ghost use Rattle.epc.specs.Bits.{bit_of};
ghost use Rattle.interrupt.specs.Interrupt.{shares, flag_of, reported, txev, rxev, nakev, maev, line};

use receiver::Receiver;
use state::Chip;

// Whether two bytes share a bit.
fn shares(a: u8, b: u8) -> bool
    ensures { result ≡ shares a b }
{
    a & b != 0
}

// Four flags, by FIFO number, at bits 3..0.
fn flags(f: [bool; 4]) -> u8
    ensures { (result ≡ flag_of 0 f + 2 * flag_of 1 f + 4 * flag_of 2 f + 8 * flag_of 3 f) × (result ≤ 15) }
{
    let [a, b, c, d] = f;
    epc::bit(a) + 2 * epc::bit(b) + 4 * epc::bit(c) + 8 * epc::bit(d)
}

// RX_LAST or RX_ERR of a receive FIFO.
fn reported(r: Receiver) -> bool
    ensures { bit_of result ≡ reported r }
{
    r.last || r.err
}

pub fn txev(c: Chip) -> u8
    ensures { result ≡ txev c }
{
    let [s, t, u] = c.senders;
    flags([c.control.done, s.done, t.done, u.done]) + 16 * flags([false, s.urun, t.urun, u.urun])
}

pub fn rxev(c: Chip) -> u8
    ensures { result ≡ rxev c }
{
    let [s, t, u] = c.receivers;
    flags([c.control.last, reported(s), reported(t), reported(u)]) + 16 * flags(c.events.over)
}

pub fn nakev(c: Chip) -> u8
    ensures { result ≡ nakev c }
{
    flags(c.events.nakin) + 16 * flags(c.events.nakout)
}

#[tactic(auto, unfolding(crate::specs::Interrupt::maev))]
pub fn maev(c: Chip) -> u8
    ensures { result ≡ maev c }
{
    let tx = shares(txev(c), c.masks.tx);
    let nak = shares(nakev(c), c.masks.nak);
    let rx = shares(rxev(c), c.masks.rx);
    4 * epc::bit(tx) + 16 * epc::bit(nak) + 64 * epc::bit(rx)
}

// The interrupt line; a call for speed, as `step` says.
#[inline(never)]
#[tactic(auto, unfolding(crate::specs::Interrupt::line))]
pub fn line(c: Chip) -> bool
    ensures { result ≡ line c }
{
    c.masks.main / 128 % 2 == 1 && shares(maev(c), c.masks.main % 128)
}
