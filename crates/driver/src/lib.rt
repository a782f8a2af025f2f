// The driver of two bulk pipes: endpoint 1 sends, endpoint 2 receives. Every call goes through the chip's registers.
// A call on a state that is not well formed is refused with 5 and changes nothing. The definitions that the contracts cite are in specs/.
#![tactic(auto)]

ghost use Rattle.std.specs.Prelude.{true, ◌≡◌, Err};
ghost use Rattle.state.specs.State.{reset};
ghost use Rattle.driver.specs.Registers.{whole, written_all, Leaves};
ghost use Rattle.driver.specs.Driver.{startable, set_up, started, admission, accepted, offered, answered, send_served, Calls};

use event::BusEndpoint;
use refusal::Refusal;
use state::Chip;
use window::Memory;

// The registers that it reads and writes.
const FAR: u8 = 0x04;

const NFSR: u8 = 0x05;

const EPC1: u8 = 0x28;

const TXD1: u8 = 0x29;

const TXS1: u8 = 0x2A;

const TXC1: u8 = 0x2B;

const EPC2: u8 = 0x2C;

const RXC1: u8 = 0x2F;

// Whether a packet is held, the toggle of what is sent, the toggle that is expected.
#[derive(Clone, Copy, Default)]
pub struct Driver {
    pub held: bool,
    pub sends: bool,
    pub expects: bool,
}

// What a call did: a start or an offer done; nothing; the packet delivered, or sent again; a packet taken, a damaged one flushed, a repeat
// flushed.
#[derive(Clone, Copy, PartialEq, Eq)]
pub enum Did {
    Done,
    Nothing,
    Delivered,
    Resent,
    Taken,
    Flushed,
    Repeat,
}

// Both states after a call, and what it did or why it is refused.
#[derive(Clone, Copy)]
pub struct Driven {
    pub chip: Chip,
    pub driver: Driver,
    pub did: Result<Did, Refusal>,
}

// A chip that serves bus endpoint `send` by endpoint 1 and `receive` by endpoint 2, at an address. The lent memory is zeroed in any case.
#[tactic(auto, unfolding(crate::specs::Driver::started, choice::specs::Choice::pick))]
pub fn start(memory: &mut Memory, address: u8, send: BusEndpoint, receive: BusEndpoint) -> Driven
    ensures { Calls (started address send receive) result memory.new }
{
    *memory = [0u8; 392];
    let mut chip = Chip::reset();
    let did = if startable(address, send, receive) {
        chip = set_up(chip, memory, address, send, receive);
        Ok(Did::Done)
    } else {
        Err(Refusal::OutOfRange)
    };
    Driven {
        chip,
        driver: Driver::default(),
        did,
    }
}

// On the reset state: operational, the address, the endpoints of the two pipes, and RX_EN for the first packet.
#[tactic(auto, using(crate::proofs::Range::in_range_lem), unfolding(crate::specs::Driver::set_up, crate::specs::Registers::written))]
fn set_up(
    mut c: Chip,
    memory: &mut Memory,
    address: u8,
    send: BusEndpoint,
    receive: BusEndpoint,
) -> Chip
    requires { (startable address send receive ≡ true) × (whole c memory.old ≡ reset) }
    ensures { Leaves (set_up address send receive) result memory.new }
{
    c = writes::write(c, memory, NFSR, 2);
    c = writes::write(c, memory, FAR, 0x80 + address);
    c = writes::write(c, memory, EPC1, 0x10 + send.0);
    c = writes::write(c, memory, EPC2, 0x10 + receive.0);
    writes::write(c, memory, RXC1, 0x01)
}

// An address in 0..127, two bus endpoints in 1..15.
#[tactic(auto, unfolding(crate::specs::Driver::startable))]
fn startable(address: u8, send: BusEndpoint, receive: BusEndpoint) -> bool
    ensures { result ≡ startable address send receive }
{
    address <= 127 && (1..=15).contains(&send.0) && (1..=15).contains(&receive.0)
}

// Both states as given, and what refuses the call.
fn refused(chip: Chip, driver: Driver, why: Refusal) -> Driven
    ensures { (result.chip ≡ chip) × (result.driver ≡ driver) × (result.did ≡ Err why) }
{
    Driven {
        chip,
        driver,
        did: Err(why),
    }
}

// A packet to be sent, of 64 bytes at most, none while another is held.
#[tactic(auto, unfolding(crate::specs::Driver::offered, crate::specs::Driver::offered_by))]
pub fn offer(c: Chip, d: Driver, memory: &mut Memory, s: &[u8]) -> Driven
    ensures { Calls (offered s.now (whole c memory.old) d) result memory.new }
{
    match admission(c, d, s.len()) {
        Ok(()) => accept(c, d, memory, s),
        Err(why) => refused(c, d, why),
    }
}

// Whether an offer of so many bytes is accepted, or what refuses it.
#[tactic(auto, unfolding(crate::specs::Driver::admission, choice::specs::Choice::pick))]
fn admission(c: Chip, d: Driver, count: usize) -> Result<(), Refusal>
    ensures { result ≡ admission count c d }
{
    if !formed::well_formed(c) {
        Err(Refusal::NotWellFormed)
    } else if 64 < count {
        Err(Refusal::OfferTooLong)
    } else if d.held {
        Err(Refusal::PacketHeld)
    } else {
        Ok(())
    }
}

// The bytes, then LAST, TX_EN and the toggle.
#[tactic(auto, unfolding(crate::specs::Driver::accepted, crate::specs::Registers::written))]
fn accept(mut c: Chip, mut d: Driver, memory: &mut Memory, s: &[u8]) -> Driven
    ensures { Calls (accepted s.now (whole c memory.old) d) result memory.new }
{
    c = put_all(c, memory, s);
    c = writes::write(c, memory, TXC1, 0x03 + 4 * epc::bit(d.sends));
    d.held = true;
    Driven {
        chip: c,
        driver: d,
        did: Ok(Did::Done),
    }
}

// Bytes to TXD1, one after another.
#[tactic(auto, using(crate::proofs::Accesses::wrote_one, crate::proofs::Accesses::written_none), unfolding(crate::specs::Registers::written))]
fn put_all(mut c: Chip, memory: &mut Memory, s: &[u8]) -> Chip
    ensures { Leaves (written_all 0x29 s.now (whole c memory.old)) result memory.new }
{
    for b in s {
        c = writes::write(c, memory, TXD1, *b);
    }
    c
}

// What became of the packet that is held.
#[tactic(auto, unfolding(crate::specs::Driver::send_served, crate::specs::Registers::value, crate::specs::Registers::seen, choice::specs::Choice::pick))]
pub fn send_service(c: Chip, d: Driver, memory: &mut Memory) -> Driven
    ensures { Calls (send_served (whole c memory.old) d) result memory.new }
{
    if !formed::well_formed(c) {
        return refused(c, d, Refusal::NotWellFormed);
    }
    let r = reads::read(c, memory, TXS1);
    answered(r.chip, d, memory, r.value)
}

// By TXS: TX_DONE says that the packet went out, ACK_STAT that it was acknowledged.
#[tactic(auto, unfolding(crate::specs::Driver::answered, crate::specs::Registers::written, choice::specs::Choice::pick))]
fn answered(mut c: Chip, mut d: Driver, memory: &mut Memory, status: u8) -> Driven
    ensures { Calls (answered status (whole c memory.old) d) result memory.new }
{
    let did = if !d.held || status / 32 % 2 == 0 {
        Did::Nothing
    } else if status / 64 % 2 == 1 {
        d.held = false;
        d.sends = !d.sends;
        Did::Delivered
    } else {
        c = writes::write(c, memory, TXC1, 0x13 + 4 * epc::bit(d.sends));
        Did::Resent
    };
    Driven {
        chip: c,
        driver: d,
        did: Ok(did),
    }
}
