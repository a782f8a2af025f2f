// The driver's receive service: what endpoint 2 received is taken, or flushed where it is damaged or a repeat.
// A call on a state that is not well formed is refused with 5 and changes nothing. The definitions that the contracts cite are in specs/.
#![tactic(auto)]

ghost use Rattle.std.specs.Prelude.{◌≡◌, ◌%◌, length};
ghost use Rattle.driver.specs.Registers.{whole};
ghost use Rattle.receiving.specs.Receive.{taken, all_taken, accepting, flushing, judged, receive_served, without, Receives, Fills, Drains, Shows};

use driver::{Did, Driven, Driver};
use refusal::Refusal;
use state::Chip;
use window::Memory;

// The registers that it reads and writes.
const RXD1: u8 = 0x2D;

const RXS1: u8 = 0x2E;

const RXC1: u8 = 0x2F;

// What the call did, and the packet that it took: so many bytes, unused ones 0.
#[derive(Clone, Copy)]
pub struct Received {
    pub driven: Driven,
    pub count: usize,
    pub packet: [u8; 64],
}

// The bytes read from RXD, and the chip after them.
#[derive(Clone, Copy)]
struct Drained {
    chip: Chip,
    count: usize,
    packet: [u8; 64],
}

// The chip, and what RXS showed of it.
#[derive(Clone, Copy)]
struct Seen {
    chip: Chip,
    status: u8,
    ghost shows: { Shows (status % 16) chip },
}

// What endpoint 2 received.
#[tactic(auto, unfolding(crate::specs::Receive::receive_served, driver::specs::Registers::value, driver::specs::Registers::seen, choice::specs::Choice::pick))]
pub fn receive_service(c: Chip, d: Driver, memory: &mut Memory) -> Received
    ensures { Receives (receive_served (whole c memory.old) d) result memory.new }
{
    if !formed::well_formed(c) {
        return without(c, d, Err(Refusal::NotWellFormed));
    }
    let r = reads::read(c, memory, RXS1);
    let seen = Seen {
        chip: r.chip,
        status: r.value,
    };
    judged(seen, d, memory)
}

// By RXS: RX_ERR, then RX_LAST, then TOGGLE.
#[tactic(auto, unfolding(crate::specs::Receive::judged, choice::specs::Choice::pick))]
fn judged(seen: Seen, d: Driver, memory: &mut Memory) -> Received
    ensures { Receives (judged seen.status (whole seen.chip memory.old) d) result memory.new }
{
    if seen.status / 128 % 2 == 1 {
        flush(seen.chip, d, memory, Did::Flushed)
    } else if seen.status / 16 % 2 == 0 {
        without(seen.chip, d, Ok(Did::Nothing))
    } else if seen.status / 32 % 2 == epc::bit(d.expects) {
        accept(seen, d, memory)
    } else {
        flush(seen.chip, d, memory, Did::Repeat)
    }
}

// No packet.
fn without(chip: Chip, driver: Driver, did: Result<Did, Refusal>) -> Received
    ensures { result ≡ without chip driver did }
{
    Received {
        driven: Driven { chip, driver, did },
        count: 0,
        packet: [0u8; 64],
    }
}

// FLUSH, and RX_EN for the next packet.
#[tactic(auto, unfolding(crate::specs::Receive::flushing, driver::specs::Registers::written))]
fn flush(mut c: Chip, d: Driver, memory: &mut Memory, why: Did) -> Received
    ensures { Receives (flushing why (whole c memory.old) d) result memory.new }
{
    c = writes::write(c, memory, RXC1, 0x09);
    without(c, d, Ok(why))
}

// All bytes, the toggle flipped, and RX_EN for the next packet.
#[tactic(auto, unfolding(crate::specs::Receive::accepting, driver::specs::Registers::written))]
fn accept(seen: Seen, mut d: Driver, memory: &mut Memory) -> Received
    ensures { Receives (accepting (all_taken (seen.status % 16) (whole seen.chip memory.old)) d) result memory.new }
{
    let Drained {
        chip,
        count,
        packet,
    } = take_all(seen, memory);
    d.expects = !d.expects;
    Received {
        driven: Driven {
            chip: writes::write(chip, memory, RXC1, 0x01),
            driver: d,
            did: Ok(Did::Taken),
        },
        count,
        packet,
    }
}

// As many bytes as RXS showed, and again until it shows none.
fn take_all(seen: Seen, memory: &Memory) -> Drained
    ensures { Drains (all_taken (seen.status % 16) (whole seen.chip memory.now)) memory.now result }
{
    let mut c = seen.chip;
    let mut packet = [0u8; 64];
    let mut got = 0usize;
    let mut shown = seen.status % 16;
    while 0 < shown {
        let end = got + shown as usize;
        c = take(c, memory, &mut packet[got..end]);
        got = end;
        let r = reads::read(c, memory, RXS1);
        c = r.chip;
        shown = r.value % 16;
    }
    Drained {
        chip: c,
        count: got,
        packet,
    }
}

// A byte from RXD to each place.
fn take(mut c: Chip, memory: &Memory, places: &mut [u8]) -> Chip
    ensures { Fills (taken (length places.old) (whole c memory.now)) 0 memory.now places.old result places.new }
{
    for place in places.iter_mut() {
        let r = reads::read(c, memory, RXD1);
        *place = r.value;
        c = r.chip;
    }
    c
}
