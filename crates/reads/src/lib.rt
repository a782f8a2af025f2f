// Register reads: every address from 00 to 3F is decided, and any other too. What each register shows, and what the read clears.
// The definitions that the contracts cite are in specs/.
#![tactic(auto)]

ghost use Rattle.std.specs.Prelude.{◌≡◌};
ghost use Rattle.reads.specs.Read.{shown, far_of, rxev_read, nakev_read, control_read, sender_read, receiver_read, endpoint_read, read_of};

use slot::Register;
use state::{Chip, Events};
use window::{FifoNumber, Memory};

// What a read gives: the next state and the value.
#[derive(Clone, Copy)]
pub struct ReadOut {
    pub chip: Chip,
    pub value: u8,
}

// A register read.
#[tactic(auto, unfolding(crate::specs::Read::read_of, crate::specs::Read::mask_of, choice::specs::Choice::pick))]
pub fn read(c: Chip, memory: &Memory, address: u8) -> ReadOut
    ensures { result ≡ read_of address c memory.now }
{
    match address {
        0x04 => far(c),
        0x05 => shown(c, c.nfsr),
        0x06 => shown(c, interrupt::maev(c)),
        0x07 => shown(c, c.masks.main),
        0x0A => shown(c, interrupt::txev(c)),
        0x0B => shown(c, c.masks.tx),
        0x0C => rxev(c),
        0x0D => shown(c, c.masks.rx),
        0x0E => nakev(c),
        0x0F => shown(c, c.masks.nak),
        0x20..=0x27 => control(c, memory, address),
        0x28..=0x3F => endpoint(c, memory, address),
        _ => shown(c, 0),
    }
}

// What a read gives: the value that is shown, with the state after the read.
fn shown(chip: Chip, value: u8) -> ReadOut
    ensures { result ≡ shown value chip }
{
    ReadOut { chip, value }
}

fn far(c: Chip) -> ReadOut
    ensures { result ≡ shown (far_of c) c }
{
    shown(c, 128 * epc::bit(c.aden) + c.address % 128)
}

// RXEV: a read clears the overruns.
fn rxev(mut c: Chip) -> ReadOut
    ensures { result ≡ rxev_read c }
{
    let value = interrupt::rxev(c);
    c.events = Events {
        over: [false; 4],
        ..c.events
    };
    shown(c, value)
}

// NAKEV: a read clears it.
fn nakev(mut c: Chip) -> ReadOut
    ensures { result ≡ nakev_read c }
{
    let value = interrupt::nakev(c);
    c.events = Events {
        nakin: [false; 4],
        nakout: [false; 4],
        ..c.events
    };
    shown(c, value)
}

// 20 to 27: endpoint 0.
#[tactic(auto, unfolding(crate::specs::Read::control_read, choice::specs::Choice::pick))]
fn control(mut c: Chip, memory: &Memory, address: u8) -> ReadOut
    ensures { result ≡ control_read address c memory.now }
{
    match address {
        0x20 => shown(c, c.control.epc_value()),
        0x22 => {
            let value = c.control.tx_status();
            c.control = c.control.tx_cleared();
            shown(c, value)
        }
        0x23 => shown(c, c.control.tx_command_value()),
        0x25 => {
            let t = c.control.take(memory);
            c.control = t.next;
            shown(c, t.value)
        }
        0x26 => {
            let value = c.control.rx_status();
            c.control = c.control.rx_cleared();
            shown(c, value)
        }
        0x27 => shown(c, c.control.rx_command_value()),
        _ => shown(c, 0),
    }
}

// 28 to 3F: endpoints 1 to 6.
#[tactic(auto, unfolding(choice::specs::Choice::pick))]
fn endpoint(c: Chip, memory: &Memory, address: u8) -> ReadOut
    ensures { result ≡ endpoint_read address c memory.now }
{
    let b = slot::block(address);
    if b.sends {
        sender(c, b.number, b.register)
    } else {
        receiver(c, memory, b.number, b.register)
    }
}

// EPC, TXD, TXS, TXC of the endpoint that sends from a FIFO.
#[tactic(auto, unfolding(crate::specs::Read::sender_read))]
fn sender(c: Chip, number: FifoNumber, register: Register) -> ReadOut
    ensures { result ≡ sender_read register number c }
{
    let s = c.sender(number);
    match register {
        Register::Epc => shown(c, s.epc.value()),
        Register::Data => shown(c, 0),
        Register::Status => shown(c.with_sender(number, s.cleared()), s.status()),
        Register::Command => shown(c, s.command_value()),
    }
}

// EPC, RXD, RXS, RXC of the endpoint that receives into a FIFO.
#[tactic(auto, unfolding(crate::specs::Read::receiver_read))]
fn receiver(c: Chip, memory: &Memory, number: FifoNumber, register: Register) -> ReadOut
    ensures { result ≡ receiver_read register number c memory.now }
{
    let s = c.receiver(number);
    match register {
        Register::Epc => shown(c, s.epc.value()),
        Register::Data => {
            let t = s.take(memory, number);
            shown(c.with_receiver(number, t.next), t.value)
        }
        Register::Status => shown(c.with_receiver(number, s.cleared()), s.status()),
        Register::Command => shown(c, s.command_value()),
    }
}
