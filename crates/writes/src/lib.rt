// Register writes: every address from 00 to 3F is decided, and any other too. Command bytes are held while their endpoint awaits a handshake.
// The definitions that the contracts cite are in specs/.
#![tactic(auto)]

ghost use Rattle.std.specs.Prelude.{◌≡◌};
ghost use Rattle.writes.specs.Write.{control_command, receive_command, sender_command, ControlWrite, SenderWrite, EndpointWrite, receiver_write, epc_write0, ControlPut, WriteTo};

use epc::Epc;
use receiver::Receiver;
use sender::Sender;
use slot::Register;
use state::{Chip, Endpoint};
use window::{FifoNumber, Memory};

// A register write.
#[tactic(auto, unfolding(crate::specs::Write::write_of, crate::specs::Write::bytes_of, choice::specs::Choice::pick))]
pub fn write(c: Chip, memory: &mut Memory, address: u8, v: u8) -> Chip
    ensures { WriteTo address v c memory.old result memory.new }
{
    match address {
        0x00 => settings::mcntrl(c, memory, v),
        0x04 => settings::far(c, v),
        0x05 => settings::nfsr(c, v),
        0x07 => settings::mask(c, 0, v),
        0x0B => settings::mask(c, 1, v),
        0x0D => settings::mask(c, 2, v),
        0x0F => settings::mask(c, 3, v),
        0x20..=0x27 => control(c, memory, address, v),
        0x28..=0x3F => endpoint(c, memory, address, v),
        _ => c,
    }
}

// 20 to 27: endpoint 0.
#[tactic(auto, unfolding(crate::specs::Write::control_write, crate::specs::Write::control_bytes, choice::specs::Choice::pick))]
fn control(c: Chip, memory: &mut Memory, address: u8, v: u8) -> Chip
    ensures { ControlWrite address v c memory.old result memory.new }
{
    match address {
        0x20 => epc0(c, v),
        0x21 => put0(c, memory, v),
        0x23 => command0(c, v),
        0x27 => receive0(c, v),
        _ => c,
    }
}

fn epc0(mut c: Chip, v: u8) -> Chip
    ensures { result ≡ epc_write0 v c }
{
    c.control = c.control.with_epc(v);
    c
}

// TXD0: ignored while endpoint 0 awaits a handshake.
#[tactic(auto, unfolding(choice::specs::Choice::pick))]
fn put0(mut c: Chip, memory: &mut Memory, v: u8) -> Chip
    ensures { ControlPut v c memory.old result memory.new }
{
    if !settings::awaits(c, Endpoint(0)) {
        c.control = c.control.put(memory, v);
    }
    c
}

// TXC0: held while endpoint 0 awaits a handshake.
#[tactic(auto, unfolding(crate::specs::Write::control_command, choice::specs::Choice::pick))]
fn command0(mut c: Chip, v: u8) -> Chip
    ensures { result ≡ control_command v c }
{
    if settings::awaits(c, Endpoint(0)) {
        return settings::held(c, v);
    }
    c.control = c.control.tx_command(v, settings::operational(c));
    c
}

// RXC0: its bits at once; its flush is held while endpoint 0 awaits a handshake.
#[tactic(auto, unfolding(crate::specs::Write::receive_command, choice::specs::Choice::pick))]
fn receive0(mut c: Chip, v: u8) -> Chip
    ensures { result ≡ receive_command v c }
{
    let on = settings::operational(c);
    if settings::awaits(c, Endpoint(0)) {
        c.control = c.control.rx_bits(v, on);
        if v / 8 % 2 == 1 {
            c.pending.flush = true;
        }
    } else {
        c.control = c.control.rx_command(v, on);
    }
    c
}

// 28 to 3F: endpoints 1 to 6.
#[tactic(auto, unfolding(choice::specs::Choice::pick))]
fn endpoint(c: Chip, memory: &mut Memory, address: u8, v: u8) -> Chip
    ensures { EndpointWrite address v c memory.old result memory.new }
{
    let b = slot::block(address);
    if b.sends {
        sender(c, memory, b.number, b.register, v)
    } else {
        receiver(c, b.number, b.register, v)
    }
}

// EPC, TXD, TXC of the endpoint that sends from a FIFO.
#[tactic(auto, unfolding(crate::specs::Write::sender_write, crate::specs::Write::sender_bytes))]
fn sender(c: Chip, memory: &mut Memory, number: FifoNumber, register: Register, v: u8) -> Chip
    ensures { SenderWrite register number v c memory.old result memory.new }
{
    let s = c.sender(number);
    match register {
        Register::Epc => c.with_sender(
            number,
            Sender {
                epc: Epc::of(v),
                ..s
            },
        ),
        Register::Data => c.with_sender(number, s.put(memory, number, v)),
        Register::Status => c,
        Register::Command => command(c, number, v),
    }
}

// TXC: held while that endpoint awaits a handshake.
#[tactic(auto, unfolding(crate::specs::Write::sender_command, choice::specs::Choice::pick))]
fn command(c: Chip, number: FifoNumber, v: u8) -> Chip
    ensures { result ≡ sender_command number v c }
{
    if settings::awaits(c, slot::sending(number)) {
        settings::held(c, v)
    } else {
        c.with_sender(
            number,
            c.sender(number).command(v, settings::operational(c)),
        )
    }
}

// EPC and RXC of the endpoint that receives into a FIFO.
#[tactic(auto, unfolding(crate::specs::Write::receiver_write))]
fn receiver(c: Chip, number: FifoNumber, register: Register, v: u8) -> Chip
    ensures { result ≡ receiver_write register number v c }
{
    let s = c.receiver(number);
    match register {
        Register::Epc => c.with_receiver(
            number,
            Receiver {
                epc: Epc::of(v),
                ..s
            },
        ),
        Register::Data | Register::Status => c,
        Register::Command => c.with_receiver(number, s.command(v, settings::operational(c))),
    }
}
