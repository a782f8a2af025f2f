// Which endpoint's register an address from 28 to 3F names, and which endpoint sends from a FIFO.
// The definitions that the contracts cite are in specs/.
#![tactic(auto)]

ghost use Rattle.std.specs.Prelude.{◌≡◌};
ghost use Rattle.slot.specs.Slot.{slot_of, sending};

use state::Endpoint;
use window::FifoNumber;

// One of an endpoint's four registers: EPC; TXD or RXD; TXS or RXS; TXC or RXC.
#[derive(Clone, Copy, PartialEq, Eq)]
pub enum Register {
    Epc,
    Data,
    Status,
    Command,
}

// Which endpoint's register an address from 28 to 3F names: its FIFO, whether it sends, and which of its four registers.
#[derive(Clone, Copy)]
pub struct Slot {
    pub number: FifoNumber,
    pub sends: bool,
    pub register: Register,
}

// Blocks of four from 28 on, by turns for sending and receiving.
pub fn block(address: u8) -> Slot
    ensures { result ≡ slot_of address }
{
    Slot {
        number: FifoNumber(address / 8 % 4),
        sends: address % 8 < 4,
        register: match address % 4 {
            0 => Register::Epc,
            1 => Register::Data,
            2 => Register::Status,
            _ => Register::Command,
        },
    }
}

// The endpoint that sends from a FIFO.
pub fn sending(number: FifoNumber) -> Endpoint
    ensures { result ≡ sending number }
{
    Endpoint(1 + 2 * number.index() as u8)
}
