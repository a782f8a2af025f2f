// The chip's state but for the FIFOs' bytes: seven endpoints, FAR, NFSR, the masks, the events that a read clears, and what is awaited.
// The bytes stand in memory that the caller lends. The definitions that the contracts cite are in specs/.
#![tactic(auto)]

ghost use Rattle.std.specs.Prelude.{◌≡◌, ◌%◌, true, set};
ghost use Rattle.state.specs.State.{reset_chip, nothing, sender_at, receiver_at, fifo_of};
ghost use Rattle.state.specs.Set.{with_sender, with_receiver, overran, nakked_in, nakked_out};

use control::Control;
use receiver::Receiver;
use sender::Sender;
use window::FifoNumber;

// An endpoint's place, 0 to 6.
#[derive(Clone, Copy, PartialEq, Eq, Default)]
pub struct Endpoint(pub u8);

// What is awaited: a handshake (0, 1, 3, 5), data after an OUT (0, 2, 4, 6), or data after a SETUP (0).
#[derive(Clone, Copy, PartialEq, Eq, Default)]
pub enum Wait {
    #[default]
    Nothing,
    Handshake(Endpoint),
    Data(Endpoint),
    Setup,
}

// The wait, with the command byte (if `holds`) and the RXC0 flush that are held until it ends.
#[derive(Clone, Copy, PartialEq, Eq, Default)]
pub struct Pending {
    pub wait: Wait,
    pub holds: bool,
    pub held: u8,
    pub flush: bool,
}

// MAMSK, and the masks of TXEV, RXEV and NAKEV.
#[derive(Clone, Copy, PartialEq, Eq, Default)]
pub struct Masks {
    pub main: u8,
    pub tx: u8,
    pub rx: u8,
    pub nak: u8,
}

// RXEV 7..4 and NAKEV, by FIFO number: overruns, NAKs to IN, NAKs to OUT.
#[derive(Clone, Copy, PartialEq, Eq, Default)]
pub struct Events {
    pub over: [bool; 4],
    pub nakin: [bool; 4],
    pub nakout: [bool; 4],
}

// The endpoints, and what belongs to no endpoint: `nfsr` is NFSR 1..0, `aden` and `address` are AD_EN and the address of FAR.
#[derive(Clone, Copy, PartialEq, Eq, Default)]
pub struct Chip {
    pub control: Control,
    pub senders: [Sender; 3],
    pub receivers: [Receiver; 3],
    pub nfsr: u8,
    pub aden: bool,
    pub address: u8,
    pub masks: Masks,
    pub events: Events,
    pub pending: Pending,
}

impl Endpoint {
    // The FIFO that it sends from or receives into.
    pub fn fifo(self) -> FifoNumber
        ensures { result ≡ fifo_of self }
    {
        FifoNumber(self.0 / 2 + self.0 % 2)
    }
}

impl Pending {
    // Nothing awaited, nothing held.
    pub fn idle() -> Pending
        ensures { result ≡ nothing }
    {
        Pending::default()
    }
}

// Four flags, by FIFO number, with that of one FIFO set.
fn flagged(mut flags: [bool; 4], number: FifoNumber) -> [bool; 4]
    ensures { result ≡ set flags (number.0 % 4) true }
{
    flags[(number.0 % 4) as usize] = true;
    flags
}

impl Events {
    // The overrun of a FIFO, a NAK to an IN for it, a NAK to an OUT for it.
    pub fn overran(self, number: FifoNumber) -> Events
        ensures { result ≡ overran number self }
    {
        Events {
            over: flagged(self.over, number),
            ..self
        }
    }

    pub fn nakked_in(self, number: FifoNumber) -> Events
        ensures { result ≡ nakked_in number self }
    {
        Events {
            nakin: flagged(self.nakin, number),
            ..self
        }
    }

    pub fn nakked_out(self, number: FifoNumber) -> Events
        ensures { result ≡ nakked_out number self }
    {
        Events {
            nakout: flagged(self.nakout, number),
            ..self
        }
    }
}

impl Chip {
    // Reset: all zero. The lent memory is zeroed with it by whoever resets.
    pub fn reset() -> Chip
        ensures { result ≡ reset_chip }
    {
        Chip {
            control: Control::reset(),
            senders: [Sender::reset(); 3],
            receivers: [Receiver::reset(); 3],
            pending: Pending::idle(),
            ..Chip::default()
        }
    }

    // The endpoint that sends from a FIFO, and the chip with another in its place.
    pub fn sender(self, number: FifoNumber) -> Sender
        ensures { result ≡ sender_at number self }
    {
        self.senders[number.index()]
    }

    pub fn with_sender(mut self, number: FifoNumber, s: Sender) -> Chip
        ensures { result ≡ with_sender number s self }
    {
        self.senders[number.index()] = s;
        self
    }

    // The same for the endpoint that receives into a FIFO.
    pub fn receiver(self, number: FifoNumber) -> Receiver
        ensures { result ≡ receiver_at number self }
    {
        self.receivers[number.index()]
    }

    pub fn with_receiver(mut self, number: FifoNumber, r: Receiver) -> Chip
        ensures { result ≡ with_receiver number r self }
    {
        self.receivers[number.index()] = r;
        self
    }
}
