// Endpoint 0 at a register access: EPC0, TXD0, TXS0, TXC0, RXD0, RXS0, RXC0, and NFSR that leaves the operational state. What a read shows and what it clears are two functions.
ghost use Rattle.std.specs.Prelude.{◌≡◌};
ghost use Rattle.control.specs.Registers.{epc_value, with_epc_byte, tx_status, tx_cleared, rx_status, rx_cleared, tx_command_value, rx_command_value};
ghost use Rattle.control.specs.Registers.{flushed, flushed_by, tx_command, rx_bits, rx_command, PutData, take_data, stopped};

use crate::Control;
use fifo0::Fifo0;
use ring::Taken;
use window::Memory;

impl Control {
    // What a read of EPC0 shows.
    pub fn epc_value(self) -> u8
        ensures { result ≡ epc_value self }
    {
        128 * epc::bit(self.stall) + 64 * epc::bit(self.def)
    }

    // An EPC0 byte.
    pub fn with_epc(mut self, v: u8) -> Control
        ensures { result ≡ with_epc_byte v self }
    {
        self.stall = v / 128 % 2 == 1;
        self.def = v / 64 % 2 == 1;
        self
    }

    // What a read of TXS0 shows.
    pub fn tx_status(self) -> u8
        ensures { result ≡ tx_status self }
    {
        64 * epc::bit(self.ack)
            + 32 * epc::bit(self.done)
            + ring::free(Fifo0::SIZE, self.fifo.read, self.fifo.write).min(31)
    }

    // A read of TXS0 clears its flags.
    pub fn tx_cleared(mut self) -> Control
        ensures { result ≡ tx_cleared self }
    {
        self.ack = false;
        self.done = false;
        self
    }

    // What a read of RXS0 shows.
    pub fn rx_status(self) -> u8
        ensures { result ≡ rx_status self }
    {
        64 * epc::bit(self.setup)
            + 32 * epc::bit(self.toggle)
            + 16 * epc::bit(self.last)
            + self.fifo.rcount().min(15)
    }

    // A read of RXS0 clears its flags.
    pub fn rx_cleared(mut self) -> Control
        ensures { result ≡ rx_cleared self }
    {
        self.setup = false;
        self.toggle = false;
        self.last = false;
        self
    }

    // What a read of TXC0 shows; FLUSH reads 0.
    pub fn tx_command_value(self) -> u8
        ensures { result ≡ tx_command_value self }
    {
        16 * epc::bit(self.ignin) + 4 * epc::bit(self.txtoggle) + epc::bit(self.sends)
    }

    // What a read of RXC0 shows; FLUSH reads 0.
    pub fn rx_command_value(self) -> u8
        ensures { result ≡ rx_command_value self }
    {
        4 * epc::bit(self.ignsetup) + 2 * epc::bit(self.ignout) + epc::bit(self.receives)
    }

    // FIFO0 is flushed; flags, enables and the mark stay.
    pub fn flushed(mut self) -> Control
        ensures { result ≡ flushed self }
    {
        self.fifo = self.fifo.flush();
        self
    }

    // FLUSH of a TXC0 or an RXC0 byte.
    #[tactic(auto, unfolding(crate::specs::Registers::flushed_by, choice::specs::Choice::pick))]
    fn flushed_by(self, v: u8) -> Control
        ensures { result ≡ flushed_by v self }
    {
        if v / 8 % 2 == 1 { self.flushed() } else { self }
    }

    // A TXC0 byte: flush, then the bits. Outside the operational state TX_EN is stored as 0.
    #[tactic(auto, unfolding(crate::specs::Registers::tx_command))]
    pub fn tx_command(mut self, v: u8, operational: bool) -> Control
        ensures { result ≡ tx_command operational v self }
    {
        self = self.flushed_by(v);
        self.ignin = v / 16 % 2 == 1;
        self.txtoggle = v / 4 % 2 == 1;
        self.sends = operational && v % 2 == 1;
        self
    }

    // The bits of an RXC0 byte; its flush may have to wait. Outside the operational state RX_EN is stored as 0.
    #[tactic(auto, unfolding(crate::specs::Registers::rx_bits))]
    pub fn rx_bits(mut self, v: u8, operational: bool) -> Control
        ensures { result ≡ rx_bits operational v self }
    {
        self.ignsetup = v / 4 % 2 == 1;
        self.ignout = v / 2 % 2 == 1;
        self.receives = operational && v % 2 == 1;
        self
    }

    // An RXC0 byte: flush, then the bits.
    pub fn rx_command(self, v: u8, operational: bool) -> Control
        ensures { result ≡ rx_command operational v self }
    {
        self.flushed_by(v).rx_bits(v, operational)
    }

    // A write of TXD0; that a handshake is awaited is the chip's to know.
    pub fn put(mut self, memory: &mut Memory, b: u8) -> Control
        ensures { PutData self b memory.old result memory.new }
    {
        self.fifo = self.fifo.put(memory, b);
        self
    }

    // A read of RXD0.
    pub fn take(mut self, memory: &Memory) -> Taken<Control>
        ensures { result ≡ take_data self memory.now }
    {
        let t = self.fifo.take(memory);
        self.fifo = t.next;
        Taken {
            next: self,
            value: t.value,
            taken: t.taken,
        }
    }

    // The operational state is left.
    pub fn stopped(mut self) -> Control
        ensures { result ≡ stopped self }
    {
        self.sends = false;
        self.receives = false;
        self.mark = false;
        self
    }
}
