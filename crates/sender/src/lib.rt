// An endpoint that sends, 1, 3 or 5: its FIFO's counters, EPC, TXS and TXC, and what they do at a register access, at an IN token and
// at the end of the wait for a handshake. Bytes stand in the lent memory. The definitions that the contracts cite are in specs/.
#![tactic(auto)]

ghost use Rattle.std.specs.Prelude.{◌/◌, ◌≡◌, ◌&&◌, false};
ghost use Rattle.epc.specs.Bits.{has, odd};
ghost use Rattle.sender.specs.Sender.{with_bits};
ghost use Rattle.sender.specs.Sender.{reset_sender, status_of, cleared, command_value, command, moved, marked};
ghost use Rattle.sender.specs.Sender.{PutData, answer_in, sent, handshake, stopped, near, well_formed};

use epc::Epc;
use txfifo::TxFifo;
use window::{FifoNumber, Memory};

// `urun`, `ack`, `done` are TX_URUN, ACK_STAT and TX_DONE of TXS; `high` is TXC 7..5, `toggle`, `last`, `enabled` are TXC 2..0.
#[derive(Clone, Copy, PartialEq, Eq, Default)]
pub struct Sender {
    pub fifo: TxFifo,
    pub epc: Epc,
    pub urun: bool,
    pub ack: bool,
    pub done: bool,
    pub high: u8,
    pub toggle: bool,
    pub last: bool,
    pub enabled: bool,
}

// What an IN token finds: NAK, STALL, a broken packet, or DATA0 or DATA1 by TOGGLE.
#[derive(Clone, Copy, PartialEq, Eq)]
pub enum Sent {
    Nak,
    Stall,
    Broken,
    Data0,
    Data1,
}

impl Sender {
    pub fn reset() -> Sender
        ensures { result ≡ reset_sender }
    {
        Sender {
            fifo: TxFifo::reset(),
            epc: Epc::reset(),
            ..Sender::default()
        }
    }

    // What a read of TXS shows.
    pub fn status(self) -> u8
        ensures { result ≡ status_of self }
    {
        128 * epc::bit(self.urun)
            + 64 * epc::bit(self.ack)
            + 32 * epc::bit(self.done)
            + ring::free(TxFifo::SIZE, self.fifo.read, self.fifo.write).min(31)
    }

    // A read of TXS clears its flags.
    pub fn cleared(mut self) -> Sender
        ensures { result ≡ cleared self }
    {
        self.urun = false;
        self.ack = false;
        self.done = false;
        self
    }

    // What a read of TXC shows; FLUSH and RFF read 0.
    pub fn command_value(self) -> u8
        ensures { result ≡ command_value self }
    {
        32 * (self.high % 8)
            + 4 * epc::bit(self.toggle)
            + 2 * epc::bit(self.last)
            + epc::bit(self.enabled)
    }

    // A TXC byte: flush, else refill; then the bits; LAST saves the read pointer. Outside the operational state LAST and TX_EN are stored
    // as 0, and LAST moves nothing.
    #[tactic(auto, unfolding(crate::specs::Sender::command, choice::specs::Choice::pick))]
    pub fn command(self, v: u8, operational: bool) -> Sender
        ensures { result ≡ command operational v self }
    {
        let stored = self.moved(v).stored(v, operational);
        if operational {
            stored.marked(v)
        } else {
            stored
        }
    }

    // The bits of a TXC byte; LAST is stored with its mark.
    fn stored(mut self, v: u8, operational: bool) -> Sender
        ensures { result ≡ with_bits (v / 32) (has 4 v) false (operational && odd v) self }
    {
        self.high = v / 32;
        self.toggle = v / 4 % 2 == 1;
        self.last = false;
        self.enabled = operational && v % 2 == 1;
        self
    }

    // The FIFO's part of a TXC byte before its bits.
    #[tactic(auto, unfolding(crate::specs::Sender::moved, choice::specs::Choice::pick))]
    fn moved(mut self, v: u8) -> Sender
        ensures { result ≡ moved v self }
    {
        if v / 8 % 2 == 1 {
            self.fifo = self.fifo.flush();
        } else if v / 16 % 2 == 1 {
            self.fifo = self.fifo.refill();
        }
        self
    }

    // LAST of a TXC byte.
    #[tactic(auto, unfolding(crate::specs::Sender::marked, choice::specs::Choice::pick))]
    fn marked(mut self, v: u8) -> Sender
        ensures { result ≡ marked v self }
    {
        if v / 2 % 2 == 1 {
            self.fifo = self.fifo.mark();
            self.last = true;
        }
        self
    }

    // A write of TXD.
    pub fn put(mut self, memory: &mut Memory, number: FifoNumber, b: u8) -> Sender
        ensures { PutData number self b memory.old result memory.new }
    {
        self.fifo = self.fifo.put(memory, number, b);
        self
    }

    // What it answers to an IN token that it takes.
    #[tactic(auto, unfolding(crate::specs::Sender::answer_in, choice::specs::Choice::pick))]
    pub fn answer(self) -> Sent
        ensures { result ≡ answer_in self }
    {
        if !self.enabled {
            Sent::Nak
        } else if self.epc.stall {
            Sent::Stall
        } else if self.last {
            if self.toggle {
                Sent::Data1
            } else {
                Sent::Data0
            }
        } else {
            Sent::Broken
        }
    }

    // The state after that answer.
    #[tactic(auto, unfolding(crate::specs::Sender::sent, choice::specs::Choice::pick))]
    pub fn sent(self) -> Sender
        ensures { result ≡ sent self }
    {
        if !self.enabled {
            self
        } else if self.epc.stall {
            Sender {
                ack: false,
                done: true,
                enabled: false,
                ..self
            }
        } else if self.last {
            Sender {
                fifo: self.fifo.spend(),
                last: false,
                enabled: false,
                ..self
            }
        } else {
            Sender {
                fifo: self.fifo.spend().mark(),
                urun: true,
                enabled: false,
                ..self
            }
        }
    }

    // The end of the wait for a handshake: whether it was an ACK.
    pub fn handshake(mut self, acked: bool) -> Sender
        ensures { result ≡ handshake acked self }
    {
        self.done = true;
        self.ack = acked;
        self
    }

    // The operational state is left.
    pub fn stopped(mut self) -> Sender
        ensures { result ≡ stopped self }
    {
        self.last = false;
        self.enabled = false;
        self
    }

    // Whether read - saved is at most 64, and 0 while LAST is set.
    #[tactic(auto, unfolding(crate::specs::Sender::near))]
    fn near(self) -> bool
        ensures { result ≡ near self }
    {
        let n = ring::level(self.fifo.saved, self.fifo.read);
        n <= 64 && (!self.last || n == 0)
    }

    // Whether a state is one that 01 allows: asked before a step.
    #[tactic(auto, unfolding(crate::specs::Sender::well_formed))]
    pub fn well_formed(self, operational: bool) -> bool
        ensures { result ≡ well_formed operational self }
    {
        ring::level(self.fifo.read, self.fifo.write) <= TxFifo::SIZE
            && self.near()
            && self.high < 8
            && self.epc.number.within()
            && (operational || !self.last && !self.enabled)
    }
}
