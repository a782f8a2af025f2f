// An endpoint that receives, 2, 4 or 6: its FIFO's counters, EPC, RXS and RXC, and what they do at a register access and at data after
// an OUT token. Bytes stand in the lent memory. The definitions that the contracts cite are in specs/.
#![tactic(auto)]

ghost use Rattle.std.specs.Prelude.{◌≡◌};
ghost use Rattle.receiver.specs.Receiver.{reset_receiver, status_of, cleared, command_value, flushed, command, take_byte};
ghost use Rattle.receiver.specs.Receiver.{judged, good, damaged, ReceivedData, stopped, well_formed};
ghost use Rattle.choice.specs.Choice.{pick};

use epc::Epc;
use ring::Taken;
use rxfifo::RxFifo;
use verdict::Judged;
use window::{FifoNumber, Memory};

// `err`, `setup`, `toggle`, `last` are RX_ERR, SETUP, TOGGLE and RX_LAST of RXS; `middle` is RXC 6..5, `ignore` IGN_SETUP, `enabled` RX_EN.
// Nothing here sets SETUP, but a state may have it.
#[derive(Clone, Copy, PartialEq, Eq, Default)]
pub struct Receiver {
    pub fifo: RxFifo,
    pub epc: Epc,
    pub err: bool,
    pub setup: bool,
    pub toggle: bool,
    pub last: bool,
    pub middle: u8,
    pub ignore: bool,
    pub enabled: bool,
}

impl Receiver {
    pub fn reset() -> Receiver
        ensures { result ≡ reset_receiver }
    {
        Receiver {
            fifo: RxFifo::reset(),
            epc: Epc::reset(),
            ..Receiver::default()
        }
    }

    // What a read of RXS shows.
    pub fn status(self) -> u8
        ensures { result ≡ status_of self }
    {
        128 * epc::bit(self.err)
            + 64 * epc::bit(self.setup)
            + 32 * epc::bit(self.toggle)
            + 16 * epc::bit(self.last)
            + ring::level(self.fifo.read, self.fifo.write).min(15)
    }

    // A read of RXS clears its flags.
    pub fn cleared(mut self) -> Receiver
        ensures { result ≡ cleared self }
    {
        self.err = false;
        self.setup = false;
        self.toggle = false;
        self.last = false;
        self
    }

    // What a read of RXC shows; FLUSH reads 0.
    pub fn command_value(self) -> u8
        ensures { result ≡ command_value self }
    {
        32 * (self.middle % 4) + 4 * epc::bit(self.ignore) + epc::bit(self.enabled)
    }

    // An RXC byte: flush, then the bits. Outside the operational state RX_EN is stored as 0.
    pub fn command(mut self, v: u8, operational: bool) -> Receiver
        ensures { result ≡ command operational v self }
    {
        self = self.flushed(v);
        self.middle = v / 32 % 4;
        self.ignore = v / 4 % 2 == 1;
        self.enabled = operational && v % 2 == 1;
        self
    }

    // FLUSH of an RXC byte.
    #[tactic(auto, unfolding(crate::specs::Receiver::flushed, choice::specs::Choice::pick))]
    fn flushed(mut self, v: u8) -> Receiver
        ensures { result ≡ flushed v self }
    {
        if v / 8 % 2 == 1 {
            self.fifo = self.fifo.flush();
        }
        self
    }

    // A read of RXD.
    pub fn take(mut self, memory: &Memory, number: FifoNumber) -> Taken<Receiver>
        ensures { result ≡ take_byte number self memory.now }
    {
        let t = self.fifo.take(memory, number);
        self.fifo = t.next;
        Taken {
            next: self,
            value: t.value,
            taken: t.taken,
        }
    }

    // What it answers to data after an OUT token that it took.
    #[tactic(auto, unfolding(crate::specs::Receiver::judged, verdict::specs::Verdict::heard, choice::specs::Choice::pick))]
    pub fn judge(self, sound: bool, count: usize) -> Judged
        ensures { result ≡ judged sound count self }
    {
        let judged = if !self.enabled {
            Judged::Nak
        } else if self.epc.stall {
            Judged::Stall
        } else if self.fifo.fits(count) {
            Judged::Ack
        } else {
            Judged::Overrun
        };
        judged.heard(sound)
    }

    // The state and the memory after that data.
    #[tactic(auto, unfolding(crate::specs::Receiver::received, crate::specs::Receiver::received_bytes, choice::specs::Choice::pick))]
    pub fn received(
        mut self,
        memory: &mut Memory,
        number: FifoNumber,
        pid: bool,
        sound: bool,
        s: &[u8],
    ) -> Receiver
        ensures { ReceivedData number pid sound s.now self memory.old result memory.new }
    {
        let room = self.enabled && self.fifo.fits(s.len());
        if self.enabled && self.epc.stall {
            // answered, and RX_EN cleared, for sound data only
            self.enabled = !sound;
        } else if room && sound && s.is_empty() {
            self.enabled = false;
        } else if room {
            self.fifo = self.fifo.fill(memory, number, s);
            self = self.noted(pid, sound);
        }
        self
    }

    // The flags after data that is stored.
    #[tactic(auto, unfolding(choice::specs::Choice::pick))]
    fn noted(mut self, pid: bool, sound: bool) -> Receiver
        ensures { result ≡ pick sound (good pid self) (damaged self) }
    {
        self.enabled = false;
        if sound {
            self.toggle = pid;
            self.last = true;
        } else {
            self.err = true;
        }
        self
    }

    // The operational state is left.
    pub fn stopped(mut self) -> Receiver
        ensures { result ≡ stopped self }
    {
        self.enabled = false;
        self
    }

    // Whether a state is one that 01 allows: asked before a step.
    #[tactic(auto, unfolding(crate::specs::Receiver::well_formed))]
    pub fn well_formed(self, operational: bool) -> bool
        ensures { result ≡ well_formed operational self }
    {
        ring::level(self.fifo.read, self.fifo.write) <= RxFifo::SIZE
            && self.middle < 4
            && self.epc.number.within()
            && (operational || !self.enabled)
    }
}
