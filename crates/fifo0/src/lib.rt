// FIFO0, which endpoint 0 both sends from and receives into: 8 bytes. They stand in the lent memory.
// Every function takes any value and asks nothing of its caller. The definitions that the contracts cite are in specs/.
#![tactic(auto)]

ghost use Rattle.std.specs.Prelude.{◌≡◌};
ghost use Rattle.fifo0.specs.Control.{reset0, rcount, Put0, take0, fits0, Fill0, spend0};

use ring::Taken;
use window::{FifoNumber, Kind, Memory, Window};

// Bytes to send or, where `received` is set, bytes received; `last` is the byte that RXD0 gave last.
// With no bytes `received` is clear.
#[derive(Clone, Copy, PartialEq, Eq, Default)]
pub struct Fifo0 {
    pub read: u8,
    pub write: u8,
    pub last: u8,
    pub received: bool,
}

// Its window; FIFO0 is the only one of its kind.
const WINDOW: Window = Window {
    kind: Kind::Control,
    number: FifoNumber(0),
};

impl Fifo0 {
    pub const SIZE: u8 = Window::FIFO0_SIZE;

    pub fn reset() -> Fifo0
        ensures { result ≡ reset0 }
    {
        Fifo0::default()
    }

    // The received bytes held: none while there are bytes to send.
    #[tactic(auto, unfolding(crate::specs::Control::rcount, choice::specs::Choice::pick))]
    pub fn rcount(self) -> u8
        ensures { result ≡ rcount self }
    {
        if self.received {
            ring::level(self.read, self.write)
        } else {
            0
        }
    }

    // Appends a byte to send; ignored while received bytes stand, and when full.
    #[tactic(auto, unfolding(crate::specs::Control::put0, choice::specs::Choice::pick))]
    pub fn put(mut self, memory: &mut Memory, b: u8) -> Fifo0
        ensures { Put0 self b memory.old result memory.new }
    {
        if self.rcount() == 0 && 0 < ring::free(Fifo0::SIZE, self.read, self.write) {
            ring::store(memory, WINDOW, self.write, b);
            self.write = ring::next(self.write);
            self.received = false;
        }
        self
    }

    // Takes the first received byte; with none the last one read is given again.
    #[tactic(auto, unfolding(crate::specs::Control::take0, choice::specs::Choice::pick))]
    pub fn take(mut self, memory: &Memory) -> Taken<Fifo0>
        ensures { result ≡ take0 self memory.now }
    {
        let n = self.rcount();
        let taken = n != 0;
        if taken {
            self.last = ring::load(memory, WINDOW, self.read);
            self.read = ring::next(self.read);
            self.received = 1 < n;
        }
        Taken {
            next: self,
            value: self.last,
            taken,
        }
    }

    // Whether there is room for so many bytes: only where none is held, and for at most 8.
    pub fn fits(self, count: usize) -> bool
        ensures { result ≡ fits0 self count }
    {
        ring::level(self.read, self.write) == 0 && count <= Fifo0::SIZE as usize
    }

    // Stores a whole received packet; where it does not fit, nothing.
    #[tactic(auto, unfolding(crate::specs::Control::fill0, choice::specs::Choice::pick))]
    pub fn fill(mut self, memory: &mut Memory, s: &[u8]) -> Fifo0
        ensures { Fill0 self s.now memory.old result memory.new }
    {
        if self.fits(s.len()) {
            self.write = ring::store_all(memory, WINDOW, self.write, s);
            self.received = !s.is_empty();
        }
        self
    }

    // All bytes go, sent or received: read moves to write.
    pub fn spend(mut self) -> Fifo0
        ensures { result ≡ spend0 self }
    {
        self.read = self.write;
        self.received = false;
        self
    }

    // Zeroes the counters and the last byte read; the bytes in memory stay.
    pub fn flush(self) -> Fifo0
        ensures { result ≡ reset0 }
    {
        Fifo0::default()
    }
}
