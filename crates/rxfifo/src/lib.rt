// RXFIFO1 to 3, which endpoints 2, 4 and 6 receive into: 64 bytes each. The bytes stand in the lent memory.
// Every function takes any value and asks nothing of its caller. The definitions that the contracts cite are in specs/.
#![tactic(auto)]

ghost use Rattle.std.specs.Prelude.{◌≡◌};
ghost use Rattle.window.specs.declared.Kind.TheVariants.{Receive};
ghost use Rattle.rxfifo.specs.Receive.{reset_rx, take_rx, fits_rx, FillRx};

use ring::Taken;
use window::{FifoNumber, Kind, Memory, Window};

// `last` is the byte that RXD gave last.
#[derive(Clone, Copy, PartialEq, Eq, Default)]
pub struct RxFifo {
    pub read: u8,
    pub write: u8,
    pub last: u8,
}

// The window of the FIFO's bytes.
fn window(number: FifoNumber) -> Window
    ensures { result ≡ record { kind = Receive; number = number } }
{
    Window {
        kind: Kind::Receive,
        number,
    }
}

impl RxFifo {
    pub const SIZE: u8 = Window::RXFIFO_SIZE;

    pub fn reset() -> RxFifo
        ensures { result ≡ reset_rx }
    {
        RxFifo::default()
    }

    // Takes the first byte; with none the last one read is given again.
    #[tactic(auto, unfolding(crate::specs::Receive::take_rx, choice::specs::Choice::pick))]
    pub fn take(mut self, memory: &Memory, number: FifoNumber) -> Taken<RxFifo>
        ensures { result ≡ take_rx number self memory.now }
    {
        let taken = ring::level(self.read, self.write) != 0;
        if taken {
            self.last = ring::load(memory, window(number), self.read);
            self.read = ring::next(self.read);
        }
        Taken {
            next: self,
            value: self.last,
            taken,
        }
    }

    // Whether there is room for so many bytes.
    pub fn fits(self, count: usize) -> bool
        ensures { result ≡ fits_rx self count }
    {
        let size = RxFifo::SIZE as usize;
        count <= size && ring::level(self.read, self.write) as usize + count <= size
    }

    // Appends a whole packet; where it does not fit, nothing.
    #[tactic(auto, unfolding(crate::specs::Receive::fill_rx, choice::specs::Choice::pick))]
    pub fn fill(mut self, memory: &mut Memory, number: FifoNumber, s: &[u8]) -> RxFifo
        ensures { FillRx number self s.now memory.old result memory.new }
    {
        if self.fits(s.len()) {
            self.write = ring::store_all(memory, window(number), self.write, s);
        }
        self
    }

    // Zeroes the counters and the last byte read; the bytes in memory stay.
    pub fn flush(self) -> RxFifo
        ensures { result ≡ reset_rx }
    {
        RxFifo::default()
    }
}
