// TXFIFO1 to 3, which endpoints 1, 3 and 5 send from: 64 bytes each, with a saved read pointer. The bytes stand in the lent memory.
// Every function takes any value and asks nothing of its caller. The definitions that the contracts cite are in specs/.
#![tactic(auto)]

ghost use Rattle.std.specs.Prelude.{◌≡◌};
ghost use Rattle.txfifo.specs.Transmit.{reset_tx, PutTx, spend_tx, refill_tx, mark_tx};

use window::{FifoNumber, Kind, Memory, Window};

// `saved` is the read pointer that a refill goes back to.
#[derive(Clone, Copy, PartialEq, Eq, Default)]
pub struct TxFifo {
    pub read: u8,
    pub write: u8,
    pub saved: u8,
}

impl TxFifo {
    pub const SIZE: u8 = Window::TXFIFO_SIZE;

    pub fn reset() -> TxFifo
        ensures { result ≡ reset_tx }
    {
        TxFifo::default()
    }

    // Appends a byte; ignored when full.
    #[tactic(auto, unfolding(crate::specs::Transmit::put_tx, choice::specs::Choice::pick))]
    pub fn put(mut self, memory: &mut Memory, number: FifoNumber, b: u8) -> TxFifo
        ensures { PutTx number self b memory.old result memory.new }
    {
        if ring::level(self.read, self.write) < TxFifo::SIZE {
            let window = Window {
                kind: Kind::Transmit,
                number,
            };
            ring::store(memory, window, self.write, b);
            self.write = ring::next(self.write);
        }
        self
    }

    // All bytes go: read moves to write.
    pub fn spend(mut self) -> TxFifo
        ensures { result ≡ spend_tx self }
    {
        self.read = self.write;
        self
    }

    // Read goes back to saved where write - saved is at most 64, and else nowhere.
    #[tactic(auto, unfolding(crate::specs::Transmit::refill_tx, choice::specs::Choice::pick))]
    pub fn refill(mut self) -> TxFifo
        ensures { result ≡ refill_tx self }
    {
        if ring::level(self.saved, self.write) <= TxFifo::SIZE {
            self.read = self.saved;
        }
        self
    }

    // Saved moves to read.
    pub fn mark(mut self) -> TxFifo
        ensures { result ≡ mark_tx self }
    {
        self.saved = self.read;
        self
    }

    // Zeroes the counters; the bytes in memory stay.
    pub fn flush(self) -> TxFifo
        ensures { result ≡ reset_tx }
    {
        TxFifo::default()
    }
}
