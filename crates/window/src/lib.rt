// The windows of the lent memory in which the FIFOs' bytes stand: 392 bytes, FIFO0 first, then TXFIFO1 to 3, then RXFIFO1 to 3.
// Every function takes any value and asks nothing of its caller. The definitions that the contracts cite are in specs/.
#![tactic(auto)]

ghost use Rattle.std.specs.Prelude.{◌≡◌, ◌+◌, ◌≤◌};
ghost use Rattle.window.specs.Window.{index_of, size_of, start_of};

// The lent memory of all seven FIFOs: 8 + 3 * 64 + 3 * 64 bytes.
pub type Memory = [u8; 392];

// A FIFO's number in the data sheet: 0 for FIFO0, 1 to 3 for TXFIFO1 to 3 and for RXFIFO1 to 3.
#[derive(Clone, Copy, PartialEq, Eq)]
pub struct FifoNumber(pub u8);

// The three kinds of FIFO: FIFO0 of the control endpoint, TXFIFO1 to 3, RXFIFO1 to 3.
#[derive(Clone, Copy, PartialEq, Eq)]
pub enum Kind {
    Control,
    Transmit,
    Receive,
}

// The stretch of the lent memory in which a FIFO's bytes stand.
#[derive(Clone, Copy, PartialEq, Eq)]
pub struct Window {
    pub kind: Kind,
    pub number: FifoNumber,
}

impl FifoNumber {
    // How many of its kind stand before it; every number but 1 and 2 is taken for the third.
    #[tactic(auto, unfolding(crate::specs::Window::index_of, choice::specs::Choice::pick))]
    pub fn index(self) -> usize
        ensures { (result ≡ index_of self) × (result ≤ 2) }
    {
        match self.0 {
            1 => 0,
            2 => 1,
            _ => 2,
        }
    }
}

impl Window {
    pub const FIFO0_SIZE: u8 = 8;

    pub const TXFIFO_SIZE: u8 = 64;

    pub const RXFIFO_SIZE: u8 = 64;

    pub fn size(self) -> u8
        ensures { result ≡ size_of self.kind }
    {
        match self.kind {
            Kind::Control => Window::FIFO0_SIZE,
            Kind::Transmit => Window::TXFIFO_SIZE,
            Kind::Receive => Window::RXFIFO_SIZE,
        }
    }

    // The first place; a window never runs past the memory's end.
    pub fn start(self) -> usize
        ensures { (result ≡ start_of self.kind self.number) × (result + size_of self.kind ≤ 392) }
    {
        match self.kind {
            Kind::Control => 0,
            Kind::Transmit => 8 + 64 * self.number.index(),
            Kind::Receive => 200 + 64 * self.number.index(),
        }
    }
}
