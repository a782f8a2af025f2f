// Endpoint 0: FIFO0's counters, EPC0, TXS0, RXS0, TXC0, RXC0 and the SETUP mark. Bytes stand in the lent memory.
// What a register access does is in registers.rt, what a bus event does in the crate controlbus. The definitions that the contracts cite
// are in specs/.
#![tactic(auto)]

ghost use Rattle.std.specs.Prelude.{◌≡◌};
ghost use Rattle.control.specs.State.{reset_control, unmarked_empty, well_formed};

use fifo0::Fifo0;

mod registers;

// `stall`, `def` are EPC0; `ack`, `done` are ACK_STAT, TX_DONE of TXS0; `setup`, `toggle`, `last` are SETUP, TOGGLE, RX_LAST of RXS0;
// `ignin`, `txtoggle`, `sends` are IGN_IN, TOGGLE, TX_EN of TXC0; `ignsetup`, `ignout`, `receives` are IGN_SETUP, IGN_OUT, RX_EN of RXC0.
// `mark`: the previous token to 0 was a SETUP that was taken.
#[derive(Clone, Copy, PartialEq, Eq, Default)]
pub struct Control {
    pub fifo: Fifo0,
    pub stall: bool,
    pub def: bool,
    pub ack: bool,
    pub done: bool,
    pub setup: bool,
    pub toggle: bool,
    pub last: bool,
    pub ignin: bool,
    pub txtoggle: bool,
    pub sends: bool,
    pub ignsetup: bool,
    pub ignout: bool,
    pub receives: bool,
    pub mark: bool,
}

impl Control {
    pub fn reset() -> Control
        ensures { result ≡ reset_control }
    {
        Control {
            fifo: Fifo0::reset(),
            ..Control::default()
        }
    }

    // Whether it is well formed in or outside the operational state.
    #[tactic(auto, unfolding(crate::specs::State::well_formed))]
    pub fn well_formed(self, operational: bool) -> bool
        ensures { result ≡ well_formed operational self }
    {
        ring::level(self.fifo.read, self.fifo.write) <= Fifo0::SIZE
            && unmarked_empty(self.fifo)
            && (operational || !self.sends && !self.receives)
    }
}

// An empty FIFO0 does not stand as received.
#[tactic(auto, unfolding(crate::specs::State::unmarked_empty))]
fn unmarked_empty(f: Fifo0) -> bool
    ensures { result ≡ unmarked_empty f }
{
    !f.received || ring::level(f.read, f.write) != 0
}
