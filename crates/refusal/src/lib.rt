// Why something is refused, with document 01's numbers: one table for the reader, the chip, the driver and the program.
// The definition that the contract cites is in specs/.
#![tactic(auto)]

ghost use Rattle.std.specs.Prelude.{◌≡◌};
ghost use Rattle.refusal.specs.Refusal.{number_of};

// 1 to 4 are of a record or an event, 5 of a state, 6 and 7 of an offer to the driver, 8 of a program's input.
#[derive(Clone, Copy, PartialEq, Eq)]
pub enum Refusal {
    Cut = 1,
    NotShortest,
    NoKind,
    OutOfRange,
    NotWellFormed,
    OfferTooLong,
    PacketHeld,
    InputTooLong,
}

impl Refusal {
    // Document 01's number.
    pub fn number(self) -> u8
        ensures { result ≡ number_of self }
    {
        self as u8
    }
}
