// What data after a token finds at an endpoint that receives, 0 as well as 2, 4, 6.
// The definitions that the contracts cite are in specs/.
#![tactic(auto)]

ghost use Rattle.std.specs.Prelude.{◌≡◌};
ghost use Rattle.verdict.specs.Verdict.{heard, is_ack};

// Nothing, NAK with its NAKEV bit, STALL, NAK with the overrun bit and without its NAKEV bit, ACK.
#[derive(Clone, Copy, PartialEq, Eq)]
pub enum Judged {
    Silence,
    Nak,
    Stall,
    Overrun,
    Ack,
}

impl Judged {
    // Unsound data is met with silence.
    #[tactic(auto, unfolding(crate::specs::Verdict::heard, choice::specs::Choice::pick))]
    pub fn heard(self, sound: bool) -> Judged
        ensures { result ≡ heard sound self }
    {
        if sound { self } else { Judged::Silence }
    }

    // Whether the data is acknowledged.
    pub fn is_ack(self) -> bool
        ensures { result ≡ is_ack self }
    {
        self == Judged::Ack
    }
}
