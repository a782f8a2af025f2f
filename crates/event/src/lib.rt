// The events that the chip takes one at a time, and the ranges of their fields.
// The definitions that the contracts cite are in specs/.
#![tactic(auto)]

ghost use Rattle.std.specs.Prelude.{◌≡◌, leb};
ghost use Rattle.event.specs.Event.{in_range};

// A bus endpoint number, 0 to 15, as tokens and the EPC registers have it.
#[derive(Clone, Copy, PartialEq, Eq, Default)]
pub struct BusEndpoint(pub u8);

// A token's address and bus endpoint.
#[derive(Clone, Copy)]
pub struct Token {
    pub address: u8,
    pub endpoint: BusEndpoint,
}

// One event: a register access or a bus event. A data event's count is the length of the payload that comes beside it.
#[derive(Clone, Copy)]
pub enum Event {
    // register
    Read(u8),
    // register, value
    Write(u8, u8),
    // address, endpoint
    In(u8, BusEndpoint),
    Out(u8, BusEndpoint),
    Setup(u8, BusEndpoint),
    // PID, sound
    Data(u8, u8),
    Ack,
    Timeout,
}

impl BusEndpoint {
    // Whether it is one that a token can name: 0 to 15.
    pub fn within(self) -> bool
        ensures { result ≡ leb self.0 15 }
    {
        self.0 <= 15
    }
}

// Whether an event's fields are in range, with a payload of so many bytes beside it: 0 to 64 for data, none for the others.
#[tactic(auto, unfolding(crate::specs::Event::in_range, crate::specs::Event::values_of, crate::specs::Event::kind_of, crate::specs::Event::ranges, crate::specs::Event::within, crate::specs::Event::count_of, choice::specs::Choice::pick))]
pub fn in_range(event: Event, count: usize) -> bool
    ensures { result ≡ in_range event count }
{
    match event {
        Event::Read(register) | Event::Write(register, _) => register <= 63 && count == 0,
        Event::In(address, endpoint)
        | Event::Out(address, endpoint)
        | Event::Setup(address, endpoint) => address <= 127 && endpoint.within() && count == 0,
        Event::Data(pid, sound) => pid <= 1 && sound <= 1 && count <= 64,
        Event::Ack | Event::Timeout => count == 0,
    }
}
