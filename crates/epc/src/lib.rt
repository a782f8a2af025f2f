// The endpoint control register of endpoints 1 to 6, EPC1 to EPC6: 7 STALL, 5 ISO, 4 EP_EN, 3..0 the bus endpoint number.
// The definitions that the contracts cite are in specs/.
#![tactic(auto)]

ghost use Rattle.std.specs.Prelude.{◌≡◌, ◌≤◌};
ghost use Rattle.epc.specs.Bits.{bit_of};
ghost use Rattle.epc.specs.Epc.{reset_epc, epc_of, epc_value, takes};

use event::BusEndpoint;

#[derive(Clone, Copy, PartialEq, Eq, Default)]
pub struct Epc {
    pub stall: bool,
    pub iso: bool,
    pub enabled: bool,
    pub number: BusEndpoint,
}

// A bit's weight in the lowest place.
pub fn bit(b: bool) -> u8
    ensures { (result ≡ bit_of b) × (result ≤ 1) }
{
    u8::from(b)
}

impl Epc {
    pub fn reset() -> Epc
        ensures { result ≡ reset_epc }
    {
        Epc::default()
    }

    // What a written byte stores; bit 6 is dropped.
    pub fn of(v: u8) -> Epc
        ensures { result ≡ epc_of v }
    {
        Epc {
            stall: v / 128 % 2 == 1,
            iso: v / 32 % 2 == 1,
            enabled: v / 16 % 2 == 1,
            number: BusEndpoint(v % 16),
        }
    }

    // What a read shows.
    pub fn value(self) -> u8
        ensures { result ≡ epc_value self }
    {
        128 * bit(self.stall) + 32 * bit(self.iso) + 16 * bit(self.enabled) + self.number.0 % 16
    }

    // Whether it takes a token for a bus endpoint: EP_EN, no ISO, that number.
    #[tactic(auto, unfolding(crate::specs::Epc::takes))]
    pub fn takes(self, endpoint: BusEndpoint) -> bool
        ensures { result ≡ takes self endpoint }
    {
        !self.iso && self.enabled && self.number == endpoint
    }
}
