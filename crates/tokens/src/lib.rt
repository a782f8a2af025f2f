// Who takes a token: the endpoints that match are the bits of a mask, and its lowest set bit is the winner.
// The definitions that the contracts cite are in specs/.
#![tactic(auto)]

ghost use Rattle.std.specs.Prelude.{◌≡◌};
ghost use Rattle.tokens.specs.Tokens.{own, zero_takes, sender_takes, receiver_takes, in_mask, out_mask, winner};

use event::{BusEndpoint, Token};
use state::{Chip, Endpoint};
use window::FifoNumber;

// AD_EN is set and the address agrees.
#[tactic(auto, unfolding(crate::specs::Tokens::own))]
pub fn own(c: Chip, address: u8) -> bool
    ensures { result ≡ own address c }
{
    c.aden && c.address == address
}

// Endpoint 0: also at address 0 with DEF.
#[tactic(auto, unfolding(crate::specs::Tokens::zero_takes))]
pub fn zero_takes(c: Chip, token: Token) -> bool
    ensures { result ≡ zero_takes token.address token.endpoint c }
{
    token.endpoint == BusEndpoint(0)
        && (own(c, token.address) || token.address == 0 && c.control.def)
}

// The endpoint that sends from a FIFO, and the one that receives into it.
#[tactic(auto, unfolding(crate::specs::Tokens::sender_takes))]
fn sender_takes(c: Chip, token: Token, number: FifoNumber) -> bool
    ensures { result ≡ sender_takes token.address token.endpoint number c }
{
    own(c, token.address) && c.sender(number).epc.takes(token.endpoint)
}

#[tactic(auto, unfolding(crate::specs::Tokens::receiver_takes))]
fn receiver_takes(c: Chip, token: Token, number: FifoNumber) -> bool
    ensures { result ≡ receiver_takes token.address token.endpoint number c }
{
    own(c, token.address) && c.receiver(number).epc.takes(token.endpoint)
}

// The endpoints that match an IN token: bits 0, 1, 3, 5.
#[tactic(auto, unfolding(crate::specs::Tokens::in_mask))]
pub fn in_mask(c: Chip, token: Token) -> u32
    ensures { result ≡ in_mask token.address token.endpoint c }
{
    let takes = |k: FifoNumber| epc::bit(sender_takes(c, token, k));
    u32::from(
        epc::bit(zero_takes(c, token))
            + 2 * takes(FifoNumber(1))
            + 8 * takes(FifoNumber(2))
            + 32 * takes(FifoNumber(3)),
    )
}

// The endpoints that match an OUT token: bits 0, 2, 4, 6.
#[tactic(auto, unfolding(crate::specs::Tokens::out_mask))]
pub fn out_mask(c: Chip, token: Token) -> u32
    ensures { result ≡ out_mask token.address token.endpoint c }
{
    let takes = |k: FifoNumber| epc::bit(receiver_takes(c, token, k));
    u32::from(
        epc::bit(zero_takes(c, token))
            + 4 * takes(FifoNumber(1))
            + 16 * takes(FifoNumber(2))
            + 64 * takes(FifoNumber(3)),
    )
}

// The lowest-numbered endpoint of a mask.
#[tactic(auto, unfolding(crate::specs::Tokens::winner, choice::specs::Choice::pick))]
pub fn winner(mask: u32) -> Option<Endpoint>
    ensures { result ≡ winner mask }
{
    if mask == 0 {
        return None;
    }
    Some(Endpoint((mask.trailing_zeros() % 8) as u8))
}
