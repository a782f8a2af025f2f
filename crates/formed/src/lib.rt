// Whether a whole state is well formed: document 01's conditions, and one value for every idle field.
// The definitions that the contracts cite are in specs/.
#![tactic(auto)]

ghost use Rattle.std.specs.Prelude.{◌≡◌};
ghost use Rattle.formed.specs.Formed.{sends, receives, unheld, flush_beside, held_beside, pending_well, senders_well, receivers_well, registers_well, well_formed};

use state::{Chip, Endpoint, Pending, Wait};

#[tactic(auto, unfolding(crate::specs::Formed::well_formed))]
pub fn well_formed(c: Chip) -> bool
    ensures { result ≡ well_formed c }
{
    let on = settings::operational(c);
    c.control.well_formed(on)
        && senders(c, on)
        && receivers(c, on)
        && registers(c)
        && pending(c.pending, on)
}

#[tactic(auto, unfolding(crate::specs::Formed::senders_well, window::specs::Window::index_of, choice::specs::Choice::pick))]
fn senders(c: Chip, operational: bool) -> bool
    ensures { result ≡ senders_well operational c }
{
    c.senders.iter().all(|s| s.well_formed(operational))
}

#[tactic(auto, unfolding(crate::specs::Formed::receivers_well, window::specs::Window::index_of, choice::specs::Choice::pick))]
fn receivers(c: Chip, operational: bool) -> bool
    ensures { result ≡ receivers_well operational c }
{
    c.receivers.iter().all(|r| r.well_formed(operational))
}

// NFSR and FAR have no reserved bit set.
#[tactic(auto, unfolding(crate::specs::Formed::registers_well))]
fn registers(c: Chip) -> bool
    ensures { result ≡ registers_well c }
{
    c.nfsr < 4 && c.address < 128
}

// What is awaited, and what is held beside it.
#[tactic(auto, unfolding(crate::specs::Formed::pending_for))]
fn pending(p: Pending, operational: bool) -> bool
    ensures { result ≡ pending_well operational p }
{
    match p.wait {
        Wait::Nothing => unheld(p),
        Wait::Handshake(e) => operational && sends(e) && held_beside(e, p),
        Wait::Data(e) => operational && receives(e) && unheld(p),
        Wait::Setup => operational && unheld(p),
    }
}

#[tactic(auto, unfolding(crate::specs::Formed::sends))]
fn sends(e: Endpoint) -> bool
    ensures { result ≡ sends e }
{
    matches!(e.0, 0 | 1 | 3 | 5)
}

#[tactic(auto, unfolding(crate::specs::Formed::receives))]
fn receives(e: Endpoint) -> bool
    ensures { result ≡ receives e }
{
    matches!(e.0, 0 | 2 | 4 | 6)
}

#[tactic(auto, unfolding(crate::specs::Formed::unheld))]
fn unheld(p: Pending) -> bool
    ensures { result ≡ unheld p }
{
    !p.holds && !p.flush && p.held == 0
}

#[tactic(auto, unfolding(crate::specs::Formed::held_beside))]
fn held_beside(e: Endpoint, p: Pending) -> bool
    ensures { result ≡ held_beside e p }
{
    (p.holds || p.held == 0) && flush_beside(e, p)
}

#[tactic(auto, unfolding(crate::specs::Formed::flush_beside))]
fn flush_beside(e: Endpoint, p: Pending) -> bool
    ensures { result ≡ flush_beside e p }
{
    !p.flush || e == Endpoint(0)
}
