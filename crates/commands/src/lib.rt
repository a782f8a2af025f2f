// The commands of the program `drive`: what command stands at a place of its input. docs/DRIVE.md has the form.
// It keeps nothing and takes any bytes at any place. The definitions that the contracts cite are in specs/.
#![tactic(auto)]

ghost use Rattle.std.specs.Prelude.{◌≡◌};
ghost use Rattle.commands.specs.Command.{bare, start_at, carrying_at, command_at, read_at};

use event::BusEndpoint;
use trace::Span;

// A call of the driver, or an event for the chip.
#[derive(Clone, Copy)]
pub enum Command {
    // address, endpoint to send, endpoint to receive
    Start(u8, BusEndpoint, BusEndpoint),
    Offer,
    Send,
    Receive,
    Event,
}

// Bytes that begin no command, or are cut inside one.
#[derive(Clone, Copy)]
pub struct Unreadable;

// The command at a place of the input, with the places of its bytes and of the next one; a place at or past the end is the end.
#[tactic(auto, unfolding(crate::specs::Command::read_at, choice::specs::Choice::pick))]
pub fn read(s: &[u8], at: usize) -> Result<Option<(Command, Span)>, Unreadable>
    ensures { result ≡ read_at s.now at }
{
    let Some(first) = s.get(at) else {
        return Ok(None);
    };
    Ok(Some(begun_with(*first, s, at + 1)?))
}

// The command that begins with a byte, which stands before `next`.
#[tactic(auto, unfolding(crate::specs::Command::command_at, choice::specs::Choice::pick))]
fn begun_with(first: u8, s: &[u8], next: usize) -> Result<(Command, Span), Unreadable>
    ensures { result ≡ command_at s.now next first }
{
    match first {
        1 => start(s, next),
        2 => carrying(s, next, Command::Offer),
        3 => Ok(bare(Command::Send, next)),
        4 => Ok(bare(Command::Receive, next)),
        5 => carrying(s, next, Command::Event),
        _ => Err(Unreadable),
    }
}

// A command without bytes of its own that ends at `next`.
fn bare(command: Command, next: usize) -> (Command, Span)
    ensures { result ≡ bare command next }
{
    (
        command,
        Span {
            payload: next,
            next,
        },
    )
}

// A start: three bytes from a place on.
#[tactic(auto, unfolding(crate::specs::Command::start_at, choice::specs::Choice::pick))]
fn start(s: &[u8], at: usize) -> Result<(Command, Span), Unreadable>
    ensures { result ≡ start_at s.now at }
{
    let Some([a, e, f, ..]) = s.get(at..) else {
        return Err(Unreadable);
    };
    Ok(bare(Command::Start(*a, BusEndpoint(*e), BusEndpoint(*f)), at + 3))
}

// A command with bytes: from a place on their number, low byte first, and then they.
#[tactic(auto, unfolding(crate::specs::Command::carrying_at, choice::specs::Choice::pick))]
fn carrying(s: &[u8], at: usize, command: Command) -> Result<(Command, Span), Unreadable>
    ensures { result ≡ carrying_at s.now at command }
{
    let Some([low, high, bytes @ ..]) = s.get(at..) else {
        return Err(Unreadable);
    };
    let n = usize::from(u16::from_le_bytes([*low, *high]));
    if bytes.len() < n {
        return Err(Unreadable);
    }
    let payload = at + 2;
    Ok((
        command,
        Span {
            payload,
            next: payload + n,
        },
    ))
}
