// The reader of traces: what record stands at a place of a trace, or which refusal. It keeps nothing and takes any bytes at any place.
// The definitions that the contracts cite are in specs/.
#![tactic(auto)]

ghost use Rattle.std.specs.Prelude.{ℕ, ◌≡◌, [], ◌∷◌};
ghost use Rattle.trace.specs.Number.{number_at};
ghost use Rattle.trace.specs.Record.{fields_at, read_at, record_at, body_at, stretch};
ghost use Rattle.trace.specs.Meaning.{token_of, told, meaning};

use event::{BusEndpoint, Event, Token};
use refusal::Refusal;

mod fields;

// Where a record's payload starts, and the place past the record. Without a payload the two are one.
#[derive(Clone, Copy)]
pub struct Span {
    pub payload: usize,
    pub next: usize,
}

// Why there is no record, with the place of its start.
#[derive(Clone, Copy, PartialEq, Eq)]
pub struct Refused {
    pub why: Refusal,
    pub place: usize,
}

// What stands at a place: a record, the end, or a refusal.
pub type Found = Result<Option<(Event, Span)>, Refused>;

// What stands at a place of a trace; a place at or past the end is the end.
pub fn read(s: &[u8], at: usize) -> Found
    ensures { meaning result ≡ read_at s.now at }
{
    if s.len() <= at {
        return Ok(None);
    }
    let record = record_of(s, at).map_err(|why| Refused { why, place: at })?;
    Ok(Some(record))
}

// The payload of a record: the part of the trace from past its header to the next place.
pub fn payload(s: &[u8], span: Span) -> &[u8]
    ensures { result.now ≡ stretch s.now span.payload span.next }
{
    s.get(span.payload..span.next.min(s.len())).unwrap_or(&[])
}

// A record without payload that ends at `next`.
fn whole(event: Event, next: usize) -> (Event, Span)
    ensures { result ≡ (event, record { payload = next; next = next }) }
{
    (
        event,
        Span {
            payload: next,
            next,
        },
    )
}

// The record at a place that is not the end.
fn record_of(s: &[u8], at: usize) -> Result<(Event, Span), Refusal>
    ensures { told at result ≡ record_at s.now at (number_at s.now at) }
{
    let (kind, next) = fields::number(s, at)?;
    match kind {
        1 => {
            let ([register], end) = fields::fields_at(s, next, [63])?;
            Ok(whole(Event::Read(register), end))
        }
        2 => {
            let ([register, value], end) = fields::fields_at(s, next, [63, 255])?;
            Ok(whole(Event::Write(register, value), end))
        }
        3 => {
            let (token, end) = token_at(s, next)?;
            Ok(whole(Event::In(token.address, token.endpoint), end))
        }
        4 => {
            let (token, end) = token_at(s, next)?;
            Ok(whole(Event::Out(token.address, token.endpoint), end))
        }
        5 => {
            let (token, end) = token_at(s, next)?;
            Ok(whole(Event::Setup(token.address, token.endpoint), end))
        }
        6 => data_record(s, next),
        7 => Ok(whole(Event::Ack, next)),
        8 => Ok(whole(Event::Timeout, next)),
        _ => Err(Refusal::NoKind),
    }
}

// The fields of a token.
fn token_at(s: &[u8], at: usize) -> Result<(Token, usize), Refusal>
    ensures { token_of result ≡ fields_at s.now at (127 ∷ 15 ∷ []) }
{
    let ([address, endpoint], next) = fields::fields_at(s, at, [127, 15])?;
    let endpoint = BusEndpoint(endpoint);
    Ok((Token { address, endpoint }, next))
}

#[tactic(auto, using(crate::proofs::Within::some_fields_within), unfolding(crate::specs::Record::body_at, event::specs::Event::event_of, event::specs::Event::count_of, choice::specs::Choice::pick))]
fn data_record(s: &[u8], next: usize) -> Result<(Event, Span), Refusal>
    ensures { (at : ℕ) → told at result ≡ body_at s.now at 6 (fields_at s.now next (1 ∷ 1 ∷ 64 ∷ [])) }
{
    let ([pid, sound, count], payload) = fields::fields_at(s, next, [1, 1, 64])?;
    let n = usize::from(count);
    if s.len() - payload < n {
        return Err(Refusal::Cut);
    }
    Ok((
        Event::Data(pid, sound),
        Span {
            payload,
            next: payload + n,
        },
    ))
}
