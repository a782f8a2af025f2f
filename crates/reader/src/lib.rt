// A reader keeps the lent trace together with its place in it. The functions over it are thin: the work is done by those of `trace`.
// The two with plain parameters, below, serve callers that have no reader.
#![tactic(auto)]

ghost use Rattle.std.specs.Prelude.{◌≡◌};
ghost use Rattle.trace.specs.Record.{read_at, stretch};
ghost use Rattle.trace.specs.Meaning.{meaning};

use trace::{Found, Span};

// The lent trace, and a place in it.
#[derive(Clone, Copy)]
pub struct Reader<'a> {
    pub trace: &'a [u8],
    pub place: usize,
}

impl<'a> Reader<'a> {
    // At the start of a trace.
    pub fn new(trace: &'a [u8]) -> Reader<'a>
        ensures { result ≡ record { trace = trace.entry; place = 0 } }
    {
        Reader { trace, place: 0 }
    }

    // The same trace, at another place.
    pub fn moved(self, place: usize) -> Reader<'a>
        ensures { result ≡ record { trace = self.entry.trace; place = place } }
    {
        Reader { place, ..self }
    }

    // What stands at the place.
    pub fn next(self) -> Found
        ensures { meaning result ≡ read_at self.entry.trace.now self.entry.place }
    {
        trace::read(self.trace, self.place)
    }

    // The payload of a record: a part of the trace, which outlives the reader.
    pub fn payload(self, span: Span) -> &'a [u8]
        ensures { result.now ≡ stretch self.entry.trace.now span.payload span.next }
    {
        trace::payload(self.trace, span)
    }
}

// What stands at a place of a trace; a place at or past the end is the end.
pub fn read(s: &[u8], at: usize) -> Found
    ensures { meaning result ≡ read_at s.now at }
{
    Reader::new(s).moved(at).next()
}

// The payload of a record: the part of the trace from past its header to the next place.
pub fn payload(s: &[u8], span: Span) -> &[u8]
    ensures { result.now ≡ stretch s.now span.payload span.next }
{
    Reader::new(s).payload(span)
}
