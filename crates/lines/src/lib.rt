// The text of one event: its number, the answer and the interrupt line, or its refusal. Each line ends with one LF.
// What is written goes into a lent buffer, from a place on, as far as the buffer goes. The definitions that the contracts cite are in specs/.
#![tactic(auto)]

ghost use Rattle.std.specs.Prelude.{◌≡◌, ◌++◌, ◌+◌, ◌≤◌};
ghost use Rattle.epc.specs.Bits.{bit_of};
ghost use Rattle.digits.specs.Text.{digit};
ghost use Rattle.refusal.specs.Refusal.{number_of};
ghost use Rattle.lines.specs.Line.{payload_text, value_text, answer_text, line_text, refusal_text, Printed};
ghost use Rattle.packet.specs.Packet.{packet_bytes};

use answer::{Answer, Packet};
use refusal::Refusal;
use window::Memory;

// No line is longer.
pub const LONGEST: usize = 158;

// Writes a stretch of bytes, and tells how long it is.
fn word(out: &mut [u8], at: usize, s: &[u8]) -> usize
    ensures { Printed at s.now out.old result out.new }
{
    digits::text(out, at, 0, s);
    s.len()
}

// Writes a packet's bytes in hex, i places after a place, and `-` for none.
#[tactic(auto, using(packet::proofs::Turns::packet_most, packet::proofs::Turns::hex_bytes_length, crate::proofs::Lengths::payload_none, crate::proofs::Lengths::payload_some))]
fn payload(out: &mut [u8], at: usize, i: usize, p: Packet, memory: &Memory) -> usize
    ensures { Printed (at + i) (payload_text (packet_bytes p memory.now)) out.old result out.new }
{
    let n = packet::count(p, memory);
    if n == 0 {
        digits::put(out, at, i, b'-');
        1
    } else {
        packet::hex(p, memory, out, at, i);
        2 * n
    }
}

// Writes `data0 ` or `data1 ` and a packet's bytes.
fn data(out: &mut [u8], at: usize, name: &[u8; 6], p: Packet, memory: &Memory) -> usize
    ensures { Printed at (name.now ++ payload_text (packet_bytes p memory.now)) out.old result out.new }
{
    digits::text(out, at, 0, name);
    6 + payload(out, at, 6, p, memory)
}

// Writes `read ` and a register's value in hex.
fn value(out: &mut [u8], at: usize, v: u8) -> usize
    ensures { Printed at (value_text v) out.old result out.new }
{
    digits::text(out, at, 0, b"read ");
    digits::hex(out, at, 5, v);
    7
}

// Writes an answer, i places after a place, and tells how long it is.
fn answered(out: &mut [u8], at: usize, i: usize, answer: Answer, memory: &Memory) -> usize
    ensures { Printed (at + i) (answer_text answer memory.now) out.old result out.new × (result ≤ 134) }
{
    let from = digits::place(out.len(), at, i);
    match answer {
        Answer::Silence => word(out, from, b"-"),
        Answer::Value(v) => value(out, from, v),
        Answer::Data0(p) => data(out, from, b"data0 ", p, memory),
        Answer::Data1(p) => data(out, from, b"data1 ", p, memory),
        Answer::Broken => word(out, from, b"broken"),
        Answer::Ack => word(out, from, b"ack"),
        Answer::Nak => word(out, from, b"nak"),
        Answer::Stall => word(out, from, b"stall"),
    }
}

// The interrupt line as a digit.
fn level(raised: bool) -> u8
    ensures { result ≡ digit (bit_of raised) }
{
    b'0' + epc::bit(raised)
}

// Writes an event's line, and tells how long it is.
pub fn line(
    out: &mut [u8],
    at: usize,
    number: u64,
    answer: Answer,
    memory: &Memory,
    raised: bool,
) -> usize
    ensures { Printed at (line_text number answer memory.now raised) out.old result out.new }
{
    let n = digits::decimal(out, at, 0, number);
    digits::put(out, at, n, b' ');
    let k = answered(out, at, n + 1, answer, memory);
    let e = n + 1 + k;
    digits::text(out, at, e, &[b' ', level(raised), b'\n']);
    e + 3
}

// Writes `n refuse k at p`, and tells how long it is.
pub fn refusal(out: &mut [u8], at: usize, number: u64, r: Refusal, place: usize) -> usize
    ensures { Printed at (refusal_text number (number_of r) place) out.old result out.new }
{
    let n = digits::decimal(out, at, 0, number);
    digits::text(out, at, n, b" refuse ");
    digits::text(out, at, n + 8, &[b'0' + r.number(), b' ', b'a', b't', b' ']);
    let e = n + 13;
    let p = digits::decimal(out, at, e, place as u64);
    digits::put(out, at, e + p, b'\n');
    e + p + 1
}
