// The bytes of a packet, which stay in the lent memory: how many they are, and all of them written into a buffer, as they are or as hex.
// What would stand past the buffer's end is not written. The definitions that the contracts cite are in specs/.
#![tactic(auto)]

ghost use Rattle.std.specs.Prelude.{◌≡◌, ◌+◌, ◌<◌, length, slice_index};
ghost use Rattle.digits.specs.Text.{overlay};
ghost use Rattle.packet.specs.Packet.{packet_bytes, hex_bytes, Copied};

use answer::Packet;
use window::Memory;

// How many bytes: a window has no more than its size.
#[tactic(auto, using(crate::proofs::Turns::packet_length))]
pub fn count(p: Packet, memory: &Memory) -> usize
    ensures { result ≡ length (packet_bytes p memory.now) }
{
    usize::from(p.count.min(p.window.size()))
}

// The byte that stands k places after the first.
#[tactic(auto, using(crate::proofs::Turns::packet_byte, crate::proofs::Turns::packet_most))]
fn byte(p: Packet, memory: &Memory, k: usize) -> u8
    requires { k < length (packet_bytes p memory.now) }
    ensures { result ≡ slice_index (packet_bytes p memory.now) k }
{
    ring::load(memory, p.window, p.from.wrapping_add(k as u8))
}

// Writes the bytes from a place on, and tells how many they are.
pub fn bytes(p: Packet, memory: &Memory, out: &mut [u8], at: usize) -> usize
    ensures { Copied at p memory.now out.old result out.new }
{
    let n = count(p, memory);
    for k in 0..n {
        digits::put(out, at, k, byte(p, memory, k));
    }
    n
}

// Writes the bytes in hex, i places after a place.
pub fn hex(p: Packet, memory: &Memory, out: &mut [u8], at: usize, i: usize)
    ensures { out.new ≡ overlay (at + i) (hex_bytes (packet_bytes p memory.now)) out.old }
{
    let from = digits::place(out.len(), at, i);
    for k in 0..count(p, memory) {
        digits::hex(out, from, 2 * k, byte(p, memory, k));
    }
}
