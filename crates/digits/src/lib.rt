// Text written into a lent buffer, i places after a place: a byte, a stretch of bytes, a byte in hex, a number in decimal.
// A place and an i may be any: what would stand past the buffer's end is not written. The definitions that the contracts cite are in specs/.
#![tactic(auto)]

ghost use Rattle.std.specs.Prelude.{◌≡◌, [], ◌∷◌, ◌+◌, ◌%◌, min, length};
ghost use Rattle.digits.specs.Text.{overlay, digit, decimal, hex_digit, hex_byte, Written};

// The place i after a place, or the end of a buffer of so many bytes: the sum may be more than a usize holds.
pub fn place(size: usize, at: usize, i: usize) -> usize
    ensures { result ≡ min (at + i) size }
{
    at.saturating_add(i).min(size)
}

// Writes one byte.
#[tactic(auto, using(crate::proofs::Places::past_end), unfolding(crate::specs::Text::overlay))]
pub fn put(out: &mut [u8], at: usize, i: usize, b: u8)
    ensures { out.new ≡ overlay (at + i) (b ∷ []) out.old }
{
    let p = place(out.len(), at, i);
    if p < out.len() {
        out[p] = b;
    }
}

// Writes a stretch of bytes.
#[tactic(auto, using(crate::proofs::Places::first_byte))]
pub fn text(out: &mut [u8], at: usize, i: usize, s: &[u8])
    ensures { out.new ≡ overlay (at + i) s.now out.old }
{
    let from = place(out.len(), at, i);
    for (k, b) in s.iter().enumerate() {
        put(out, from, k, *b);
    }
}

// The last digit of a byte in hex.
#[tactic(auto, unfolding(choice::specs::Choice::pick))]
fn hex_digit(b: u8) -> u8
    ensures { result ≡ hex_digit (b % 16) }
{
    let d = b % 16;
    if d < 10 { b'0' + d } else { b'A' + (d - 10) }
}

// Writes a byte in hex.
pub fn hex(out: &mut [u8], at: usize, i: usize, b: u8)
    ensures { out.new ≡ overlay (at + i) (hex_byte b) out.old }
{
    text(out, at, i, &[hex_digit(b / 16), hex_digit(b)]);
}

// The last digit of a number.
fn last_digit(n: u64) -> u8
    ensures { result ≡ digit (n % 10) }
{
    b'0' + (n % 10) as u8
}

// How many digits a number has.
#[tactic(auto, using(crate::proofs::Most::decimal_width))]
fn width(n: u64) -> usize
    ensures { result ≡ length (decimal n) }
{
    n.max(1).ilog10() as usize + 1
}

// Writes a number in decimal, from its last digit to its first, and tells how many digits it has.
pub fn decimal(out: &mut [u8], at: usize, i: usize, n: u64) -> usize
    ensures { Written (at + i) n out.old result out.new }
{
    let from = place(out.len(), at, i);
    let digits = width(n);
    let mut rest = n;
    for k in (0..digits).rev() {
        put(out, from, k, last_digit(rest));
        rest /= 10;
    }
    digits
}
