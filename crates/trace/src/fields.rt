// Numbers and runs of fields of a trace, read one by one, with the place after them; the first refusal among them is the answer.
ghost use Rattle.std.specs.Prelude.{◌≡◌};
ghost use Rattle.trace.specs.Number.{number_at};
ghost use Rattle.trace.specs.Record.{fields_at};
ghost use Rattle.trace.specs.Meaning.{taken_of, fields_of};

use refusal::Refusal;

// The number at a place: one byte, or two of which the second is neither 0 nor has its top bit set.
#[tactic(auto, using(crate::proofs::Numbers::by_bytes))]
pub fn number(s: &[u8], at: usize) -> Result<(u16, usize), Refusal>
    ensures { taken_of result ≡ number_at s.now at }
{
    let Some(&low) = s.get(at) else {
        return Err(Refusal::Cut);
    };
    if low < 128 {
        return Ok((u16::from(low), at + 1));
    }
    let Some(&high) = s.get(at + 1) else {
        return Err(Refusal::Cut);
    };
    if high == 0 || 128 <= high {
        return Err(Refusal::NotShortest);
    }
    Ok((u16::from(low - 128) + 128 * u16::from(high), at + 2))
}

// The fields at a place, each at most its limit.
#[tactic(auto, using(crate::proofs::Join::one_by_one), unfolding(crate::proofs::Join::prepend, crate::specs::Record::field, choice::specs::Choice::pick))]
pub fn fields_at<const N: usize>(
    s: &[u8],
    at: usize,
    most: [u8; N],
) -> Result<([u8; N], usize), Refusal>
    ensures { fields_of result ≡ fields_at s.now at most.entry }
{
    let mut values = [0u8; N];
    let mut place = at;
    for (i, limit) in most.iter().enumerate() {
        let (value, next) = number(s, place)?;
        if u16::from(*limit) < value {
            return Err(Refusal::OutOfRange);
        }
        values[i] = value as u8;
        place = next;
    }
    Ok((values, place))
}
