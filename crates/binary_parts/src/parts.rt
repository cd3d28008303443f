// Parts: a length, and the octets that it counts.
ghost use Rattle.std.specs.Prelude.{◌≤◌, length, drop};
ghost use Rattle.octets.specs.Refusals.{cut_off};
ghost use Rattle.binary.specs.Reader.{cursor, string};
ghost use Rattle.binary.specs.Read.{part, part_within};
ghost use Rattle.binary_parts.specs.Control.{Parted};

use crate::PartRead;
use binary::Cursor;
use messages::Span;
use numbers::{Integer, read_int};
use octets::{Limits, Refusal, Refused};

// The n octets from `at` on of a part that starts at `place`, behind which so many integers are long.
fn part_octets(
    s: &[u8],
    place: usize,
    at: usize,
    n: usize,
    long: usize,
) -> Result<PartRead, Refused>
    requires { (at ≤ length s.now) × (long ≤ at) }
    ensures { Parted s.now (string n cut_off place (cursor at long) (drop at s.now)) result }
{
    if s.len() - at < n {
        return Err(Refusal::CutOff.at(place));
    }
    Ok(PartRead {
        part: Span { start: at, len: n },
        end: Cursor { at: at + n, long },
    })
}

// The part at `from`, of any size.
pub(crate) fn part_at(s: &[u8], from: Cursor) -> Result<PartRead, Refused>
    requires { from.long ≤ from.at }
    ensures { Parted s.now (part from (drop from.at s.now)) result }
{
    let at = from.at;
    let Some(Integer { value, next, long }) = read_int(s, at) else {
        return Err(Refusal::CutOff.at(at));
    };
    part_octets(s, at, next, value, from.long + long)
}

// The part at `from`, of at most so many octets.
pub(crate) fn part_within(s: &[u8], from: Cursor, most: usize) -> Result<PartRead, Refused>
    requires { from.long ≤ from.at }
    ensures { Parted s.now (part_within most from (drop from.at s.now)) result }
{
    let at = from.at;
    let Some(Integer { value, next, long }) = read_int(s, at) else {
        return Err(Refusal::CutOff.at(at));
    };
    if Limits::fits(value, most) {
        part_octets(s, at, next, value, from.long + long)
    } else {
        Err(Refusal::TooLarge.at(at))
    }
}
