// Content of known length or in chunks, and the padding behind a message.
ghost use Rattle.std.specs.Prelude.{◌≡◌, cond, false, eqb, ◌≤◌, ◌<◌, length, drop};
ghost use Rattle.octets.specs.Limits.{chunks_most, content_most};
ghost use Rattle.ranges.specs.Ranges.{places_end};
ghost use Rattle.binary.specs.Reader.{cursor};
ghost use Rattle.binary.specs.Read.{known_content, open_content, content, content_agrees, padding};
ghost use Rattle.messages.specs.Room.{chunks_room};
ghost use Rattle.binary_parts.specs.Content.{Chunked, Contented, Padded};

use crate::parts::part_within;
use crate::{Chunk, ContentRead, PartRead};
use binary::{Cursor, Form};
use messages::Framing;
use messages::sections::does_agree;
use numbers::{Integer, read_int};
use octets::{Limits, Refusal, Refused};
use ranges::store;

// Whether the octet may follow a message.
fn is_padding(form: Form, b: u8) -> bool
    ensures { result ≡ cond form.padded (eqb b 0) false }
{
    form.padded && b == 0
}

// The padding from `from` on, to the end of the input.
pub fn check_padding(s: &[u8], from: Cursor, form: Form) -> Result<(), Refused>
    requires { from.at ≤ length s.now }
    ensures { Padded s.now (padding form from (drop from.at s.now)) result }
{
    for i in from.at..s.len() {
        if !is_padding(form, s[i]) {
            return Err(Refusal::BadPadding.at(i));
        }
    }
    Ok(())
}

// The chunk whose length stands at i, behind `count` chunks of `total` octets and so many long integers.
fn open_chunk(s: &[u8], i: usize, count: usize, total: usize, long: usize) -> Result<Chunk, Refused>
    requires { (total ≤ content_most) × (count ≤ chunks_most) × (long ≤ i) }
    ensures { Chunked s.now (cursor i long) count total result }
{
    let Some(
        Integer {
            value,
            next,
            long: l,
        },
    ) = read_int(s, i)
    else {
        return Err(Refusal::CutOff.at(i));
    };
    let sum = long + l;
    if value == 0 {
        return Ok(Chunk::Last {
            end: Cursor {
                at: next,
                long: sum,
            },
        });
    }
    if !Limits::fits(count + 1, Limits::CHUNKS) {
        return Err(Refusal::TooLarge.at(i));
    }
    if !Limits::fits(total + value, Limits::CONTENT) {
        return Err(Refusal::TooLarge.at(i));
    }
    if s.len() - next < value {
        return Err(Refusal::CutOff.at(i));
    }
    Ok(Chunk::Next {
        start: next,
        len: value,
        long: sum,
    })
}

// Chunks from `from` on, up to a length of zero.
fn open_content(s: &[u8], from: Cursor, out: &mut [u32]) -> Result<ContentRead, Refused>
    requires { (from.at ≤ length s.now) × (length s.now < places_end) × (chunks_room ≤ length out.old) × (from.long ≤ from.at) }
    ensures { Contented s.now (open_content from (drop from.at s.now)) out.old out.new result }
{
    let mut i = from.at;
    let mut count: usize = 0;
    let mut total: usize = 0;
    let mut longs = from.long;
    loop {
        match open_chunk(s, i, count, total, longs)? {
            Chunk::Last { end } => return Ok(ContentRead {
                end,
                chunks: count,
                total,
            }),
            Chunk::Next { start, len, long } => {
                store(out, count, [start as u32, len as u32]);
                count += 1;
                total += len;
                longs = long;
                i = start + len;
            }
        }
    }
}

// Content of known length at `from`: one chunk, or none.
fn known_content(s: &[u8], from: Cursor, out: &mut [u32]) -> Result<ContentRead, Refused>
    requires { (length s.now < places_end) × (chunks_room ≤ length out.old) × (from.long ≤ from.at) }
    ensures { Contented s.now (known_content from (drop from.at s.now)) out.old out.new result }
{
    let PartRead { part, end } = part_within(s, from, Limits::CONTENT)?;
    if part.len == 0 {
        return Ok(ContentRead {
            end,
            chunks: 0,
            total: 0,
        });
    }
    store(out, 0, [part.start as u32, part.len as u32]);
    Ok(ContentRead {
        end,
        chunks: 1,
        total: part.len,
    })
}

// The content from `from` on, of known length or in chunks; where the message ends before it there is none.
pub fn read_content(
    s: &[u8],
    from: Cursor,
    known: bool,
    out: &mut [u32],
) -> Result<ContentRead, Refused>
    requires { (from.at ≤ length s.now) × (length s.now < places_end) × (chunks_room ≤ length out.old) × (from.long ≤ from.at) }
    ensures { Contented s.now (content known from (drop from.at s.now)) out.old out.new result }
{
    if s.len() <= from.at {
        Ok(ContentRead {
            end: from,
            chunks: 0,
            total: 0,
        })
    } else if known {
        known_content(s, from, out)
    } else {
        open_content(s, from, out)
    }
}

// Whether `total` octets of content agree with the length stated, and with a message that may have content or not.
pub fn content_agrees(framing: Framing, body: bool, total: usize) -> bool
    ensures { result ≡ content_agrees framing body total }
{
    does_agree(framing, total) && (body || total == 0)
}
