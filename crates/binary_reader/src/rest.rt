// What stands behind a header section: content, trailers, padding.
ghost use Rattle.std.specs.Prelude.{◌≡◌, ◌≤◌, ◌<◌, length, drop};
ghost use Rattle.ranges.specs.Ranges.{places_end};
ghost use Rattle.binary.specs.Read.{trailers_agree, trailers};
ghost use Rattle.messages.specs.Room.{section_room, chunks_room};
ghost use Rattle.binary_reader.specs.Rest.{Trailed, Behind, Rested};

use crate::{RestRead, TrailersRead};
use binary::{Cursor, Form};
use binary_parts::content::{check_padding, content_agrees, read_content};
use binary_parts::lines::read_section;
use binary_parts::{ContentRead, Section};
use messages::sections::are_trailers;
use messages::{Framing, Notes};
use octets::{ClassTable, Refusal, Refused};

// Whether a trailer section with `kept` kept lines may stand in a message that may have content or not.
fn trailers_agree(notes: Notes, body: bool, kept: usize) -> bool
    ensures { result ≡ trailers_agree notes.trailers body kept }
{
    are_trailers(notes) && (body || kept == 0)
}

// The trailers from `from` on; where the message ends before them there are none.
fn read_trailers(
    t: &ClassTable,
    s: &[u8],
    from: Cursor,
    form: Form,
    body: bool,
    out: &mut [u32],
) -> Result<TrailersRead, Refused>
    requires { (from.at ≤ length s.now) × (length s.now < places_end) × (section_room ≤ length out.old) × (from.long ≤ from.at) }
    ensures { Trailed s.now (trailers form body from (drop from.at s.now)) out.old out.new result }
{
    if s.len() <= from.at {
        return Ok(TrailersRead { end: from, kept: 0 });
    }
    let Section { end, kept, notes } = read_section(t, s, from, form, false, false, 0, out)?;
    if trailers_agree(notes, body, kept) {
        Ok(TrailersRead { end, kept })
    } else {
        Err(Refusal::BadLength.at(end.at))
    }
}

// Trailers and padding behind the content that was read.
fn after_content(
    t: &ClassTable,
    s: &[u8],
    content: ContentRead,
    form: Form,
    body: bool,
    trailers: &mut [u32],
) -> Result<RestRead, Refused>
    requires { (content.end.at ≤ length s.now) × (length s.now < places_end) × (section_room ≤ length trailers.old)
        × (content.end.long ≤ content.end.at) }
    ensures { Behind s.now content form body trailers.old trailers.new result }
{
    let TrailersRead { end, kept } = read_trailers(t, s, content.end, form, body, trailers)?;
    check_padding(s, end, form)?;
    Ok(RestRead {
        chunks: content.chunks,
        total: content.total,
        trailers: kept,
        long: end.long,
    })
}

// What stands behind a header section that ends at `from`, to the end of the input: content as the head states it, trailers, padding.
// `body` says whether the message may have content.
pub(crate) fn after_headers(
    t: &ClassTable,
    s: &[u8],
    from: Cursor,
    form: Form,
    body: bool,
    framing: Framing,
    chunks: &mut [u32],
    trailers: &mut [u32],
) -> Result<RestRead, Refused>
    requires { (from.at ≤ length s.now) × (length s.now < places_end)
        × (chunks_room ≤ length chunks.old) × (section_room ≤ length trailers.old) × (from.long ≤ from.at) }
    ensures { Rested s.now from form body framing
        chunks.old chunks.new trailers.old trailers.new result }
{
    let content = read_content(s, from, form.known, chunks)?;
    if content_agrees(framing, body, content.total) {
        after_content(t, s, content, form, body, trailers)
    } else {
        Err(Refusal::BadLength.at(content.end.at))
    }
}
