// Requests.
ghost use Rattle.std.specs.Prelude.{◌≡◌, ◌+◌, ◌≤◌, ◌<◌, length, drop};
ghost use Rattle.ranges.specs.Ranges.{places_end};
ghost use Rattle.binary.specs.Read.{after_control, request_message};
ghost use Rattle.messages.specs.Room.{section_room, chunks_room};
ghost use Rattle.binary_parts.specs.Control.{Inside, InsideAll, control_of};
ghost use Rattle.binary_reader.specs.Requests.{HeadJudged, part_is, request_counted, RequestRest, Requested};

use crate::RestRead;
use crate::rest::after_headers;
use binary::{Cursor, Form};
use binary_parts::control::request_control;
use binary_parts::lines::header_section;
use binary_parts::{ControlRead, Section};
use messages::answers::request_record;
use messages::sections::{authority_in, is_clashing};
use messages::{Counts, Notes, Outcome, Part, PathPrefix, Record, Span};
use octets::{ClassTable, Refusal, Refused};

// A request's head that ends at `end`, of whose control data `authority` is: host, then length. The authority of the request.
fn judge_head(
    t: &ClassTable,
    s: &[u8],
    authority: Span,
    end: usize,
    notes: Notes,
) -> Result<Span, Refused>
    requires { Inside s.now authority }
    ensures { HeadJudged s.now authority end notes result }
{
    let Some(found) = authority_in(&t.masks, s, authority.start, authority.len, notes.hosts) else {
        return Err(Refusal::BadHost.at(end));
    };
    if is_clashing(notes.framing) {
        Err(Refusal::BadLength.at(end))
    } else {
        Ok(found)
    }
}

// The part that a span names.
fn part_of(a: Span) -> Part
    requires { a.start + a.len < places_end }
    ensures { result ≡ part_is a }
{
    Part {
        start: a.start as u32,
        len: a.len as u32,
    }
}

// The record of a request of n octets of which all was read: its control data, with the authority that was found, its kept fields, and what stands
// behind its head.
fn request_counted(
    rest: RestRead,
    n: usize,
    control: ControlRead,
    authority: Span,
    fields: usize,
    closes: bool,
) -> Record
    requires { (control.method.start + control.method.len < places_end) × (authority.start + authority.len < places_end)
        × (control.path.start + control.path.len < places_end) }
    ensures { result ≡ request_counted n control authority fields closes rest }
{
    let counts = Counts {
        headers: fields,
        chunks: rest.chunks,
        content: rest.total,
        trailers: rest.trailers,
        length: n,
        stated: None,
        long: rest.long,
        closes,
    };
    request_record(
        control.scheme,
        part_of(control.method),
        part_of(authority),
        PathPrefix::Nothing,
        part_of(control.path),
        counts,
    )
}

// What stands behind a request's header section: its rules, then content, trailers and padding.
fn after_head(
    t: &ClassTable,
    s: &[u8],
    form: Form,
    control: ControlRead,
    head: Section,
    chunks: &mut [u32],
    trailers: &mut [u32],
) -> Outcome
    requires { (head.end.at ≤ length s.now) × (length s.now < places_end) × InsideAll s.now control
        × (chunks_room ≤ length chunks.old) × (section_room ≤ length trailers.old) × (head.end.long ≤ head.end.at) }
    ensures { RequestRest s.now form (control_of s.now control) head chunks.old chunks.new trailers.old trailers.new result }
{
    let notes = head.notes;
    let authority = judge_head(t, s, control.authority, head.end.at, notes)?;
    let rest = after_headers(t, s, head.end, form, true, notes.framing, chunks, trailers)?;
    Ok(request_counted(rest, s.len(), control, authority, head.kept, notes.closes))
}

// What stands behind the control data of a request.
fn after_control(
    t: &ClassTable,
    s: &[u8],
    form: Form,
    control: ControlRead,
    headers: &mut [u32],
    chunks: &mut [u32],
    trailers: &mut [u32],
) -> Outcome
    requires { (control.end.at ≤ length s.now) × (length s.now < places_end) × InsideAll s.now control
        × (section_room ≤ length headers.old) × (chunks_room ≤ length chunks.old) × (section_room ≤ length trailers.old)
        × (control.end.long ≤ control.end.at) }
    ensures { Requested (after_control form (control_of s.now control) control.end (drop control.end.at s.now))
        headers.old headers.new chunks.old chunks.new trailers.old trailers.new result }
{
    let head = header_section(t, s, control.end, form, false, 0, headers)?;
    after_head(t, s, form, control, head, chunks, trailers)
}

// The request from `from` on, behind its framing: its outcome, and the ranges of an accepted one in the lent space.
pub(crate) fn request_in(
    t: &ClassTable,
    s: &[u8],
    from: Cursor,
    form: Form,
    headers: &mut [u32],
    chunks: &mut [u32],
    trailers: &mut [u32],
) -> Outcome
    requires { (length s.now < places_end)
        × (section_room ≤ length headers.old) × (chunks_room ≤ length chunks.old) × (section_room ≤ length trailers.old)
        × (from.long ≤ from.at) }
    ensures { Requested (request_message form from (drop from.at s.now))
        headers.old headers.new chunks.old chunks.new trailers.old trailers.new result }
{
    let control = request_control(t, s, from)?;
    after_control(t, s, form, control, headers, chunks, trailers)
}
