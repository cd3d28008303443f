// The first request of a stream.
ghost use Rattle.std.specs.Prelude.{◌≡◌, ◌+◌, ◌-◌, ◌≤◌, ◌<◌, length};
ghost use Rattle.octets.specs.Limits.{head_most};
ghost use Rattle.messages.specs.Answers.{reading_of};
ghost use Rattle.messages.specs.Room.{section_room, chunks_room};
ghost use Rattle.http1_lines.specs.Read.{read_request};
ghost use Rattle.ranges.specs.Ranges.{places_end, Outcomed};
ghost use Rattle.http1_reader.specs.Readers.{version_len, HeadKnown, request_found, RestRead, BehindLineRead};

use crate::JudgedHead;
use crate::heads::judge_request;
use http1_lines::RequestLine;
use http1_lines::lines::request_line;
use http1_parts::content::read_content;
use http1_parts::lines::{line_in, read_headers};
use http1_parts::{ContentRead, Section};
use messages::answers::request_record;
use messages::parts::is_scheme;
use messages::{Counts, Outcome, Part, Reading, Record, Span, Stop, Told};
use octets::{ClassTable, Limits, Refusal};
use ranges::reading;

// The record of a request that was read: its line, the section of its head, what is judged of this, and its content.
fn request_found(
    told: Told,
    line: RequestLine,
    section: Section,
    head: JudgedHead,
    content: ContentRead,
) -> Record
    requires { (line.method + 1 + (line.target.start + line.target.len) < places_end) × (head.authority.start + head.authority.len < places_end) }
    ensures { result ≡ request_found told line section head content }
{
    let counts = Counts {
        headers: section.kept,
        chunks: content.chunks,
        content: content.total,
        trailers: content.trailers,
        length: content.end,
        stated: None,
        long: 0,
        closes: section.notes.closes,
    };
    let method = Part {
        start: 0,
        len: line.method as u32,
    };
    let authority = Part {
        start: head.authority.start as u32,
        len: head.authority.len as u32,
    };
    let path = Part {
        start: (line.method + 1 + line.target.start) as u32,
        len: line.target.len as u32,
    };
    request_record(
        told.scheme,
        method,
        authority,
        line.target.prefix,
        path,
        counts,
    )
}

// What stands behind a request's head whose section was read: its rules, then its content.
fn read_rest(
    t: &ClassTable,
    s: &[u8],
    told: Told,
    line: RequestLine,
    section: Section,
    chunks: &mut [u32],
    trailers: &mut [u32],
) -> Outcome
    requires { (section.end ≤ length s.now) × (section.end ≤ head_most) × (line.method + 1 + (line.target.start + line.target.len) ≤ head_most)
        × (chunks_room ≤ length chunks.old) × (section_room ≤ length trailers.old) × HeadKnown s.now line section }
    ensures { RestRead s.now told line section chunks.old chunks.new trailers.old trailers.new result }
{
    let host = Span {
        start: line.method + 1 + line.target.host,
        len: line.target.hostlen,
    };
    let head = judge_request(t, s, host, section.end, section.notes)?;
    let content = read_content(t, s, section.end, head.body, chunks, trailers)?;
    Ok(request_found(told, line, section, head, content))
}

// What stands behind a request line that ends at `next`.
fn read_head(
    t: &ClassTable,
    s: &[u8],
    told: Told,
    line: RequestLine,
    next: usize,
    headers: &mut [u32],
    chunks: &mut [u32],
    trailers: &mut [u32],
) -> Outcome
    requires { (next ≤ length s.now) × (line.method + 1 + (line.target.start + line.target.len) + version_len ≡ next)
        × (line.method + 1 + (line.target.host + line.target.hostlen) + 2 ≤ next) × (next ≤ head_most)
        × (section_room ≤ length headers.old) × (chunks_room ≤ length chunks.old) × (section_room ≤ length trailers.old) }
    ensures { BehindLineRead told s.now line next
        headers.old headers.new chunks.old chunks.new trailers.old trailers.new result }
{
    let section = read_headers(t, s, next, Limits::HEAD - next, false, 0, headers)?;
    read_rest(t, s, told, line, section, chunks, trailers)
}

// The first request of s, as told: its outcome, and the ranges of an accepted one in the lent space.
pub fn request_in(
    t: &ClassTable,
    s: &[u8],
    told: Told,
    headers: &mut [u32],
    chunks: &mut [u32],
    trailers: &mut [u32],
) -> Outcome
    requires { (section_room ≤ length headers.old) × (chunks_room ≤ length chunks.old) × (section_room ≤ length trailers.old) }
    ensures { Outcomed (read_request told s.now)
        headers.old headers.new chunks.old chunks.new trailers.old trailers.new result }
{
    if is_scheme(told.scheme) {
        let next = line_in(s, 0, Limits::HEAD)?;
        let e = next - 2;
        match request_line(&t.masks, told.scheme, &s[..e]) {
            Err(refusal) => return Err(Stop::Refused(refusal.at(0))),
            Ok(line) => return read_head(t, s, told, line, next, headers, chunks, trailers),
        }
    }
    Err(Stop::Refused(Refusal::NotSupported.at(0)))
}

// The first request of a stream, as told: its answer by value.
pub fn read_request(input: &[u8], told: Told) -> Reading
    ensures { result ≡ reading_of (read_request told input.now) }
{
    let t = ClassTable::new();
    let informational = [0u32; 8];
    let mut headers = [0u32; 1280];
    let mut chunks = [0u32; 512];
    let mut trailers = [0u32; 256];
    let o = request_in(&t, input, told, &mut headers, &mut chunks, &mut trailers);
    reading(o, informational, headers, trailers, chunks)
}
