// The first response of a stream.
ghost use Rattle.std.specs.Prelude.{◌≡◌, ◌+◌, ◌≤◌, length};
ghost use Rattle.octets.specs.Limits.{head_most};
ghost use Rattle.messages.specs.Answers.{reading_of};
ghost use Rattle.messages.specs.Room.{section_room, heads_room, informational_room, chunks_room};
ghost use Rattle.http1_lines.specs.Read.{response_call, read_response};
ghost use Rattle.ranges.specs.Ranges.{Responded};
ghost use Rattle.http1_parts.specs.Section.{SectionRoom};
ghost use Rattle.http1_reader.specs.Responses.{InformationalHeaded, FinalHeaded, NextHeaded};
ghost use Rattle.http1_reader.specs.Responses.{response_run, HeadsTaken, response_found, FinalRead};

use crate::{HeadRead, HeadsRead};
use http1_lines::lines::status_line;
use http1_parts::ContentRead;
use http1_parts::content::read_content;
use http1_parts::lines::{line_in, read_headers};
use messages::answers::response_record;
use messages::call::ending_of;
use messages::parts::is_informational;
use messages::sections::{nothing_stated, response_body, stated_in};
use messages::{Counts, Outcome, Reading, Record, Stop, Told};
use octets::{ClassTable, Limits, Refusal};
use ranges::{reading, store};

// The section of an informational head, behind its status line that ends at `next`.
fn informational_head(
    t: &ClassTable,
    s: &[u8],
    status: u32,
    next: usize,
    left: usize,
    base: usize,
    headers: &mut [u32],
) -> Result<HeadRead, Stop>
    requires { (next ≤ length s.now) × (next + left ≡ head_most) × SectionRoom base headers.old }
    ensures { InformationalHeaded s.now status next left base headers.old headers.new result }
{
    let section = read_headers(t, s, next, left, true, base, headers)?;
    nothing_stated(section.notes.framing, section.end)?;
    Ok(HeadRead::Informational {
        status,
        end: section.end,
        left: section.left,
        kept: section.kept,
    })
}

// The section of a final head, behind its status line that ends at `next`.
fn final_head(
    t: &ClassTable,
    s: &[u8],
    status: u32,
    next: usize,
    left: usize,
    base: usize,
    headers: &mut [u32],
) -> Result<HeadRead, Stop>
    requires { (next ≤ length s.now) × (next + left ≡ head_most) × SectionRoom base headers.old }
    ensures { FinalHeaded s.now status next left base headers.old headers.new result }
{
    let section = read_headers(t, s, next, left, true, base, headers)?;
    Ok(HeadRead::Final {
        status,
        end: section.end,
        kept: section.kept,
        notes: section.notes,
    })
}

// The head from i on, behind `count` informational heads: kept fields are stored behind the `base` fields that stand in `headers`.
fn next_head(
    t: &ClassTable,
    s: &[u8],
    i: usize,
    left: usize,
    count: usize,
    base: usize,
    headers: &mut [u32],
) -> Result<HeadRead, Stop>
    requires { (i ≤ length s.now) × (i + left ≡ head_most) × SectionRoom base headers.old }
    ensures { NextHeaded s.now i left count base headers.old headers.new result }
{
    let next = line_in(s, i, left)?;
    let e = next - 2;
    match status_line(&t.masks, &s[i..e]) {
        Err(refusal) => Err(Stop::Refused(refusal.at(i))),
        Ok(status) => {
            let rest = left - (next - i);
            if is_informational(status as usize) {
                if Limits::is_full(count, Limits::INFORMATIONAL) {
                    return Err(Stop::Refused(Refusal::TooLarge.at(i)));
                }
                return informational_head(t, s, status, next, rest, base, headers);
            }
            final_head(t, s, status, next, rest, base, headers)
        }
    }
}

// The heads of the first response of s, up to the final one: kept fields are stored in `headers`, those of informational heads first, and status and
// number of kept fields of each informational head in `informational`.
fn read_heads(
    t: &ClassTable,
    s: &[u8],
    headers: &mut [u32],
    informational: &mut [u32],
) -> Result<HeadsRead, Stop>
    requires { (heads_room ≤ length headers.old) × (informational_room ≤ length informational.old) }
    ensures { HeadsTaken (response_run s.now) s.now
        headers.old headers.new informational.old informational.new result }
{
    let mut i: usize = 0;
    let mut left = Limits::HEAD;
    let mut count: usize = 0;
    let mut base: usize = 0;
    loop {
        match next_head(t, s, i, left, count, base, headers)? {
            HeadRead::Final {
                status,
                end,
                kept,
                notes,
            } => return Ok(HeadsRead {
                status,
                end,
                heads: count,
                kept: kept - base,
                notes,
            }),
            HeadRead::Informational {
                status,
                end,
                left: rest,
                kept,
            } => {
                store(informational, count, [status, (kept - base) as u32]);
                base = kept;
                count += 1;
                left = rest;
                i = end;
            }
        }
    }
}

// The record of a response whose content was read.
fn response_found(heads: HeadsRead, stated: Option<usize>, content: ContentRead) -> Record
    ensures { result ≡ response_found heads stated content }
{
    let counts = Counts {
        headers: heads.kept,
        chunks: content.chunks,
        content: content.total,
        trailers: content.trailers,
        length: content.end,
        stated,
        long: 0,
        closes: heads.notes.closes,
    };
    response_record(heads.heads, heads.status, counts)
}

// What stands behind a response's heads: the length rule of the final one, then the content.
fn after_final(
    t: &ClassTable,
    s: &[u8],
    told: Told,
    heads: HeadsRead,
    chunks: &mut [u32],
    trailers: &mut [u32],
) -> Outcome
    requires { (heads.end ≤ length s.now) × (heads.end ≤ head_most) × (chunks_room ≤ length chunks.old) × (section_room ≤ length trailers.old) }
    ensures { FinalRead (response_call told (length s.now)) s.now heads chunks.old chunks.new trailers.old trailers.new result }
{
    let framing = heads.notes.framing;
    let ending = ending_of(told, s.len());
    let body = response_body(told, ending, heads.status as usize, framing, heads.end)?;
    let content = read_content(t, s, heads.end, body, chunks, trailers)?;
    let stated = stated_in(told, heads.status as usize, framing);
    Ok(response_found(heads, stated, content))
}

// The first response of s, as told: its outcome, and the ranges of an accepted one in the lent space.
pub fn response_in(
    t: &ClassTable,
    s: &[u8],
    told: Told,
    headers: &mut [u32],
    informational: &mut [u32],
    chunks: &mut [u32],
    trailers: &mut [u32],
) -> Outcome
    requires { (heads_room ≤ length headers.old) × (informational_room ≤ length informational.old)
        × (chunks_room ≤ length chunks.old) × (section_room ≤ length trailers.old) }
    ensures { Responded (read_response told s.now)
        headers.old headers.new informational.old informational.new
        chunks.old chunks.new trailers.old trailers.new result }
{
    let heads = read_heads(t, s, headers, informational)?;
    after_final(t, s, told, heads, chunks, trailers)
}

// The first response of a stream, as told: its answer by value.
pub fn read_response(input: &[u8], told: Told) -> Reading
    ensures { result ≡ reading_of (read_response told input.now) }
{
    let t = ClassTable::new();
    let mut informational = [0u32; 8];
    let mut headers = [0u32; 1280];
    let mut chunks = [0u32; 512];
    let mut trailers = [0u32; 256];
    let o = response_in(
        &t,
        input,
        told,
        &mut headers,
        &mut informational,
        &mut chunks,
        &mut trailers,
    );
    reading(o, informational, headers, trailers, chunks)
}
