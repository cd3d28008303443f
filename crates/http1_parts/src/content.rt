// Content by its length or in chunks, and the trailers behind the last chunk.
ghost use Rattle.std.specs.Prelude.{◌+◌, ◌-◌, ◌≤◌, ◌<◌, length, drop};
ghost use Rattle.octets.specs.Limits.{head_most, trailer_most, content_most};
ghost use Rattle.script.specs.Script.{run};
ghost use Rattle.messages.specs.declared.Body.TheVariants.{InChunks};
ghost use Rattle.messages.specs.Room.{section_room, chunks_room};
ghost use Rattle.http1_lines.specs.Read.{content};
ghost use Rattle.ranges.specs.Ranges.{places_end};
ghost use Rattle.http1_parts.specs.Content.{SizedWithin, Contented};
ghost use Rattle.http1_parts.specs.Chunk.{DataRead, Chunked, Trailed, SizedRead, UnmeasuredRead};

use crate::lines::{line_in, read_section};
use crate::{ChunkRead, ContentRead};
use http1_lines::lines::chunk_line;
use messages::sections::are_trailers;
use messages::{Body, Span, Stop};
use octets::{ClassTable, Limits, Refusal};
use ranges::store;

// The trailer section from `from` on, behind `count` chunks of `total` octets.
fn read_trailers(
    t: &ClassTable,
    s: &[u8],
    from: usize,
    count: usize,
    total: usize,
    out: &mut [u32],
) -> Result<ContentRead, Stop>
    requires { (from ≤ length s.now) × (from + trailer_most < places_end) × (section_room ≤ length out.old) }
    ensures { Trailed s.now from count total out.old out.new result }
{
    let section = read_section(t, s, from, Limits::TRAILER, false, 0, out)?;
    if are_trailers(section.notes) {
        return Ok(ContentRead {
            end: section.end,
            chunks: count,
            total,
            trailers: section.kept,
        });
    }
    Err(Stop::Refused(Refusal::BadLength.at(section.end)))
}

// The data of a chunk of len octets from `start` on, behind which CR LF stands.
fn chunk_data(s: &[u8], start: usize, len: usize) -> Result<Span, Stop>
    requires { (start ≤ length s.now) × (len ≤ content_most) }
    ensures { DataRead s.now start len result }
{
    if s.len() - start < len + 2 {
        return Err(Stop::More);
    }
    let e = start + len;
    if s[e] == b'\r' {
        if s[e + 1] == b'\n' {
            return Ok(Span { start, len });
        }
    }
    Err(Stop::Refused(Refusal::BadSyntax.at(e)))
}

// The chunk whose line starts at i, behind `count` chunks of `total` octets.
fn next_chunk(
    t: &ClassTable,
    s: &[u8],
    i: usize,
    count: usize,
    total: usize,
) -> Result<ChunkRead, Stop>
    requires { (i ≤ length s.now) × (total ≤ content_most) }
    ensures { Chunked s.now i count total result }
{
    let next = line_in(s, i, Limits::CHUNK_LINE)?;
    let e = next - 2;
    match chunk_line(&t.masks, &s[i..e]) {
        None => Err(Stop::Refused(Refusal::BadSyntax.at(i))),
        Some(size) => {
            if size == 0 {
                return Ok(ChunkRead::Last { end: next });
            }
            if Limits::is_full(count, Limits::CHUNKS) {
                return Err(Stop::Refused(Refusal::TooLarge.at(i)));
            }
            if Limits::fits(total + size, Limits::CONTENT) {
                let data = chunk_data(s, next, size)?;
                return Ok(ChunkRead::Next(data));
            }
            Err(Stop::Refused(Refusal::TooLarge.at(i)))
        }
    }
}

// Chunks from `from` on, up to the trailers behind the last.
fn read_chunks(
    t: &ClassTable,
    s: &[u8],
    from: usize,
    chunks: &mut [u32],
    trailers: &mut [u32],
) -> Result<ContentRead, Stop>
    requires { (from ≤ length s.now) × (from ≤ head_most) × (chunks_room ≤ length chunks.old) × (section_room ≤ length trailers.old) }
    ensures { Contented (run (content InChunks) from (drop from s.now))
        chunks.old chunks.new trailers.old trailers.new result }
{
    let mut i = from;
    let mut count: usize = 0;
    let mut total: usize = 0;
    loop {
        match next_chunk(t, s, i, count, total)? {
            ChunkRead::Last { end } => return read_trailers(t, s, end, count, total, trailers),
            ChunkRead::Next(data) => {
                store(chunks, count, [data.start as u32, data.len as u32]);
                count += 1;
                total += data.len;
                i = data.start + (data.len + 2);
            }
        }
    }
}

// Content of n octets from `from` on: one chunk, or none.
fn read_sized(s: &[u8], from: usize, n: usize, chunks: &mut [u32]) -> Result<ContentRead, Stop>
    requires { (from ≤ length s.now) × (from ≤ head_most) × (n ≤ content_most) × (chunks_room ≤ length chunks.old) }
    ensures { SizedRead s.now from n chunks.old chunks.new result }
{
    if s.len() - from < n {
        return Err(Stop::More);
    }
    let end = from + n;
    if n == 0 {
        return Ok(ContentRead {
            end,
            chunks: 0,
            total: 0,
            trailers: 0,
        });
    }
    store(chunks, 0, [from as u32, n as u32]);
    Ok(ContentRead {
        end,
        chunks: 1,
        total: n,
        trailers: 0,
    })
}

// Content from `from` on, up to an end of the stream that has not come: more octets are needed, until they are too many.
fn read_unmeasured(s: &[u8], from: usize) -> Result<ContentRead, Stop>
    requires { from ≤ length s.now }
    ensures { UnmeasuredRead s.now from result }
{
    if s.len() - from <= Limits::CONTENT {
        return Err(Stop::More);
    }
    Err(Stop::Refused(Refusal::TooLarge.at(from)))
}

// The content from `from` on, as the head says it is to be read.
pub fn read_content(
    t: &ClassTable,
    s: &[u8],
    from: usize,
    body: Body,
    chunks: &mut [u32],
    trailers: &mut [u32],
) -> Result<ContentRead, Stop>
    requires { (from ≤ length s.now) × (from ≤ head_most) × SizedWithin body
        × (chunks_room ≤ length chunks.old) × (section_room ≤ length trailers.old) }
    ensures { Contented (run (content body) from (drop from s.now))
        chunks.old chunks.new trailers.old trailers.new result }
{
    match body {
        Body::Sized(n) => read_sized(s, from, n, chunks),
        Body::InChunks => read_chunks(t, s, from, chunks, trailers),
        Body::UntilClosed => read_unmeasured(s, from),
    }
}
