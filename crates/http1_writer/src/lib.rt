// Writing HTTP/1.1.
#![tactic(auto)]

mod sections; // sections.rt: field lines
mod lengths; // lengths.rt: the length line
mod heads; // heads.rt: start lines and heads
mod bodies; // bodies.rt: content and trailers
mod fitting; // fitting.rt: whether a message may be written

// The length line of a head: none, the length of the content, or that it is in chunks.
#[derive(Clone, Copy)]
pub enum LengthLine {
    Nothing,
    Length(usize),
    Chunked,
}

ghost use Rattle.std.specs.Prelude.{◌≡◌, ℕ, ◌≤◌};
ghost use Rattle.output.specs.Reply.{writes, Served};
ghost use Rattle.messages.specs.Message.{Message};
ghost use Rattle.ranges.specs.Ranges.{Held, HeldServed};
ghost use Rattle.ranges.specs.Entries.{meaning_in, MessageWithin};
ghost use Rattle.http1_writer.specs.Write.{to_http1};
ghost use Rattle.http1_writer.specs.Numbered.{message_text_in, head_size, head_bound};

use bodies::{body_size, put_body};
use fitting::{is_connected, sizes_fit};
use heads::{measure_head, put_head};
use lengths::length_line;
use messages::{Record, Told};
use octets::Refusal;
use output::Written;

// A message within the sizes, with this length line, whose heads are of so many octets; 13 at 0 where there is no room for it.
fn put_message(
    s: &[u8],
    r: Record,
    line: LengthLine,
    headers: &[u32],
    heads: &[u32],
    chunks: &[u32],
    trailers: &[u32],
    head: usize,
    out: &mut [u8],
) -> Written
    requires { MessageWithin s.now r headers.now heads.now chunks.now trailers.now
        × (head ≡ head_size r line headers.now heads.now) × (head ≤ head_bound) }
    ensures { Served
        (writes (message_text_in s.now r line headers.now heads.now chunks.now trailers.now))
        out.old out.new result }
{
    let size = head + body_size(r.content, trailers, r.trailers);
    if out.len() < size {
        return Err(Refusal::NoRoom.at(0));
    }
    let a = put_head(out, 0, s, r, line, headers, heads);
    let b = put_body(out, a, s, chunks, r.chunks, r.content, trailers, r.trailers);
    Ok(b)
}

// The message that the numbers name, on the connection told.
fn write_named(
    s: &[u8],
    told: Told,
    r: Record,
    headers: &[u32],
    heads: &[u32],
    chunks: &[u32],
    trailers: &[u32],
    out: &mut [u8],
) -> Written
    requires { MessageWithin s.now r headers.now heads.now chunks.now trailers.now }
    ensures { Served
        (to_http1 told (meaning_in s.now r headers.now heads.now chunks.now trailers.now))
        out.old out.new result }
{
    if is_connected(told, r) {
        let line = length_line(told, s, r);
        let head = measure_head(r, line, headers, heads);
        if sizes_fit(head, r, line, trailers) {
            return put_message(s, r, line, headers, heads, chunks, trailers, head, out);
        }
        return Err(Refusal::TooLarge.at(0));
    }
    Err(Refusal::OtherScheme.at(0))
}

// An accepted message, by its record and its ranges in the source that it was read from, as HTTP/1.1: 14 at 0 where a request's scheme is not the
// connection's, 8 at 0 where a written size is passed, 13 at 0 where there is no room; a refusal writes nothing.
pub fn write_message(
    s: &[u8],
    told: Told,
    r: Record,
    headers: &[u32],
    heads: &[u32],
    chunks: &[u32],
    trailers: &[u32],
    out: &mut [u8],
) -> Written
    requires { (n : ℕ) × (m : Message) × Held s.now n m r headers.now heads.now chunks.now trailers.now }
    ensures { HeldServed (to_http1 told) s.now r headers.now heads.now chunks.now
        trailers.now out.old out.new result }
{
    write_named(s, told, r, headers, heads, chunks, trailers, out)
}
