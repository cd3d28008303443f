// Writing Binary HTTP (RFC 9292).
#![tactic(auto)]

mod measure; // measure.rt: sizes by numbers
mod put; // put.rt: the parts of a message

ghost use Rattle.std.specs.Prelude.{ℕ};
ghost use Rattle.messages.specs.Message.{Message};
ghost use Rattle.output.specs.Reply.{Served};
ghost use Rattle.ranges.specs.Ranges.{Held, HeldServed};
ghost use Rattle.ranges.specs.Entries.{meaning_in, MessageWithin};
ghost use Rattle.binary_writer.specs.Write.{to_binary};

use crate::measure::message_size;
use crate::put::put_message;
use messages::Record;
use octets::{Limits, Refusal};
use output::Written;

// The message that the numbers of a record and of ranges name, as Binary; 8 at 0 above the size of a Binary input, 13 at 0 where it does not fit.
fn write_within(
    s: &[u8],
    r: Record,
    headers: &[u32],
    heads: &[u32],
    chunks: &[u32],
    trailers: &[u32],
    out: &mut [u8],
) -> Written
    requires { MessageWithin s.now r headers.now heads.now chunks.now trailers.now }
    ensures { Served
        (to_binary (meaning_in s.now r headers.now heads.now chunks.now trailers.now))
        out.old out.new result }
{
    let n = message_size(r, headers, heads, trailers);
    if Limits::fits(n, Limits::BINARY) {
        if out.len() < n {
            return Err(Refusal::NoRoom.at(0));
        }
        return Ok(put_message(out, s, r, headers, heads, chunks, trailers));
    }
    Err(Refusal::TooLarge.at(0))
}

// An accepted message, of either form, as Binary. A refusal writes nothing.
pub fn write_message(
    s: &[u8],
    r: Record,
    headers: &[u32],
    heads: &[u32],
    chunks: &[u32],
    trailers: &[u32],
    out: &mut [u8],
) -> Written
    requires { (n : ℕ) × (m : Message) × Held s.now n m r headers.now heads.now chunks.now trailers.now }
    ensures { HeldServed to_binary s.now r headers.now heads.now chunks.now trailers.now
        out.old out.new result }
{
    write_within(s, r, headers, heads, chunks, trailers, out)
}
