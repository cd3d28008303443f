// Responses.
ghost use Rattle.std.specs.Prelude.{◌≡◌, ◌≤◌, ◌<◌, length, drop};
ghost use Rattle.binary.specs.Read.{response_message, message_answer};
ghost use Rattle.ranges.specs.Ranges.{places_end, Responded};
ghost use Rattle.messages.specs.Room.{section_room, heads_room, informational_room, chunks_room};
ghost use Rattle.binary_reader.specs.Responses.{FinalJudged, response_counted, FinalRead};

use crate::heads::read_heads;
use crate::rest::after_headers;
use crate::{HeadsRead, JudgedFinal, RestRead};
use binary::{Cursor, Form};
use messages::answers::response_record;
use messages::parts::ends_at_head;
use messages::sections::{bodyless_rule, is_clashing, stated_in};
use messages::{Counts, Framing, Outcome, Record, Told};
use octets::{ClassTable, Refusal, Refused};

// A final head that ends at `end`, by what is told and what it states.
fn judge_final(
    told: Told,
    status: u32,
    framing: Framing,
    end: usize,
) -> Result<JudgedFinal, Refused>
    ensures { FinalJudged told status framing end result }
{
    let n = status as usize;
    if ends_at_head(told, n) {
        bodyless_rule(told, n, framing, end)?;
        Ok(JudgedFinal {
            body: false,
            framing: Framing::Unstated, // the content that the head may speak of does not follow
            stated: stated_in(told, n, framing),
        })
    } else if is_clashing(framing) {
        Err(Refusal::BadLength.at(end))
    } else {
        Ok(JudgedFinal {
            body: true,
            framing,
            stated: None,
        })
    }
}

// The record of a response of n octets of which all was read: its heads, and what stands behind them.
fn response_counted(rest: RestRead, stated: Option<usize>, n: usize, heads: HeadsRead) -> Record
    ensures { result ≡ response_counted stated n heads rest }
{
    let counts = Counts {
        headers: heads.kept,
        chunks: rest.chunks,
        content: rest.total,
        trailers: rest.trailers,
        length: n,
        stated,
        long: rest.long,
        closes: heads.notes.closes,
    };
    response_record(heads.count, heads.status, counts)
}

// What stands behind the heads of a response.
fn after_final(
    t: &ClassTable,
    s: &[u8],
    told: Told,
    form: Form,
    heads: HeadsRead,
    chunks: &mut [u32],
    trailers: &mut [u32],
) -> Outcome
    requires { (heads.end.at ≤ length s.now) × (length s.now < places_end)
        × (chunks_room ≤ length chunks.old) × (section_room ≤ length trailers.old) × (heads.end.long ≤ heads.end.at) }
    ensures { FinalRead told s.now form heads chunks.old chunks.new trailers.old trailers.new result }
{
    let judged = judge_final(told, heads.status, heads.notes.framing, heads.end.at)?;
    let rest = after_headers(
        t,
        s,
        heads.end,
        form,
        judged.body,
        judged.framing,
        chunks,
        trailers,
    )?;
    Ok(response_counted(rest, judged.stated, s.len(), heads))
}

// The response from `from` on, behind its framing, as told: its outcome, and the ranges of an accepted one in the lent space.
pub(crate) fn response_in(
    t: &ClassTable,
    s: &[u8],
    told: Told,
    from: Cursor,
    form: Form,
    headers: &mut [u32],
    informational: &mut [u32],
    chunks: &mut [u32],
    trailers: &mut [u32],
) -> Outcome
    requires { (length s.now < places_end)
        × (heads_room ≤ length headers.old) × (informational_room ≤ length informational.old)
        × (chunks_room ≤ length chunks.old) × (section_room ≤ length trailers.old) × (from.long ≤ from.at) }
    ensures { Responded (message_answer (response_message told form from (drop from.at s.now)))
        headers.old headers.new informational.old informational.new
        chunks.old chunks.new trailers.old trailers.new result }
{
    let heads = read_heads(t, s, from, form, headers, informational)?;
    after_final(t, s, told, form, heads, chunks, trailers)
}
