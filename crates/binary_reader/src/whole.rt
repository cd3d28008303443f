// Whole messages, the framing indicator first.
ghost use Rattle.std.specs.Prelude.{◌≡◌, ◌≤◌, ◌<◌, length, drop};
ghost use Rattle.messages.specs.Answers.{reading_of};
ghost use Rattle.binary.specs.Read.{form_of, after_indicator, message_answer, read_sized, read_binary};
ghost use Rattle.ranges.specs.Ranges.{places_end, Responded};
ghost use Rattle.messages.specs.Room.{section_room, heads_room, informational_room, chunks_room};

use crate::request::request_in;
use crate::response::response_in;
use binary::{Cursor, Form};
use messages::call::is_edition;
use messages::{Outcome, Reading, Stop, Told};
use numbers::{Integer, read_int};
use octets::{ClassTable, Limits, Refusal};
use ranges::reading;

// What an edition allows, of messages of known or of indeterminate length.
fn form_of(edition: u32, known: bool) -> Form
    ensures { result ≡ form_of edition known }
{
    if edition == 0 {
        Form {
            known,
            empty: true,
            padded: true,
            headless: false,
        }
    } else {
        Form {
            known,
            empty: false,
            padded: false,
            headless: true,
        }
    }
}

// What stands behind the framing indicator, which ends at `from`: 0 a request and 1 a response, of known length; 2 and 3 the same of indeterminate length.
fn after_indicator(
    t: &ClassTable,
    s: &[u8],
    told: Told,
    indicator: usize,
    from: Cursor,
    headers: &mut [u32],
    informational: &mut [u32],
    chunks: &mut [u32],
    trailers: &mut [u32],
) -> Outcome
    requires { (length s.now < places_end)
        × (heads_room ≤ length headers.old) × (informational_room ≤ length informational.old)
        × (chunks_room ≤ length chunks.old) × (section_room ≤ length trailers.old) × (from.long ≤ from.at) }
    ensures { Responded (message_answer (after_indicator told indicator from (drop from.at s.now)))
        headers.old headers.new informational.old informational.new
        chunks.old chunks.new trailers.old trailers.new result }
{
    if indicator > 3 {
        return Err(Stop::Refused(Refusal::BadIndicator.at(0)));
    }
    let form = form_of(told.edition, indicator < 2);
    if indicator % 2 == 0 {
        request_in(t, s, from, form, headers, chunks, trailers)
    } else {
        response_in(
            t,
            s,
            told,
            from,
            form,
            headers,
            informational,
            chunks,
            trailers,
        )
    }
}

// The message that s is in an edition: its outcome, and the ranges of an accepted one in the lent space.
fn sized_in(
    t: &ClassTable,
    s: &[u8],
    told: Told,
    headers: &mut [u32],
    informational: &mut [u32],
    chunks: &mut [u32],
    trailers: &mut [u32],
) -> Outcome
    requires { (heads_room ≤ length headers.old) × (informational_room ≤ length informational.old)
        × (chunks_room ≤ length chunks.old) × (section_room ≤ length trailers.old) }
    ensures { Responded (read_sized told s.now)
        headers.old headers.new informational.old informational.new
        chunks.old chunks.new trailers.old trailers.new result }
{
    if !Limits::fits(s.len(), Limits::BINARY) {
        return Err(Stop::Refused(Refusal::TooLarge.at(0)));
    }
    let Some(Integer { value, next, long }) = read_int(s, 0) else {
        return Err(Stop::Refused(Refusal::CutOff.at(0)));
    };
    after_indicator(
        t,
        s,
        told,
        value,
        Cursor { at: next, long },
        headers,
        informational,
        chunks,
        trailers,
    )
}

// The message that s is, as told: its outcome, and the ranges of an accepted one in the lent space.
pub fn binary_in(
    t: &ClassTable,
    s: &[u8],
    told: Told,
    headers: &mut [u32],
    informational: &mut [u32],
    chunks: &mut [u32],
    trailers: &mut [u32],
) -> Outcome
    requires { (heads_room ≤ length headers.old) × (informational_room ≤ length informational.old)
        × (chunks_room ≤ length chunks.old) × (section_room ≤ length trailers.old) }
    ensures { Responded (read_binary told s.now)
        headers.old headers.new informational.old informational.new
        chunks.old chunks.new trailers.old trailers.new result }
{
    if is_edition(told.edition) {
        sized_in(t, s, told, headers, informational, chunks, trailers)
    } else {
        Err(Stop::Refused(Refusal::BadEdition.at(0)))
    }
}

// A message of Binary HTTP, as told: its answer by value.
pub fn read_binary(input: &[u8], told: Told) -> Reading
    ensures { result ≡ reading_of (read_binary told input.now) }
{
    let t = ClassTable::new();
    let mut informational = [0u32; 8];
    let mut headers = [0u32; 1280];
    let mut chunks = [0u32; 512];
    let mut trailers = [0u32; 256];
    let o = binary_in(
        &t,
        input,
        told,
        &mut headers,
        &mut informational,
        &mut chunks,
        &mut trailers,
    );
    reading(o, informational, headers, trailers, chunks)
}
