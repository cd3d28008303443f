// The heads of a response.
ghost use Rattle.std.specs.Prelude.{suc, ◌+◌, ◌*◌, ◌≤◌, ◌<◌, length, drop};
ghost use Rattle.ranges.specs.Ranges.{AnyHeads, FewHeads, SoManyHeads};
ghost use Rattle.octets.specs.Limits.{informational_most};
ghost use Rattle.ranges.specs.Ranges.{places_end};
ghost use Rattle.binary.specs.Read.{after_final_status, after_informational_status, heads, response_message};
ghost use Rattle.messages.specs.Room.{section_room, heads_room, informational_room};
ghost use Rattle.binary_reader.specs.Heads.{FinalStatus, Headed, HeadsTaken};

use crate::{Head, HeadsRead};
use binary::{Cursor, Form};
use binary_parts::Section;
use binary_parts::lines::{header_section, read_section};
use messages::parts::{is_informational, status_verdict};
use messages::sections::nothing_stated;
use numbers::{Integer, read_int};
use octets::{ClassTable, Limits, Refusal, Refused};
use ranges::store;

// What stands behind an informational status that ends at `next`: its section, which states no length.
fn after_informational_status(
    t: &ClassTable,
    s: &[u8],
    status: u32,
    next: Cursor,
    form: Form,
    base: usize,
    headers: &mut [u32],
) -> Result<Head, Refused>
    requires { (next.at ≤ length s.now) × (length s.now < places_end) × (base * 4 + section_room ≤ length headers.old) × (next.long ≤ next.at) }
    ensures { Headed FewHeads (λ f is told. after_informational_status form (heads told form f) is status next (drop next.at s.now))
        form s.now base headers.old headers.new result }
{
    let Section { end, kept, notes } = read_section(t, s, next, form, true, true, base, headers)?;
    nothing_stated(notes.framing, end.at)?;
    Ok(Head::Informational { status, end, kept })
}

// What stands behind a final status that ends at `next`: its section.
fn after_final_status(
    t: &ClassTable,
    s: &[u8],
    status: u32,
    next: Cursor,
    form: Form,
    base: usize,
    headers: &mut [u32],
) -> Result<Head, Refused>
    requires { (next.at ≤ length s.now) × (length s.now < places_end) × (base * 4 + section_room ≤ length headers.old)
        × FinalStatus status × (next.long ≤ next.at) }
    ensures { Headed AnyHeads (λ f is told. after_final_status told form is status next (drop next.at s.now))
        form s.now base headers.old headers.new result }
{
    let Section { end, kept, notes } = header_section(t, s, next, form, true, base, headers)?;
    Ok(Head::Final {
        status,
        end,
        kept,
        notes,
    })
}

// The head from i on, behind `count` informational heads: kept fields are stored behind the `base` fields that stand in `headers`.
pub(crate) fn next_head(
    t: &ClassTable,
    s: &[u8],
    i: Cursor,
    form: Form,
    count: usize,
    base: usize,
    headers: &mut [u32],
) -> Result<Head, Refused>
    requires { (length s.now < places_end) × (base * 4 + section_room ≤ length headers.old) × (count ≤ informational_most) × (i.long ≤ i.at) }
    ensures { Headed (SoManyHeads count) (λ f is told. heads told form (suc f) is i (drop i.at s.now))
        form s.now base headers.old headers.new result }
{
    let at = i.at;
    let Some(Integer { value, next, long }) = read_int(s, at) else {
        return Err(Refusal::CutOff.at(at));
    };
    let behind = Cursor {
        at: next,
        long: i.long + long,
    };
    match status_verdict(value) {
        Err(refusal) => Err(refusal.at(at)),
        Ok(()) => {
            let status = value as u32;
            if !is_informational(value) {
                after_final_status(t, s, status, behind, form, base, headers)
            } else if Limits::fits(count + 1, Limits::INFORMATIONAL) {
                after_informational_status(t, s, status, behind, form, base, headers)
            } else {
                Err(Refusal::TooLarge.at(at))
            }
        }
    }
}

// The heads of a response from `from` on, up to the final one: kept fields are stored in `headers`, those of informational heads first, and status and
// number of kept fields of each informational head in `informational`.
pub(crate) fn read_heads(
    t: &ClassTable,
    s: &[u8],
    from: Cursor,
    form: Form,
    headers: &mut [u32],
    informational: &mut [u32],
) -> Result<HeadsRead, Refused>
    requires { (length s.now < places_end)
        × (heads_room ≤ length headers.old) × (informational_room ≤ length informational.old) × (from.long ≤ from.at) }
    ensures { HeadsTaken (λ told. response_message told form from (drop from.at s.now)) form s.now
        headers.old headers.new informational.old informational.new result }
{
    let mut i = from.at;
    let mut count: usize = 0;
    let mut base: usize = 0;
    let mut longs = from.long;
    loop {
        let here = Cursor { at: i, long: longs };
        match next_head(t, s, here, form, count, base, headers)? {
            Head::Final {
                status,
                end,
                kept,
                notes,
            } => return Ok(HeadsRead {
                status,
                end,
                count,
                kept: kept - base,
                notes,
            }),
            Head::Informational { status, end, kept } => {
                store(informational, count, [status, (kept - base) as u32]);
                base = kept;
                count += 1;
                i = end.at;
                longs = end.long;
            }
        }
    }
}
