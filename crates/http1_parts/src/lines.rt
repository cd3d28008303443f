// Field lines up to the empty line.
ghost use Rattle.std.specs.Prelude.{◌≡◌, true, false, ◌+◌, ◌-◌, ◌≤◌, ◌<◌, length, drop};
ghost use Rattle.octets.specs.Refusals.{refusal_number};
ghost use Rattle.script.specs.Script.{run, line_of};
ghost use Rattle.http1_lines.specs.Read.{section};
ghost use Rattle.ranges.specs.Ranges.{places_end};
ghost use Rattle.http1_parts.specs.Stops.{line_ended};
ghost use Rattle.http1_parts.specs.Section.{FieldRoom, SectionRoom, no_field, line_at, LineTaken, Sectioned};

use crate::{LineRead, Section};
use http1_lines::NextLine;
use http1_lines::lines::next_line;
use messages::Stop;
use messages::parts::{is_end_to_end, kind_of};
use messages::sections::{is_noted, no_notes, note};
use octets::{ClassTable, Limits, Refusal};
use ranges::named::drop_named;
use ranges::{keep, store_connection};
use script::{Line, line_end};

// Where the line from i on ends, behind its CR LF.
pub fn line_in(s: &[u8], i: usize, allowance: usize) -> Result<usize, Stop>
    ensures { result ≡ line_ended i (line_of (drop i s.now) allowance i 0) }
{
    match line_end(s, i, allowance) {
        Line::Ends(next) => Ok(next),
        Line::Bad => Err(Stop::Refused(Refusal::BadSyntax.at(i))),
        Line::Long => Err(Stop::Refused(Refusal::TooLarge.at(i))),
        Line::More => Err(Stop::More),
    }
}

// The field line whose name has `name` octets from i on and whose value has `len` octets from `value` on: stored where it is end-to-end.
fn take_line(
    s: &[u8],
    i: usize,
    name: usize,
    value: usize,
    len: usize,
    host: bool,
    kept: usize,
    out: &mut [u32],
) -> LineRead
    requires { (i + name ≤ length s.now) × (i + name < places_end) × (value + len < places_end) × (value + len ≤ length s.now)
        × FieldRoom kept out.old }
    ensures { LineTaken (line_at s.now i name value len) host kept out.old out.new result }
{
    let n = i + name;
    let kind = kind_of(&s[i..n]);
    let k = keep(
        out,
        kept,
        is_end_to_end(kind, host),
        i as u32,
        name as u32,
        value as u32,
        len as u32,
    );
    LineRead { kind, kept: k }
}

// The field lines from `from` on, up to the empty line: at most 64 of them and at most `allowance` octets. End-to-end fields are stored behind the `base`
// fields that stand in `out`, and where the values of Connection lines stand from the end of the section's room on, downwards.
pub fn read_section(
    t: &ClassTable,
    s: &[u8],
    from: usize,
    allowance: usize,
    host: bool,
    base: usize,
    out: &mut [u32],
) -> Result<Section, Stop>
    requires { (from ≤ length s.now) × (from + allowance < places_end) × SectionRoom base out.old }
    ensures { Sectioned (run (section allowance) from (drop from s.now)) false host base out.old out.new result }
{
    let end = from + allowance;
    let mut i = from;
    let mut lines: usize = 0;
    let mut kept = base;
    let mut notes = no_notes();
    loop {
        let l = next_line(&t.masks, s, i, end - i);
        match l {
            NextLine::More => return Err(Stop::More),
            NextLine::Bad => return Err(Stop::Refused(Refusal::BadSyntax.at(i))),
            NextLine::Long => return Err(Stop::Refused(Refusal::TooLarge.at(i))),
            NextLine::NoField => return Err(Stop::Refused(no_field(lines).at(i))),
            NextLine::Empty { next } => return Ok(Section {
                end: next,
                left: end - next,
                kept,
                notes,
            }),
            NextLine::Field {
                name,
                value,
                len,
                next,
            } => {
                if Limits::is_full(lines, Limits::LINES) {
                    return Err(Stop::Refused(Refusal::TooLarge.at(i)));
                }
                let v = i + value;
                let taken = take_line(s, i, name, v, len, host, kept, out);
                let kind = taken.kind;
                kept = taken.kept;
                lines += 1;
                if is_noted(kind) {
                    let w = v + len;
                    store_connection(out, base, notes.connections, kind, v as u32, len as u32);
                    notes = note(notes, kind, i, v, &s[v..w], true);
                }
                i = next;
            }
        }
    }
}

// The refusal of a line that is no field line, behind so many lines.
fn no_field(lines: usize) -> Refusal
    ensures { refusal_number result ≡ no_field lines }
{
    if Limits::is_full(lines, Limits::LINES) {
        return Refusal::TooLarge;
    }
    Refusal::BadSyntax
}

// A header section from `from` on: the same, without the fields that its Connection lines name.
pub fn read_headers(
    t: &ClassTable,
    s: &[u8],
    from: usize,
    allowance: usize,
    host: bool,
    base: usize,
    out: &mut [u32],
) -> Result<Section, Stop>
    requires { (from ≤ length s.now) × (from + allowance < places_end) × SectionRoom base out.old }
    ensures { Sectioned (run (section allowance) from (drop from s.now)) true host base out.old out.new result }
{
    let section = read_section(t, s, from, allowance, host, base, out)?;
    let kept = drop_named(s, out, true, base, section.kept, section.notes.connections);
    Ok(Section { kept, ..section })
}
