// Field lines and field sections, of known and of indeterminate length.
ghost use Rattle.std.specs.Prelude.{◌≡◌, cond, true, false, [], suc, ◌+◌, ◌*◌, ◌≤◌, ◌<◌, length, drop};
ghost use Rattle.octets.specs.Text.{is_empty};
ghost use Rattle.octets.specs.Limits.{lines_most};
ghost use Rattle.octets.specs.Refusals.{refusal_number};
ghost use Rattle.script.specs.Do.{piece};
ghost use Rattle.messages.specs.Control.{is_lower_name};
ghost use Rattle.ranges.specs.Ranges.{places_end};
ghost use Rattle.binary.specs.Reader.{cursor};
ghost use Rattle.binary.specs.Read.{is_line_value, judged_line, cut_number, cut_place, after_name_length, known_line, known_lines, section, header_section};
ghost use Rattle.messages.specs.Room.{section_room};
ghost use Rattle.binary_parts.specs.Section.{JudgedLine, Lined, Bodied, SectionGathered, Sectioned};

use crate::{LineRead, Section};
use binary::{Cursor, Form};
use messages::parts::{is_end_to_end, is_lower_name, is_trimmed_value, kind_of};
use messages::sections::{is_noted, no_notes, note};
use numbers::{Integer, read_int};
use octets::{ClassTable, Limits, Refusal, Refused};
use ranges::named::drop_named;
use ranges::{keep, store_connection};

// Why a line that is cut off is refused.
fn cut_number(form: Form) -> Refusal
    ensures { refusal_number result ≡ cut_number form }
{
    if form.known {
        Refusal::BadSection
    } else {
        Refusal::CutOff
    }
}

// The place of a value that is cut off: of the line at p, or of the value's part at q.
fn cut_place(form: Form, p: usize, q: usize) -> usize
    ensures { result ≡ cut_place form p q }
{
    if form.known { p } else { q }
}

// Whether the octets may be a value.
fn is_line_value(t: &ClassTable, form: Form, value: &[u8]) -> bool
    ensures { result ≡ is_line_value form value.now }
{
    is_trimmed_value(&t.masks, value) && (form.empty || value.len() != 0)
}

fn is_line(t: &ClassTable, form: Form, name: &[u8], value: &[u8]) -> bool
    ensures { result ≡ cond (is_lower_name name.now) (is_line_value form value.now) false }
{
    is_lower_name(&t.masks, name) && is_line_value(t, form, value)
}

// The line at the place p whose halves are in, the name at the place n and the value at the place v: judged and, where it is end-to-end, stored.
fn store_line(
    t: &ClassTable,
    p: usize,
    n: usize,
    name: &[u8],
    v: usize,
    value: &[u8],
    end: usize,
    form: Form,
    host: bool,
    kept: usize,
    out: &mut [u32],
    long: usize,
) -> Result<LineRead, Refused>
    requires { (n + length name.now < places_end) × (v + length value.now < places_end) × (kept * 4 + 4 ≤ length out.old) }
    ensures { JudgedLine (judged_line form p (piece n name.now) (piece v value.now)) end host kept long
        out.old out.new result }
{
    if !is_line(t, form, name, value) {
        return Err(Refusal::BadSyntax.at(p));
    }
    let kind = kind_of(name);
    let kept = keep(
        out,
        kept,
        is_end_to_end(kind, host),
        n as u32,
        name.len() as u32,
        v as u32,
        value.len() as u32,
    );
    Ok(LineRead {
        end,
        kept,
        kind,
        place: p,
        len: value.len(),
        long,
    })
}

// What stands behind the name length n of the line at the place p: `at` is counted in the part s, whose first octet is at the place a.
fn after_name_length(
    t: &ClassTable,
    s: &[u8],
    a: usize,
    p: usize,
    at: usize,
    n: usize,
    form: Form,
    host: bool,
    kept: usize,
    out: &mut [u32],
    long: usize,
) -> Result<LineRead, Refused>
    requires { (at ≤ length s.now) × (a + length s.now < places_end) × (kept * 4 + 4 ≤ length out.old) × (long ≤ a + at) }
    ensures { Lined s.now a (after_name_length form p n (cursor (a + at) long) (drop at s.now)) host kept
        out.old out.new result }
{
    let refusal = cut_number(form);
    if s.len() - at < n {
        return Err(refusal.at(p));
    }
    let m = at + n;
    let place = cut_place(form, p, a + m);
    let Some(
        Integer {
            value: len,
            next,
            long: l,
        },
    ) = read_int(s, m)
    else {
        return Err(refusal.at(place));
    };
    if s.len() - next < len {
        return Err(refusal.at(place));
    }
    let end = next + len;
    store_line(
        t,
        p,
        a + at,
        &s[at..m],
        a + next,
        &s[next..end],
        end,
        form,
        host,
        kept,
        out,
        long + l,
    )
}

// The line at the index `at` of a known-length section's body s, whose first octet is at the place a.
fn known_line(
    t: &ClassTable,
    s: &[u8],
    a: usize,
    at: usize,
    form: Form,
    host: bool,
    kept: usize,
    out: &mut [u32],
    long: usize,
) -> Result<LineRead, Refused>
    requires { (at ≤ length s.now) × (a + length s.now < places_end) × (kept * 4 + 4 ≤ length out.old) × (long ≤ a + at) }
    ensures { Lined s.now a (known_line form (cursor (a + at) long) (drop at s.now)) host kept out.old out.new result }
{
    let p = a + at;
    let Some(
        Integer {
            value: n,
            next,
            long: l,
        },
    ) = read_int(s, at)
    else {
        return Err(Refusal::BadSection.at(p));
    };
    if n == 0 {
        return Err(Refusal::BadSection.at(p));
    }
    after_name_length(t, s, a, p, next, n, form, host, kept, out, long + l)
}

// The lines that fill the body s of a known-length section, whose first octet is at the place a: at most 64 of them. Kept fields are stored behind
// the `base` fields that stand in `out`, and start and length of Connection values at the end of the section's room.
fn known_lines(
    t: &ClassTable,
    s: &[u8],
    a: usize,
    form: Form,
    host: bool,
    base: usize,
    out: &mut [u32],
    before: usize,
) -> Result<Section, Refused>
    requires { (a + length s.now < places_end) × (base * 4 + section_room ≤ length out.old) × (before ≤ a) }
    ensures { Bodied (known_lines form (suc lines_most) [] (cursor a before) s.now) (a + length s.now) host base
        out.old out.new result }
{
    let mut i: usize = 0;
    let mut lines: usize = 0;
    let mut count = base;
    let mut notes = no_notes();
    let mut longs = before;
    loop {
        if s.len() <= i {
            return Ok(Section {
                end: Cursor {
                    at: a + s.len(),
                    long: longs,
                },
                kept: count,
                notes,
            });
        }
        if !Limits::fits(lines + 1, Limits::LINES) {
            return Err(Refusal::TooLarge.at(a + i));
        }
        let line = known_line(t, s, a, i, form, host, count, out, longs)?;
        count = line.kept;
        lines += 1;
        longs = line.long;
        i = line.end;
        if is_noted(line.kind) {
            let v = line.end - line.len;
            store_connection(
                out,
                base,
                notes.connections,
                line.kind,
                (a + v) as u32,
                line.len as u32,
            );
            notes = note(notes, line.kind, line.place, a + v, &s[v..line.end], false);
        }
    }
}

// A known-length section: its length, then its body, which is handed on by itself.
fn known_section(
    t: &ClassTable,
    s: &[u8],
    from: Cursor,
    form: Form,
    host: bool,
    base: usize,
    out: &mut [u32],
) -> Result<Section, Refused>
    requires { (from.at ≤ length s.now) × (length s.now < places_end) × (base * 4 + section_room ≤ length out.old) × (form.known ≡ true) × (from.long ≤ from.at) }
    ensures { SectionGathered s.now (section form from (drop from.at s.now)) host base out.old out.new result }
{
    let at = from.at;
    let Some(
        Integer {
            value: n,
            next,
            long,
        },
    ) = read_int(s, at)
    else {
        return Err(Refusal::CutOff.at(at));
    };
    if s.len() - next < n {
        return Err(Refusal::CutOff.at(at));
    }
    known_lines(
        t,
        &s[next..next + n],
        next,
        form,
        host,
        base,
        out,
        from.long + long,
    )
}

// An indeterminate section: at most 64 lines, up to a name length of zero.
fn open_section(
    t: &ClassTable,
    s: &[u8],
    from: Cursor,
    form: Form,
    host: bool,
    base: usize,
    out: &mut [u32],
) -> Result<Section, Refused>
    requires { (from.at ≤ length s.now) × (length s.now < places_end) × (base * 4 + section_room ≤ length out.old) × (form.known ≡ false) × (from.long ≤ from.at) }
    ensures { SectionGathered s.now (section form from (drop from.at s.now)) host base out.old out.new result }
{
    let mut i = from.at;
    let mut lines: usize = 0;
    let mut count = base;
    let mut notes = no_notes();
    let mut longs = from.long;
    loop {
        let Some(
            Integer {
                value: n,
                next,
                long: l,
            },
        ) = read_int(s, i)
        else {
            return Err(Refusal::CutOff.at(i));
        };
        let sum = longs + l;
        if n == 0 {
            return Ok(Section {
                end: Cursor {
                    at: next,
                    long: sum,
                },
                kept: count,
                notes,
            });
        }
        if !Limits::fits(lines + 1, Limits::LINES) {
            return Err(Refusal::TooLarge.at(i));
        }
        let line = after_name_length(t, s, 0, i, next, n, form, host, count, out, sum)?;
        count = line.kept;
        lines += 1;
        longs = line.long;
        i = line.end;
        if is_noted(line.kind) {
            let v = line.end - line.len;
            store_connection(
                out,
                base,
                notes.connections,
                line.kind,
                v as u32,
                line.len as u32,
            );
            notes = note(notes, line.kind, line.place, v, &s[v..line.end], false);
        }
    }
}

// The field section from `from` on, of known or of indeterminate length, with the fields that its Connection lines may name.
fn gather_section(
    t: &ClassTable,
    s: &[u8],
    from: Cursor,
    form: Form,
    host: bool,
    base: usize,
    out: &mut [u32],
) -> Result<Section, Refused>
    requires { (from.at ≤ length s.now) × (length s.now < places_end) × (base * 4 + section_room ≤ length out.old) × (from.long ≤ from.at) }
    ensures { SectionGathered s.now (section form from (drop from.at s.now)) host base out.old out.new result }
{
    if form.known {
        known_section(t, s, from, form, host, base, out)
    } else {
        open_section(t, s, from, form, host, base, out)
    }
}

// The field section from `from` on. Kept fields are stored behind the `base` fields that stand in `out`; `headers` says whether it is a header section, of which
// the fields that its Connection lines name are not kept.
pub fn read_section(
    t: &ClassTable,
    s: &[u8],
    from: Cursor,
    form: Form,
    headers: bool,
    host: bool,
    base: usize,
    out: &mut [u32],
) -> Result<Section, Refused>
    requires { (from.at ≤ length s.now) × (length s.now < places_end) × (base * 4 + section_room ≤ length out.old) × (from.long ≤ from.at) }
    ensures { Sectioned s.now (section form from (drop from.at s.now)) headers host base out.old out.new result }
{
    let Section { end, kept, notes } = gather_section(t, s, from, form, host, base, out)?;
    let left = drop_named(s, out, headers, base, kept, notes.connections);
    Ok(Section {
        end,
        kept: left,
        notes,
    })
}

// Whether the message ends at `from`, before a header section that it may go without.
fn is_headless(s: &[u8], from: usize, form: Form) -> bool
    ensures { result ≡ cond (is_empty (drop from s.now)) form.headless false }
{
    s.len() <= from && form.headless
}

// The header section from `from` on, or none where the message ends there and may.
pub fn header_section(
    t: &ClassTable,
    s: &[u8],
    from: Cursor,
    form: Form,
    host: bool,
    base: usize,
    out: &mut [u32],
) -> Result<Section, Refused>
    requires { (from.at ≤ length s.now) × (length s.now < places_end) × (base * 4 + section_room ≤ length out.old) × (from.long ≤ from.at) }
    ensures { Sectioned s.now (header_section form from (drop from.at s.now)) true host base out.old out.new result }
{
    if is_headless(s, from.at, form) {
        Ok(Section {
            end: from,
            kept: base,
            notes: no_notes(),
        })
    } else {
        read_section(t, s, from, form, true, host, base, out)
    }
}
