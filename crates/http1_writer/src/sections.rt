// Sections of field lines, by the entries of lent ranges.
ghost use Rattle.std.specs.Prelude.{◌≡◌, ◌+◌, ◌*◌, ◌≤◌, length};
ghost use Rattle.octets.specs.Limits.{lines_most};
ghost use Rattle.output.specs.Splice.{Put};
ghost use Rattle.ranges.specs.Entries.{field_named, fields_named, EntryWithin, FieldsWithin};
ghost use Rattle.http1_writer.specs.Write.{field_text, section_text};
ghost use Rattle.http1_writer.specs.Numbered.{line_size, section_size, section_bound};

use output::{put_lower, put_part, put_text};
use ranges::number_at;

// The field line of the entry k.
fn put_line(out: &mut [u8], at: usize, s: &[u8], fields: &[u32], k: usize) -> usize
    requires { (k * 4 + 4 ≤ length fields.now) × EntryWithin (length s.now) fields.now k × (at + line_size fields.now k ≤ length out.old) }
    ensures { Put out.old at
        (field_text (field_named s.now fields.now k)) (line_size fields.now k) out.new result }
{
    let i = k * 4;
    let a = put_lower(out, at, s, fields[i] as usize, fields[i + 1] as usize);
    let b = put_text(out, a, b": ");
    let d = put_part(out, b, s, fields[i + 2] as usize, fields[i + 3] as usize);
    put_text(out, d, b"\r\n")
}

// The lines of n entries from the entry k on, and the empty line.
pub(crate) fn put_section(
    out: &mut [u8],
    at: usize,
    s: &[u8],
    fields: &[u32],
    k: usize,
    n: usize,
) -> usize
    requires { FieldsWithin (length s.now) fields.now k n × (at + section_size fields.now k n ≤ length out.old) }
    ensures { Put out.old at
        (section_text (fields_named s.now fields.now k n)) (section_size fields.now k n) out.new result }
{
    let mut a = at;
    for i in 0..n {
        a = put_line(out, a, s, fields, k + i);
    }
    put_text(out, a, b"\r\n")
}

// How long they are.
pub(crate) fn section_size(fields: &[u32], k: usize, n: usize) -> usize
    requires { ((k + n) * 4 ≤ length fields.now) × (n ≤ lines_most) }
    ensures { (result ≡ section_size fields.now k n) × (result ≤ section_bound) }
{
    let mut size = 2;
    for i in 0..n {
        let j = (k + i) * 4;
        size += number_at(fields, j + 1) + number_at(fields, j + 3) + 4;
    }
    size
}
