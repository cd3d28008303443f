// The parts of a message written as Binary, each at a place of the lent octets; the answer is the place behind it.
ghost use Rattle.std.specs.Prelude.{◌≡◌, map, ◌++◌, ◌+◌, ◌*◌, ◌≤◌, ◌<◌, length};
ghost use Rattle.octets.specs.Text.{lower_of};
ghost use Rattle.numbers.specs.Integer.{integer_end, int_len, int_bytes};
ghost use Rattle.output.specs.Splice.{part, Put};
ghost use Rattle.messages.specs.Meaning.{request, response, stated_fields};
ghost use Rattle.ranges.specs.Entries.{field_named, fields_named, content_in, heads_in, part_in, path_in, path_size, control_in, meaning_in};
ghost use Rattle.ranges.specs.Entries.{PartWithin, EntryWithin, FieldsWithin, HeadsWithin, ChunksWithin, MessageWithin, HeadWithin};
ghost use Rattle.binary_writer.specs.Write.{counted, field_bytes, fields_bytes, section_bytes, scheme_bytes, informational_bytes, control_bytes, binary_of};
ghost use Rattle.binary_writer.specs.Sizes.{counted_size, entry_size, fields_size, section_size, stated_size, header_size, heads_size};
ghost use Rattle.binary_writer.specs.Sizes.{scheme_size, request_size, response_size, control_size, message_size};

use crate::measure::{fields_size, stated_size};
use messages::{Part, PathPrefix, Record};
use numbers::digit_count;
use output::{put_decimal, put_int, put_lower, put_octet, put_part, put_text};
use ranges::{fields_before, number_at, path_size, put_chunks, put_path};

// So many octets of the source with their count in front.
fn put_counted(out: &mut [u8], at: usize, s: &[u8], from: usize, len: usize) -> usize
    requires { (len < integer_end) × (from + len ≤ length s.now) × (at + counted_size len ≤ length out.old) }
    ensures { Put out.old at (counted (part s.now from len)) (counted_size len) out.new result }
{
    let a = put_int(out, at, len);
    put_part(out, a, s, from, len)
}

// The same in lower case.
fn put_counted_lower(out: &mut [u8], at: usize, s: &[u8], from: usize, len: usize) -> usize
    requires { (len < integer_end) × (from + len ≤ length s.now) × (at + counted_size len ≤ length out.old) }
    ensures { Put out.old at (counted (map lower_of (part s.now from len))) (counted_size len) out.new result }
{
    let a = put_int(out, at, len);
    put_lower(out, a, s, from, len)
}

// The name of a scheme with its count: 0 is http, any other https.
fn put_scheme(out: &mut [u8], at: usize, scheme: u32) -> usize
    requires { at + scheme_size scheme ≤ length out.old }
    ensures { Put out.old at (counted (scheme_bytes scheme)) (scheme_size scheme) out.new result }
{
    if scheme == 0 {
        return put_text(out, at, b"\x04http");
    }
    put_text(out, at, b"\x05https")
}

// The field of the entry k.
fn put_entry(out: &mut [u8], at: usize, s: &[u8], ranges: &[u32], k: usize) -> usize
    requires { (k * 4 + 4 ≤ length ranges.now) × EntryWithin (length s.now) ranges.now k × (at + entry_size ranges.now k ≤ length out.old) }
    ensures { Put out.old at
        (field_bytes (field_named s.now ranges.now k)) (entry_size ranges.now k) out.new result }
{
    let name = number_at(ranges, k * 4);
    let nlen = number_at(ranges, k * 4 + 1);
    let value = number_at(ranges, k * 4 + 2);
    let vlen = number_at(ranges, k * 4 + 3);
    let a = put_counted_lower(out, at, s, name, nlen);
    put_counted(out, a, s, value, vlen)
}

// The content: its chunks one behind the other, with their count in front.
fn put_content(out: &mut [u8], at: usize, s: &[u8], chunks: &[u32], n: usize, len: usize) -> usize
    requires { ChunksWithin (length s.now) chunks.now n × (length (content_in s.now chunks.now n) ≡ len) × (len < integer_end)
        × (at + counted_size len ≤ length out.old) }
    ensures { Put out.old at (counted (content_in s.now chunks.now n)) (counted_size len) out.new result }
{
    let a = put_int(out, at, len);
    put_chunks(out, a, s, chunks, n)
}

// The fields of n entries from the entry k on.
fn put_fields(out: &mut [u8], at: usize, s: &[u8], ranges: &[u32], k: usize, n: usize) -> usize
    requires { FieldsWithin (length s.now) ranges.now k n × (at + fields_size ranges.now k n ≤ length out.old) }
    ensures { Put out.old at
        (fields_bytes (fields_named s.now ranges.now k n)) (fields_size ranges.now k n) out.new result }
{
    let mut a = at;
    for i in 0..n {
        a = put_entry(out, a, s, ranges, k + i);
    }
    a
}

// A section of them.
fn put_section(out: &mut [u8], at: usize, s: &[u8], ranges: &[u32], k: usize, n: usize) -> usize
    requires { FieldsWithin (length s.now) ranges.now k n × (at + section_size ranges.now k n ≤ length out.old) }
    ensures { Put out.old at
        (section_bytes (fields_named s.now ranges.now k n)) (section_size ranges.now k n) out.new result }
{
    let size = fields_size(ranges, k, n);
    let a = put_int(out, at, size);
    put_fields(out, a, s, ranges, k, n)
}

// The field of a stated length, where there is one.
fn put_stated(out: &mut [u8], at: usize, stated: Option<usize>) -> usize
    requires { at + stated_size stated ≤ length out.old }
    ensures { Put out.old at (fields_bytes (stated_fields stated)) (stated_size stated) out.new result }
{
    match stated {
        None => return at,
        Some(n) => {
            let a = put_text(out, at, b"\x0econtent-length");
            let b = put_int(out, a, digit_count(n, 10));
            return put_decimal(out, b, n);
        }
    }
}

// A final header section: that field, then the fields of n entries from the entry k on.
fn put_header(
    out: &mut [u8],
    at: usize,
    stated: Option<usize>,
    s: &[u8],
    ranges: &[u32],
    k: usize,
    n: usize,
) -> usize
    requires { FieldsWithin (length s.now) ranges.now k n × (at + header_size stated ranges.now k n ≤ length out.old) }
    ensures { Put out.old at
        (section_bytes (stated_fields stated ++ fields_named s.now ranges.now k n))
        (header_size stated ranges.now k n) out.new result }
{
    let size = stated_size(stated) + fields_size(ranges, k, n);
    let a = put_int(out, at, size);
    let b = put_stated(out, a, stated);
    put_fields(out, b, s, ranges, k, n)
}

// The status and the section of an informational head.
fn put_head(
    out: &mut [u8],
    at: usize,
    status: usize,
    s: &[u8],
    ranges: &[u32],
    k: usize,
    n: usize,
) -> usize
    requires { (status < integer_end) × FieldsWithin (length s.now) ranges.now k n
        × (at + (int_len status + section_size ranges.now k n) ≤ length out.old) }
    ensures { Put out.old at
        (int_bytes status ++ section_bytes (fields_named s.now ranges.now k n))
        (int_len status + section_size ranges.now k n) out.new result }
{
    let a = put_int(out, at, status);
    put_section(out, a, s, ranges, k, n)
}

// The first n informational heads.
fn put_heads(out: &mut [u8], at: usize, s: &[u8], fields: &[u32], heads: &[u32], n: usize) -> usize
    requires { HeadsWithin (length s.now) fields.now heads.now n × (at + heads_size fields.now heads.now 0 n ≤ length out.old) }
    ensures { Put out.old at
        (informational_bytes (heads_in s.now fields.now heads.now 0 n))
        (heads_size fields.now heads.now 0 n) out.new result }
{
    let mut k = 0;
    let mut a = at;
    for i in 0..n {
        let status = number_at(heads, i * 2);
        let count = number_at(heads, i * 2 + 1);
        a = put_head(out, a, status, s, fields, k, count);
        k += count;
    }
    a
}

// A part of control data with its count in front.
fn put_counted_part(out: &mut [u8], at: usize, s: &[u8], p: Part) -> usize
    requires { PartWithin (length s.now) p × (at + counted_size p.len ≤ length out.old) }
    ensures { Put out.old at (counted (part_in s.now p)) (counted_size p.len) out.new result }
{
    put_counted(out, at, s, p.start as usize, p.len as usize)
}

// A path with its count in front.
fn put_counted_path(out: &mut [u8], at: usize, s: &[u8], prefix: PathPrefix, path: Part) -> usize
    requires { PartWithin (length s.now) path × (at + counted_size (path_size prefix path) ≤ length out.old) }
    ensures { Put out.old at
        (counted (path_in s.now prefix path)) (counted_size (path_size prefix path)) out.new result }
{
    let a = put_int(out, at, path_size(prefix, path));
    put_path(out, a, s, prefix, path)
}

// Framing indicator and control data of a request, at the front.
fn put_request(
    out: &mut [u8],
    s: &[u8],
    method: Part,
    scheme: u32,
    authority: Part,
    prefix: PathPrefix,
    path: Part,
) -> usize
    requires { PartWithin (length s.now) method × PartWithin (length s.now) authority × PartWithin (length s.now) path
        × (request_size method scheme authority (path_size prefix path) ≤ length out.old) }
    ensures { Put out.old 0
        (control_bytes (request (part_in s.now method) scheme (part_in s.now authority) (path_in s.now prefix path)))
        (request_size method scheme authority (path_size prefix path)) out.new result }
{
    let a = put_octet(out, 0, 0);
    let b = put_counted_part(out, a, s, method);
    let d = put_scheme(out, b, scheme);
    let e = put_counted_part(out, d, s, authority);
    put_counted_path(out, e, s, prefix, path)
}

// Framing indicator and control data of a response, at the front.
fn put_response(
    out: &mut [u8],
    s: &[u8],
    fields: &[u32],
    heads: &[u32],
    n: usize,
    status: u32,
) -> usize
    requires { HeadsWithin (length s.now) fields.now heads.now n × (response_size fields.now heads.now n status ≤ length out.old) }
    ensures { Put out.old 0
        (control_bytes (response (heads_in s.now fields.now heads.now 0 n) status))
        (response_size fields.now heads.now n status) out.new result }
{
    let a = put_octet(out, 0, 1);
    let b = put_heads(out, a, s, fields, heads, n);
    put_int(out, b, status as usize)
}

// Framing indicator and control data, at the front.
fn put_control_data(out: &mut [u8], s: &[u8], r: Record, fields: &[u32], heads: &[u32]) -> usize
    requires { HeadWithin s.now r fields.now heads.now × (control_size r.response r fields.now heads.now ≤ length out.old) }
    ensures { Put out.old 0
        (control_bytes (control_in r.response s.now r fields.now heads.now))
        (control_size r.response r fields.now heads.now) out.new result }
{
    if r.response {
        return put_response(out, s, fields, heads, r.informational, r.status);
    }
    let prefix = r.prefix;
    put_request(out, s, r.method, r.scheme, r.authority, prefix, r.path)
}

// A whole message, at the front.
pub(crate) fn put_message(
    out: &mut [u8],
    s: &[u8],
    r: Record,
    fields: &[u32],
    heads: &[u32],
    chunks: &[u32],
    trailers: &[u32],
) -> usize
    requires { MessageWithin s.now r fields.now heads.now chunks.now trailers.now
        × (message_size r fields.now heads.now trailers.now ≤ length out.old) }
    ensures { Put out.old 0
        (binary_of (meaning_in s.now r fields.now heads.now chunks.now trailers.now))
        (message_size r fields.now heads.now trailers.now) out.new result }
{
    let k = fields_before(heads, r.informational);
    let a = put_control_data(out, s, r, fields, heads);
    let stated = r.stated;
    let b = put_header(out, a, stated, s, fields, k, r.headers);
    let d = put_content(out, b, s, chunks, r.chunks, r.content);
    put_section(out, d, s, trailers, 0, r.trailers)
}
