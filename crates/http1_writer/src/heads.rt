// Start lines, informational heads, and the head of a message.
ghost use Rattle.std.specs.Prelude.{◌≡◌, ◌++◌, ◌+◌, ◌≤◌, length};
ghost use Rattle.output.specs.Splice.{Put};
ghost use Rattle.ranges.specs.Entries.{fields_named, heads_in, part_in, path_in, path_size, PartWithin, FieldsWithin, HeadsWithin, HeadsCounted, HeadWithin, HeadCounted};
ghost use Rattle.http1_writer.specs.Write.{field_text, section_text, request_line, status_line, informational_text, host_field};
ghost use Rattle.http1_writer.specs.Numbered.{section_size, status_size, heads_size, request_size, host_size, lead_text_in, lead_size, head_text_in, head_size};
ghost use Rattle.http1_writer.specs.Numbered.{status_bound, heads_bound, request_bound, lead_bound, head_bound};

use crate::LengthLine;
use crate::lengths::{length_size, put_length};
use crate::sections::{put_section, section_size};
use messages::{Part, PathPrefix, Record};
use numbers::digit_count;
use output::{put_decimal, put_octet, put_part, put_text};
use ranges::{fields_before, number_at, path_size, put_path};

fn status_size(status: usize) -> usize
    ensures { (result ≡ status_size status) × (result ≤ status_bound) }
{
    digit_count(status, 10) + 12
}

fn put_status(out: &mut [u8], at: usize, status: usize) -> usize
    requires { at + status_size status ≤ length out.old }
    ensures { Put out.old at (status_line status) (status_size status) out.new result }
{
    let a = put_text(out, at, b"HTTP/1.1 ");
    let b = put_decimal(out, a, status);
    let d = put_octet(out, b, 32);
    put_text(out, d, b"\r\n")
}

// An informational head with n fields from the entry k on.
fn put_informational(
    out: &mut [u8],
    at: usize,
    s: &[u8],
    fields: &[u32],
    status: usize,
    k: usize,
    n: usize,
) -> usize
    requires { FieldsWithin (length s.now) fields.now k n × (at + (status_size status + section_size fields.now k n) ≤ length out.old) }
    ensures { Put out.old at
        (status_line status ++ section_text (fields_named s.now fields.now k n))
        (status_size status + section_size fields.now k n) out.new result }
{
    let a = put_status(out, at, status);
    put_section(out, a, s, fields, k, n)
}

// The first n informational heads.
fn put_heads(out: &mut [u8], at: usize, s: &[u8], fields: &[u32], heads: &[u32], n: usize) -> usize
    requires { HeadsWithin (length s.now) fields.now heads.now n × (at + heads_size fields.now heads.now 0 n ≤ length out.old) }
    ensures { Put out.old at
        (informational_text (heads_in s.now fields.now heads.now 0 n))
        (heads_size fields.now heads.now 0 n) out.new result }
{
    let mut k = 0;
    let mut a = at;
    for i in 0..n {
        let status = number_at(heads, i * 2);
        let count = number_at(heads, i * 2 + 1);
        a = put_informational(out, a, s, fields, status, k, count);
        k += count;
    }
    a
}

// How long they are.
fn heads_size(fields: &[u32], heads: &[u32], n: usize) -> usize
    requires { HeadsCounted fields.now heads.now n }
    ensures { (result ≡ heads_size fields.now heads.now 0 n) × (result ≤ heads_bound) }
{
    let mut k = 0;
    let mut size = 0;
    for i in 0..n {
        let status = number_at(heads, i * 2);
        let count = number_at(heads, i * 2 + 1);
        size += status_size(status) + section_size(fields, k, count);
        k += count;
    }
    size
}

fn put_request_line(
    out: &mut [u8],
    at: usize,
    s: &[u8],
    method: Part,
    prefix: PathPrefix,
    path: Part,
) -> usize
    requires { PartWithin (length s.now) method × PartWithin (length s.now) path × (at + request_size method (path_size prefix path) ≤ length out.old) }
    ensures { Put out.old at
        (request_line (part_in s.now method) (path_in s.now prefix path)) (request_size method (path_size prefix path)) out.new result }
{
    let a = put_part(out, at, s, method.start as usize, method.len as usize);
    let b = put_octet(out, a, 32);
    let d = put_path(out, b, s, prefix, path);
    let e = put_text(out, d, b" HTTP/1.1");
    put_text(out, e, b"\r\n")
}

// The host line.
fn put_host(out: &mut [u8], at: usize, s: &[u8], authority: Part) -> usize
    requires { PartWithin (length s.now) authority × (at + host_size authority ≤ length out.old) }
    ensures { Put out.old at (field_text (host_field (part_in s.now authority))) (host_size authority) out.new result }
{
    let a = put_text(out, at, b"host: ");
    let b = put_part(out, a, s, authority.start as usize, authority.len as usize);
    put_text(out, b, b"\r\n")
}

// What stands before the length line: informational heads and status line, or request line and host line.
fn put_lead(out: &mut [u8], at: usize, s: &[u8], r: Record, fields: &[u32], heads: &[u32]) -> usize
    requires { HeadWithin s.now r fields.now heads.now × (at + lead_size r fields.now heads.now ≤ length out.old) }
    ensures { Put out.old at
        (lead_text_in s.now r fields.now heads.now) (lead_size r fields.now heads.now)
        out.new result }
{
    if r.response {
        let a = put_heads(out, at, s, fields, heads, r.informational);
        return put_status(out, a, r.status as usize);
    }
    let method = r.method;
    let prefix = r.prefix;
    let path = r.path;
    let a = put_request_line(out, at, s, method, prefix, path);
    let authority = r.authority;
    put_host(out, a, s, authority)
}

fn request_size(method: Part, authority: Part, prefix: PathPrefix, path: Part) -> usize
    ensures { (result ≡ request_size method (path_size prefix path) + host_size authority) × (result ≤ request_bound) }
{
    let line = method.len as usize + path_size(prefix, path) + 12;
    line + authority.len as usize + 8
}

// How long it is.
fn lead_size(r: Record, fields: &[u32], heads: &[u32]) -> usize
    requires { HeadCounted r fields.now heads.now }
    ensures { (result ≡ lead_size r fields.now heads.now) × (result ≤ lead_bound) }
{
    if r.response {
        return heads_size(fields, heads, r.informational) + status_size(r.status as usize);
    }
    let method = r.method;
    let authority = r.authority;
    let prefix = r.prefix;
    let path = r.path;
    request_size(method, authority, prefix, path)
}

// All heads of a message, with this length line.
pub(crate) fn put_head(
    out: &mut [u8],
    at: usize,
    s: &[u8],
    r: Record,
    line: LengthLine,
    fields: &[u32],
    heads: &[u32],
) -> usize
    requires { HeadWithin s.now r fields.now heads.now × (at + head_size r line fields.now heads.now ≤ length out.old) }
    ensures { Put out.old at
        (head_text_in s.now r line fields.now heads.now) (head_size r line fields.now heads.now)
        out.new result }
{
    let k = fields_before(heads, r.informational);
    let a = put_lead(out, at, s, r, fields, heads);
    let b = put_length(out, a, line);
    put_section(out, b, s, fields, k, r.headers)
}

// How long they are.
pub(crate) fn measure_head(r: Record, line: LengthLine, fields: &[u32], heads: &[u32]) -> usize
    requires { HeadCounted r fields.now heads.now }
    ensures { (result ≡ head_size r line fields.now heads.now) × (result ≤ head_bound) }
{
    let k = fields_before(heads, r.informational);
    lead_size(r, fields, heads) + length_size(line) + section_size(fields, k, r.headers)
}
