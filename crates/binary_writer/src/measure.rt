// How long a message is in Binary, by its numbers alone.
ghost use Rattle.std.specs.Prelude.{◌≡◌, ℕ, ◌+◌, ◌*◌, ◌≤◌, ◌<◌, List, length};
ghost use Rattle.numbers.specs.Integer.{integer_end, int_len};
ghost use Rattle.octets.specs.Limits.{lines_most};
ghost use Rattle.ranges.specs.Entries.{HeadsCounted, MessageWithin, path_size};
ghost use Rattle.binary_writer.specs.Sizes.{counted_size, entry_size, fields_size, section_size, stated_size, header_size, heads_size};
ghost use Rattle.binary_writer.specs.Sizes.{scheme_size, request_size, response_size, control_size, message_size};
ghost use Rattle.binary_writer.specs.Sizes.{count_most, scheme_most, entry_most, fields_most, section_most, stated_field_most, header_most, head_most, heads_most};
ghost use Rattle.binary_writer.specs.Sizes.{part_most, control_most};

use messages::{Part, PathPrefix, Record};
use numbers::{digit_count, int_len};
use ranges::{fields_before, number_at, path_size};

// So many octets with their count in front.
fn counted_size(n: usize) -> usize
    requires { n < integer_end }
    ensures { (result ≡ counted_size n) × (result ≤ n + count_most) }
{
    int_len(n) + n
}

// The field of the entry k.
fn entry_size(ranges: &[u32], k: usize) -> usize
    requires { k * 4 + 4 ≤ length ranges.now }
    ensures { (result ≡ entry_size ranges.now k) × (result ≤ entry_most) }
{
    let name = number_at(ranges, k * 4 + 1);
    let value = number_at(ranges, k * 4 + 3);
    counted_size(name) + counted_size(value)
}

// The fields of n entries from the entry k on.
pub(crate) fn fields_size(ranges: &[u32], k: usize, n: usize) -> usize
    requires { ((k + n) * 4 ≤ length ranges.now) × (n ≤ lines_most) }
    ensures { (result ≡ fields_size ranges.now k n) × (result ≤ fields_most) }
{
    let mut size = 0;
    for i in 0..n {
        size += entry_size(ranges, k + i);
    }
    size
}

// A section of them.
fn section_size(ranges: &[u32], k: usize, n: usize) -> usize
    requires { ((k + n) * 4 ≤ length ranges.now) × (n ≤ lines_most) }
    ensures { (result ≡ section_size ranges.now k n) × (result ≤ section_most) }
{
    let size = fields_size(ranges, k, n);
    counted_size(size)
}

// The field of a stated length.
pub(crate) fn stated_size(stated: Option<usize>) -> usize
    ensures { (result ≡ stated_size stated) × (result ≤ stated_field_most) }
{
    match stated {
        None => return 0,
        Some(n) => return 15 + counted_size(digit_count(n, 10)),
    }
}

// A final header section: that field, then the fields of n entries from the entry k on.
fn header_size(stated: Option<usize>, ranges: &[u32], k: usize, n: usize) -> usize
    requires { ((k + n) * 4 ≤ length ranges.now) × (n ≤ lines_most) }
    ensures { (result ≡ header_size stated ranges.now k n) × (result ≤ header_most) }
{
    let size = stated_size(stated) + fields_size(ranges, k, n);
    counted_size(size)
}

// The status and the section of an informational head.
fn head_size(status: usize, ranges: &[u32], k: usize, n: usize) -> usize
    requires { ((k + n) * 4 ≤ length ranges.now) × (n ≤ lines_most) × (status < integer_end) }
    ensures { (result ≡ int_len status + section_size ranges.now k n) × (result ≤ head_most) }
{
    int_len(status) + section_size(ranges, k, n)
}

// The first n informational heads.
fn heads_size(fields: &[u32], heads: &[u32], n: usize) -> usize
    requires { HeadsCounted fields.now heads.now n }
    ensures { (result ≡ heads_size fields.now heads.now 0 n) × (result ≤ heads_most) }
{
    let mut k = 0;
    let mut size = 0;
    for i in 0..n {
        let status = number_at(heads, i * 2);
        let count = number_at(heads, i * 2 + 1);
        size += head_size(status, fields, k, count);
        k += count;
    }
    size
}

// The name of a scheme with its count.
fn scheme_size(scheme: u32) -> usize
    ensures { (result ≡ scheme_size scheme) × (result ≤ scheme_most) }
{
    if scheme == 0 {
        return 5;
    }
    6
}

// A part of control data with its count.
fn part_size(p: Part) -> usize
    ensures { (result ≡ counted_size p.len) × (result ≤ part_most) }
{
    counted_size(p.len as usize)
}

// The control data of a request, with the framing indicator.
fn request_size(method: Part, scheme: u32, authority: Part, prefix: PathPrefix, path: Part) -> usize
    ensures { (result ≡ request_size method scheme authority (path_size prefix path)) × (result ≤ heads_most) }
{
    let size = counted_size(path_size(prefix, path));
    1 + part_size(method) + scheme_size(scheme) + part_size(authority) + size
}

// The control data of a response, with the framing indicator.
fn response_size(fields: &[u32], heads: &[u32], n: usize, status: u32) -> usize
    requires { HeadsCounted fields.now heads.now n }
    ensures { (result ≡ response_size fields.now heads.now n status) × (result ≤ control_most) }
{
    1 + heads_size(fields, heads, n) + int_len(status as usize)
}

// Framing indicator and control data of a message.
fn control_size(r: Record, fields: &[u32], heads: &[u32]) -> usize
    requires { HeadsCounted fields.now heads.now r.informational }
    ensures { (result ≡ control_size r.response r fields.now heads.now) × (result ≤ control_most) }
{
    if r.response {
        return response_size(fields, heads, r.informational, r.status);
    }
    let prefix = r.prefix;
    request_size(r.method, r.scheme, r.authority, prefix, r.path)
}

// A whole message.
pub(crate) fn message_size(r: Record, fields: &[u32], heads: &[u32], trailers: &[u32]) -> usize
    requires { (s : List ℕ) × (cs : List ℕ) × MessageWithin s r fields.now heads.now cs trailers.now }
    ensures { result ≡ message_size r fields.now heads.now trailers.now }
{
    let control = control_size(r, fields, heads);
    let k = fields_before(heads, r.informational);
    let stated = r.stated;
    let headers = header_size(stated, fields, k, r.headers);
    let content = counted_size(r.content);
    control + headers + content + section_size(trailers, 0, r.trailers)
}
