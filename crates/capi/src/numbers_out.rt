// Numbers put into lent ranges.
ghost use Rattle.std.specs.Prelude.{◌≡◌, ◌++◌, ◌+◌, ◌*◌, ◌≤◌, length};
ghost use Rattle.output.specs.Splice.{part, Put};
ghost use Rattle.messages.specs.Room.{informational_room};
ghost use Rattle.ranges.specs.Ranges.{SmallRecord};
ghost use Rattle.capi.specs.Entries.{part_numbers, control_numbers, prefix_number, stated_numbers, record_numbers, start_numbers, list_numbers, Numbered};
ghost use Rattle.capi.specs.Entries.{control_count, stated_count, record_count, start_count, fields_most};

use messages::{Part, PathPrefix, Record};
use octets::Refusal;

// All numbers given, from `at` on in out. (One by one, as in output::copy_part.)
fn put_all(out: &mut [u32], at: usize, numbers: &[u32]) -> usize
    requires { at + length numbers.now ≤ length out.old }
    ensures { Put out.old at numbers.now (length numbers.now) out.new result }
{
    for i in 0..numbers.len() {
        out[at + i] = numbers[i];
    }
    at + numbers.len()
}

// The first `len` numbers of src, from `at` on in out.
fn put_numbers(out: &mut [u32], at: usize, src: &[u32], len: usize) -> usize
    requires len_in_bounds { at + len ≤ length out.old }
    requires len_in_bounds_2 { len ≤ length src.now }
    ensures { Put out.old at (part src.now 0 len) len out.new result }
{
    put_all(out, at, &src[..len])
}

fn put_part_numbers(out: &mut [u32], at: usize, p: Part) -> usize
    requires { at + 2 ≤ length out.old }
    ensures { Put out.old at (part_numbers p) 2 out.new result }
{
    put_all(out, at, &[p.start, p.len])
}

// Kind, scheme and the three parts of control data.
fn put_control(out: &mut [u32], r: Record) -> usize
    requires { control_count ≤ length out.old }
    ensures { Put out.old 0 (control_numbers r) control_count out.new result }
{
    let a = put_all(out, 0, &[u32::from(r.response), r.scheme]);
    let b = put_part_numbers(out, a, r.method);
    let c = put_part_numbers(out, b, r.authority);
    put_part_numbers(out, c, r.path)
}

// 0, 1 or 2.
fn prefix_number(prefix: PathPrefix) -> u32
    ensures { result ≡ prefix_number prefix }
{
    match prefix {
        PathPrefix::Nothing => 0,
        PathPrefix::Slash => 1,
        PathPrefix::Asterisk => 2,
    }
}

// What is put before the path, a stated length, the count of long integers, and whether the sender means to close.
fn put_stated(
    out: &mut [u32],
    at: usize,
    prefix: PathPrefix,
    stated: Option<usize>,
    long: u32,
    closes: u32,
) -> usize
    requires { at + stated_count ≤ length out.old }
    ensures { Put out.old at (stated_numbers (prefix_number prefix) stated long closes) stated_count out.new result }
{
    let before = prefix_number(prefix);
    match stated {
        None => put_all(out, at, &[before, 0, 0, 0, long, closes]),
        Some(n) => {
            let low = (n % 4294967296) as u32;
            let high = (n / 4294967296) as u32;
            put_all(out, at, &[before, 1, low, high, long, closes])
        }
    }
}

// The numbers of a record.
fn put_record(out: &mut [u32], r: Record) -> usize
    requires { (record_count ≤ length out.old) × SmallRecord r }
    ensures { Put out.old 0 (record_numbers r) record_count out.new result }
{
    let a = put_control(out, r);
    let counts = [
        r.status,
        r.informational as u32,
        r.headers as u32,
        r.chunks as u32,
        r.content as u32,
        r.trailers as u32,
    ];
    let b = put_all(out, a, &counts);
    put_stated(
        out,
        b,
        r.prefix,
        r.stated,
        r.long as u32,
        u32::from(r.closes),
    )
}

// The numbers of a record, and of its informational heads.
fn put_start(out: &mut [u32], r: Record, heads: &[u32]) -> usize
    requires { (start_count ≤ length out.old) × SmallRecord r × (informational_room ≤ length heads.now) }
    ensures { Put out.old 0 (start_numbers r heads.now) start_count out.new result }
{
    let a = put_record(out, r);
    put_numbers(out, a, heads, 8)
}

// The numbers of fields, chunks and trailers.
fn put_lists(
    out: &mut [u32],
    at: usize,
    headers: &[u32],
    h: usize,
    chunks: &[u32],
    c: usize,
    trailers: &[u32],
    k: usize,
) -> usize
    requires { (at + h + c + k ≤ length out.old) × (h ≤ length headers.now)
        × (c ≤ length chunks.now) × (k ≤ length trailers.now) }
    ensures { Put out.old at
        (list_numbers headers.now h chunks.now c trailers.now k) (h + c + k) out.new result }
{
    let a = put_numbers(out, at, headers, h);
    let b = put_numbers(out, a, chunks, c);
    put_numbers(out, b, trailers, k)
}

// All numbers of a message of which `fields` kept fields stand in `headers`: 0, or 13 where they do not fit.
pub(crate) fn give_message(
    ranges: &mut [u32],
    place: &mut usize,
    r: Record,
    fields: usize,
    heads: &[u32],
    headers: &[u32],
    chunks: &[u32],
    trailers: &[u32],
) -> u32
    requires { SmallRecord r × (fields ≤ fields_most) × (informational_room ≤ length heads.now) × (fields * 4 ≤ length headers.now)
        × (r.chunks * 2 ≤ length chunks.now) × (r.trailers * 4 ≤ length trailers.now) }
    ensures { Numbered
        (start_numbers r heads.now
        ++ list_numbers headers.now (fields * 4) chunks.now (r.chunks * 2) trailers.now (r.trailers * 4))
        r.length ranges.old ranges.new place.new result }
{
    let h = fields * 4;
    let c = r.chunks * 2;
    let k = r.trailers * 4;
    let n = 28 + h + c + k;
    if ranges.len() < n {
        *place = 0;
        return Refusal::NoRoom as u32;
    }
    let a = put_start(ranges, r, heads);
    put_lists(ranges, a, headers, h, chunks, c, trailers, k);
    *place = r.length;
    0
}
