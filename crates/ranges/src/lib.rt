// Ranges of messages in lent arrays of numbers: what every reader stores and every writer finds.
#![tactic(auto)]

pub mod named; // named.rt: fields that Connection lines name are dropped

ghost use Rattle.std.specs.Prelude.{◌≡◌, [], ◌∷◌, cond, ◌+◌, ◌*◌, ◌≤◌, ◌<◌, length, get_or};
ghost use Rattle.octets.specs.Limits.{lines_most, informational_most};
ghost use Rattle.output.specs.Splice.{splice, Put};
ghost use Rattle.ranges.specs.Ranges.{places_end, StoredIf, CountsWithin, cleared_from, reading_from};
ghost use Rattle.ranges.specs.Entries.{fields_before, content_in, ChunksWithin, PartWithin, path_in, path_size, path_bound};
ghost use Rattle.ranges.specs.Connections.{connection_at};
ghost use Rattle.messages.specs.Message.{prefix_octets};
ghost use Rattle.messages.specs.Names.{same_kind};
ghost use Rattle.messages.specs.Room.{section_room};
ghost use Rattle.messages.specs.declared.Kind.TheVariants.{Connection};

use messages::answers::{more, refusal};
use messages::parts::prefix_len;
use messages::{Kind, Outcome, Part, PathPrefix, Ranges, Reading, Stop};
use octets::Limits;
use output::{put_octet, put_part};

// Numbers are stored as the entry k of as many: start and length of a chunk, status and number of kept fields of an informational head, and the like. (One by one:
// behind a copy of a slice a compiler doesn't see that readers only write these arrays, and clears them where nobody reads them.)
pub fn store<const N: usize>(out: &mut [u32], k: usize, numbers: [u32; N])
    requires { k * N + N ≤ length out.old }
    ensures { out.new ≡ splice out.old (k * N) numbers.entry }
{
    let at = k * N;
    let all: &[u32] = &numbers;
    for i in 0..all.len() {
        out[at + i] = all[i];
    }
}

// Whether a line is a Connection line.
#[tactic(auto, unfolding(messages::specs::Names::same_kind))]
fn is_connection(kind: Kind) -> bool
    ensures { result ≡ same_kind kind Connection }
{
    matches!(kind, Kind::Connection)
}

// A line of a section behind `base` fields, n Connection lines before it: where it is one too, start and length of its value are stored.
pub fn store_connection(out: &mut [u32], base: usize, n: usize, kind: Kind, start: u32, len: u32)
    requires { (n < lines_most) × (base * 4 + section_room ≤ length out.old) }
    ensures { out.new ≡ cond (same_kind kind Connection) (splice out.old (connection_at base n) (start ∷ len ∷ [])) out.old }
{
    if is_connection(kind) {
        let entry = (base + Limits::LINES) * 2 - (n + 1);
        return store(out, entry, [start, len]);
    }
}

// A field that is kept is stored as the entry k: start and length of its name, start and length of its value.
pub fn keep(
    out: &mut [u32],
    k: usize,
    keeps: bool,
    name: u32,
    nlen: u32,
    value: u32,
    vlen: u32,
) -> usize
    requires { k * 4 + 4 ≤ length out.old }
    ensures { StoredIf keeps k (name ∷ nlen ∷ value ∷ vlen ∷ []) out.old out.new result }
{
    if keeps {
        store(out, k, [name, nlen, value, vlen]);
        return k + 1;
    }
    k
}

// The numbers from the place `from` on become zero.
fn clear_from(out: &mut [u32], from: usize)
    ensures { out.new ≡ cleared_from from out.old }
{
    if from < out.len() {
        out[from..].fill(0);
    }
}

// The number at the place i of ranges.
pub fn number_at(ranges: &[u32], i: usize) -> usize
    requires { i < length ranges.now }
    ensures { (result ≡ get_or ranges.now i 0) × (result < places_end) }
{
    ranges[i] as usize
}

// How many fields the first n informational heads have: the fields of the head behind them begin at that entry.
pub fn fields_before(heads: &[u32], n: usize) -> usize
    requires { (n * 2 ≤ length heads.now) × (n ≤ informational_most) }
    ensures { result ≡ fields_before heads.now n }
{
    let mut k = 0;
    for i in 0..n {
        k += number_at(heads, i * 2 + 1);
    }
    k
}

// A reader's answer by value, from its outcome and the ranges that it left; only a message has ranges.
pub fn reading(
    o: Outcome,
    informational: [u32; 8],
    headers: [u32; 1280],
    trailers: [u32; 256],
    chunks: [u32; 512],
) -> Reading
    requires { CountsWithin o informational }
    ensures { result ≡ reading_from o informational headers trailers chunks }
{
    match o {
        Err(Stop::More) => return more(),
        Err(Stop::Refused(e)) => return refusal(e.number, e.place),
        Ok(record) => {
            let mut hs = headers;
            let mut ts = trailers;
            let fields = fields_before(&informational, record.informational) + record.headers;
            clear_from(&mut hs, fields * 4);
            clear_from(&mut ts, record.trailers * 4);
            let ranges = Ranges {
                informational,
                headers: hs,
                trailers: ts,
                chunks,
            };
            return Reading {
                outcome: Ok(record),
                ranges,
            };
        }
    }
}

// The octets of the first n chunks, one behind the other.
pub fn put_chunks(out: &mut [u8], at: usize, s: &[u8], chunks: &[u32], n: usize) -> usize
    requires { ChunksWithin (length s.now) chunks.now n × (at + length (content_in s.now chunks.now n) ≤ length out.old) }
    ensures { Put out.old at (content_in s.now chunks.now n)
        (length (content_in s.now chunks.now n)) out.new result }
{
    let mut a = at;
    for i in 0..n {
        let start = number_at(chunks, i * 2);
        let len = number_at(chunks, i * 2 + 1);
        a = put_part(out, a, s, start, len);
    }
    a
}

// What is put before a path.
fn put_prefix(out: &mut [u8], at: usize, prefix: PathPrefix) -> usize
    requires { at + length (prefix_octets prefix) ≤ length out.old }
    ensures { Put out.old at (prefix_octets prefix) (length (prefix_octets prefix)) out.new result }
{
    match prefix {
        PathPrefix::Nothing => return at,
        PathPrefix::Slash => return put_octet(out, at, b'/'),
        PathPrefix::Asterisk => return put_octet(out, at, b'*'),
    }
}

// The path of a request: what is put before it, and its own octets.
pub fn put_path(out: &mut [u8], at: usize, s: &[u8], prefix: PathPrefix, path: Part) -> usize
    requires { PartWithin (length s.now) path × (at + path_size prefix path ≤ length out.old) }
    ensures { Put out.old at (path_in s.now prefix path) (path_size prefix path) out.new result }
{
    let a = put_prefix(out, at, prefix);
    put_part(out, a, s, path.start as usize, path.len as usize)
}

// How long it is.
pub fn path_size(prefix: PathPrefix, path: Part) -> usize
    ensures { (result ≡ path_size prefix path) × (result ≤ path_bound) }
{
    prefix_len(prefix) + path.len as usize
}
