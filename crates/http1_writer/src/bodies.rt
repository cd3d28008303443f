// The body of a message: its content, in a chunk where trailers follow.
ghost use Rattle.std.specs.Prelude.{◌≡◌, ◌+◌, ◌*◌, ◌≤◌, length};
ghost use Rattle.octets.specs.Limits.{content_most, lines_most};
ghost use Rattle.output.specs.Splice.{Put};
ghost use Rattle.ranges.specs.Entries.{fields_named, content_in, FieldsWithin, ChunksWithin};
ghost use Rattle.http1_writer.specs.Write.{chunk_text, body_text};
ghost use Rattle.http1_writer.specs.Numbered.{chunk_size, body_size, chunk_bound, body_bound};

use crate::sections::{put_section, section_size};
use numbers::digit_count;
use output::{put_hexadecimal, put_octet, put_text};
use ranges::put_chunks;

// The content, of size octets, as one chunk; nothing where it is empty.
fn put_chunk(out: &mut [u8], at: usize, s: &[u8], chunks: &[u32], n: usize, size: usize) -> usize
    requires { ChunksWithin (length s.now) chunks.now n × (length (content_in s.now chunks.now n) ≡ size)
        × (at + chunk_size size ≤ length out.old) }
    ensures { Put out.old at (chunk_text (content_in s.now chunks.now n)) (chunk_size size) out.new result }
{
    if size == 0 {
        return at;
    }
    let a = put_hexadecimal(out, at, size);
    let b = put_text(out, a, b"\r\n");
    let d = put_chunks(out, b, s, chunks, n);
    put_text(out, d, b"\r\n")
}

// The body: n chunks of size octets together, and `count` trailer fields.
pub(crate) fn put_body(
    out: &mut [u8],
    at: usize,
    s: &[u8],
    chunks: &[u32],
    n: usize,
    size: usize,
    trailers: &[u32],
    count: usize,
) -> usize
    requires { ChunksWithin (length s.now) chunks.now n × (length (content_in s.now chunks.now n) ≡ size)
        × FieldsWithin (length s.now) trailers.now 0 count × (at + body_size size trailers.now count ≤ length out.old) }
    ensures { Put out.old at
        (body_text (content_in s.now chunks.now n) (fields_named s.now trailers.now 0 count))
        (body_size size trailers.now count) out.new result }
{
    if count == 0 {
        return put_chunks(out, at, s, chunks, n);
    }
    let a = put_chunk(out, at, s, chunks, n, size);
    let b = put_octet(out, a, 48);
    let d = put_text(out, b, b"\r\n");
    put_section(out, d, s, trailers, 0, count)
}

fn chunk_size(size: usize) -> usize
    requires { size ≤ content_most }
    ensures { (result ≡ chunk_size size) × (result ≤ chunk_bound) }
{
    if size == 0 {
        return 0;
    }
    digit_count(size, 16) + size + 4
}

// How long the body is.
pub(crate) fn body_size(size: usize, trailers: &[u32], count: usize) -> usize
    requires { (size ≤ content_most) × (count * 4 ≤ length trailers.now) × (count ≤ lines_most) }
    ensures { (result ≡ body_size size trailers.now count) × (result ≤ body_bound) }
{
    if count == 0 {
        return size;
    }
    chunk_size(size) + 3 + section_size(trailers, 0, count)
}
