// Whether a message may be written: its scheme and its sizes.
ghost use Rattle.std.specs.Prelude.{◌≡◌, ◌+◌, ◌*◌, ◌≤◌, length};
ghost use Rattle.octets.specs.Limits.{lines_most};
ghost use Rattle.http1_writer.specs.Numbered.{head_count, trailers_fit, fits_in, connected_in};

use crate::LengthLine;
use crate::lengths::length_lines;
use crate::sections::section_size;
use messages::{Record, Told};
use octets::Limits;

// Whether the scheme of a request is the connection's.
pub(crate) fn is_connected(told: Told, r: Record) -> bool
    ensures { result ≡ connected_in told r }
{
    if r.response {
        return true;
    }
    r.scheme == told.scheme
}

// How many field lines the final head has.
fn head_count(r: Record, line: LengthLine) -> usize
    requires { r.headers ≤ lines_most }
    ensures { result ≡ head_count r line }
{
    if r.response {
        return length_lines(line) + r.headers;
    }
    1 + length_lines(line) + r.headers
}

fn trailers_fit(trailers: &[u32], count: usize) -> bool
    requires { (count * 4 ≤ length trailers.now) × (count ≤ lines_most) }
    ensures { result ≡ trailers_fit trailers.now count }
{
    if count == 0 {
        return true;
    }
    Limits::fits(section_size(trailers, 0, count), Limits::TRAILER)
}

// Whether heads of so many octets, their lines and the trailers are within the sizes.
pub(crate) fn sizes_fit(head: usize, r: Record, line: LengthLine, trailers: &[u32]) -> bool
    requires { (r.headers ≤ lines_most) × (r.trailers * 4 ≤ length trailers.now) × (r.trailers ≤ lines_most) }
    ensures { result ≡ fits_in head r line trailers.now }
{
    if Limits::fits(head, Limits::HEAD) {
        if Limits::fits(head_count(r, line), Limits::LINES) {
            return trailers_fit(trailers, r.trailers);
        }
        return false;
    }
    false
}
