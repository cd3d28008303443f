// Reads octets to their end, up to the one that makes them too many, and prints the line that says what is kept of them.
#![tactic(auto)]

ghost use Rattle.std.specs.Prelude.{◌≡◌, ◌≤◌, length, take, OnOk, IfSome};
ghost use Rattle.std.specs.Io.KnownBytes.{Appends};
ghost use Rattle.salvaging.specs.Line.{line_most, salvage_line};

use reading::read_full;
use salvaging::salvage_line;
use std::io;
use std::io::{Read, Write};

// The line of an input at the start of `out`, and how long it is.
fn fill(input: &[u8], out: &mut [u8]) -> usize
    requires { line_most ≤ length out.old }
    ensures in_bounds { result ≤ length out.new }
    ensures out_after { take result out.new ≡ salvage_line input.now }
{
    match salvage_line(input, out) {
        Ok(n) => n,
        Err(_) => 0,
    }
}

// From a reader to a writer.
pub fn go<R: Read, W: Write>(from: &mut R, to: &mut W) -> io::Result<()>
    ensures { OnOk result (IfSome (R.remaining from.old) (λ s. Appends (W.contents to.old) (W.contents to.new) (salvage_line s))) }
{
    let mut input = [0u8; 65537];
    let mut out = [0u8; 128];
    let n = read_full(from, &mut input)?;
    let k = fill(&input[..n], &mut out);
    to.write_all(&out[..k])
}
