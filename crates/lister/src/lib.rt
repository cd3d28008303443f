// Reads a stream to its end, up to the octet that makes it too large, and prints its listing.
#![tactic(auto)]

ghost use Rattle.std.specs.Prelude.{◌≡◌, ◌≤◌, length, OnOk, IfSome};
ghost use Rattle.std.specs.Io.KnownBytes.{Appends};
ghost use Rattle.output.specs.Reply.{writes, written_of, lent_after};
ghost use Rattle.listing.specs.Listing.{listing_of};
ghost use Rattle.lister.specs.Printed.{printed_of, printed};

use listing::listing;
use reading::read_full;
use std::io;
use std::io::{Read, Write};

// How many octets the listing of a stream takes, which stand in `out` then: none where it does not fit.
fn fill(stream: &[u8], out: &mut [u8]) -> usize
    ensures in_bounds { result ≤ length out.new }
    ensures value { result ≡ printed_of (written_of (writes (listing_of stream.now)) (length out.old)) }
    ensures out_after { out.new ≡ lent_after (writes (listing_of stream.now)) out.old }
{
    match listing(stream, out) {
        Ok(n) => n,
        Err(_) => 0,
    }
}

// From a reader to a writer.
pub fn go<R: Read, W: Write>(from: &mut R, to: &mut W) -> io::Result<()>
    ensures { OnOk result (IfSome (R.remaining from.old) (λ s. Appends (W.contents to.old) (W.contents to.new) (printed s))) }
{
    let mut stream = [0u8; 65537];
    let mut out = [0u8; 131072];
    let n = read_full(from, &mut stream)?;
    let k = fill(&stream[..n], &mut out);
    to.write_all(&out[..k])
}
