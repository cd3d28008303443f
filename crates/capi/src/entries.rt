// The entries.
ghost use Rattle.std.specs.Prelude.{◌≡◌, ◌+◌, ◌*◌, ◌≤◌, ◌<◌, length};
ghost use Rattle.octets.specs.Limits.{lines_most, informational_most};
ghost use Rattle.ranges.specs.Ranges.{places_end};
ghost use Rattle.binary.specs.Read.{read_binary};
ghost use Rattle.http1_lines.specs.Read.{read_request, read_response};
ghost use Rattle.messages.specs.Told.{plain, answering, closing, in_edition};
ghost use Rattle.messages.specs.Room.{section_room, heads_room, informational_room, chunks_room};
ghost use Rattle.output.specs.Reply.{writes};
ghost use Rattle.listing.specs.Listing.{listing_of};
ghost use Rattle.capi.specs.Entries.{Entered, EntryServed, no_heads, heads_fields};

use crate::numbers_out::give_message;
use crate::written::give_written;
use binary_reader::whole::binary_in;
use http1_reader::request::request_in;
use http1_reader::response::response_in;
use listing::listing;
use messages::{Stop, Told};
use octets::{ClassTable, Refusal};

// The request reader's answer, through working space for its ranges.
fn enter_request(
    t: &ClassTable,
    input: &[u8],
    told: Told,
    ranges: &mut [u32],
    place: &mut usize,
    headers: &mut [u32],
    chunks: &mut [u32],
    trailers: &mut [u32],
) -> u32
    requires { (section_room ≤ length headers.old)
        × (chunks_room ≤ length chunks.old) × (section_room ≤ length trailers.old) }
    ensures { Entered (read_request told input.now) (length input.now)
        ranges.old ranges.new place.new result }
{
    let o = request_in(t, input, told, headers, chunks, trailers);
    match o {
        Err(Stop::More) => {
            *place = input.len();
            return Refusal::MoreNeeded as u32;
        }
        Err(Stop::Refused(e)) => {
            *place = e.place;
            return e.number;
        }
        Ok(r) => {
            let none = [0u32; 8];
            let fields = r.headers;
            return give_message(ranges, place, r, fields, &none, headers, chunks, trailers);
        }
    }
}

// The first HTTP/1.1 request of a stream, under the scheme told.
#[unsafe(no_mangle)]
pub extern "C" fn ospirnar_read_request(
    input: &[u8],
    scheme: u32,
    ranges: &mut [u32],
    place: &mut usize,
) -> u32
    ensures { Entered (read_request (plain scheme) input.now) (length input.now)
        ranges.old ranges.new place.new result }
{
    let t = ClassTable::new();
    let mut headers = [0u32; 256];
    let mut chunks = [0u32; 512];
    let mut trailers = [0u32; 256];
    enter_request(
        &t,
        input,
        Told {
            scheme,
            head: 0,
            closed: 0,
            former: 0,
            edition: 0,
        },
        ranges,
        place,
        &mut headers,
        &mut chunks,
        &mut trailers,
    )
}

fn wide(n: u32) -> usize
    ensures { (result ≡ n) × (result < places_end) }
{
    n as usize
}

// How many fields the informational heads have.
fn heads_fields(heads: &[u32]) -> usize
    requires { informational_room ≤ length heads.now }
    ensures { (result ≡ heads_fields heads.now) × (result < places_end * informational_most) }
{
    let a = wide(heads[1]);
    let b = wide(heads[3]);
    let c = wide(heads[5]);
    let d = wide(heads[7]);
    a + b + c + d
}

// The response reader's answer, through working space for its ranges.
fn enter_response(
    t: &ClassTable,
    input: &[u8],
    told: Told,
    ranges: &mut [u32],
    place: &mut usize,
    headers: &mut [u32],
    heads: &mut [u32],
    chunks: &mut [u32],
    trailers: &mut [u32],
) -> u32
    requires { (heads_room ≤ length headers.old)
        × (informational_room ≤ length heads.old) × (chunks_room ≤ length chunks.old) × (section_room ≤ length trailers.old)
        × (heads.old ≡ no_heads) }
    ensures { Entered (read_response told input.now) (length input.now)
        ranges.old ranges.new place.new result }
{
    let o = response_in(t, input, told, headers, heads, chunks, trailers);
    match o {
        Err(Stop::More) => {
            *place = input.len();
            return Refusal::MoreNeeded as u32;
        }
        Err(Stop::Refused(e)) => {
            *place = e.place;
            return e.number;
        }
        Ok(r) => {
            let fields = all_fields(heads, r.headers);
            return give_message(ranges, place, r, fields, heads, headers, chunks, trailers);
        }
    }
}

// With the fields of the final head.
fn all_fields(heads: &[u32], fields: usize) -> usize
    requires { (informational_room ≤ length heads.now) × (fields ≤ lines_most) }
    ensures { result ≡ heads_fields heads.now + fields }
{
    heads_fields(heads) + fields
}

// The first HTTP/1.1 response of a stream, told whether it answers a HEAD and whether the connection has closed.
#[unsafe(no_mangle)]
pub extern "C" fn ospirnar_read_response(
    input: &[u8],
    head: u32,
    closed: u32,
    ranges: &mut [u32],
    place: &mut usize,
) -> u32
    ensures { Entered (read_response (closing closed (answering head (plain 0))) input.now) (length input.now)
        ranges.old ranges.new place.new result }
{
    let t = ClassTable::new();
    let mut headers = [0u32; 1280];
    let mut heads = [0u32; 8];
    let mut chunks = [0u32; 512];
    let mut trailers = [0u32; 256];
    enter_response(
        &t,
        input,
        Told {
            scheme: 0,
            head,
            closed,
            former: 0,
            edition: 0,
        },
        ranges,
        place,
        &mut headers,
        &mut heads,
        &mut chunks,
        &mut trailers,
    )
}

// The Binary reader's answer, through working space for its ranges.
fn enter_binary(
    t: &ClassTable,
    input: &[u8],
    told: Told,
    ranges: &mut [u32],
    place: &mut usize,
    headers: &mut [u32],
    heads: &mut [u32],
    chunks: &mut [u32],
    trailers: &mut [u32],
) -> u32
    requires { (heads_room ≤ length headers.old)
        × (informational_room ≤ length heads.old) × (chunks_room ≤ length chunks.old) × (section_room ≤ length trailers.old)
        × (heads.old ≡ no_heads) }
    ensures { Entered (read_binary told input.now) (length input.now)
        ranges.old ranges.new place.new result }
{
    let o = binary_in(t, input, told, headers, heads, chunks, trailers);
    match o {
        Err(Stop::More) => {
            *place = input.len();
            return Refusal::MoreNeeded as u32;
        }
        Err(Stop::Refused(e)) => {
            *place = e.place;
            return e.number;
        }
        Ok(r) => {
            let fields = all_fields(heads, r.headers);
            return give_message(ranges, place, r, fields, heads, headers, chunks, trailers);
        }
    }
}

// One Binary message, told whether it answers a HEAD and its edition: the whole input.
#[unsafe(no_mangle)]
pub extern "C" fn ospirnar_read_binary(
    input: &[u8],
    head: u32,
    edition: u32,
    ranges: &mut [u32],
    place: &mut usize,
) -> u32
    ensures { Entered (read_binary (in_edition edition (answering head (plain 0))) input.now) (length input.now)
        ranges.old ranges.new place.new result }
{
    let t = ClassTable::new();
    let mut headers = [0u32; 1280];
    let mut heads = [0u32; 8];
    let mut chunks = [0u32; 512];
    let mut trailers = [0u32; 256];
    enter_binary(
        &t,
        input,
        Told {
            scheme: 0,
            head,
            closed: 0,
            former: 0,
            edition,
        },
        ranges,
        place,
        &mut headers,
        &mut heads,
        &mut chunks,
        &mut trailers,
    )
}

// The listing of an HTTP/1.1 request stream under http.
#[unsafe(no_mangle)]
pub extern "C" fn ospirnar_listing(input: &[u8], output: &mut [u8], place: &mut usize) -> u32
    ensures { EntryServed (writes (listing_of input.now))
        output.old output.new place.new result }
{
    let w = listing(input, output);
    give_written(w, place)
}
