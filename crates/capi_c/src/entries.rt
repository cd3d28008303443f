// The readers and the listing for C.
ghost use Rattle.std.specs.Prelude.{length};
ghost use Rattle.binary.specs.Read.{read_binary};
ghost use Rattle.http1_lines.specs.Read.{read_request, read_response};
ghost use Rattle.messages.specs.Told.{plain, answering, closing, in_edition};
ghost use Rattle.output.specs.Reply.{writes};
ghost use Rattle.listing.specs.Listing.{listing_of};
ghost use Rattle.capi.specs.Entries.{Entered, EntryServed};

// The first HTTP/1.1 request of a stream, under the scheme told.
#[unsafe(no_mangle)]
pub extern "C" fn ospirnar_read_request(
    input: &[u8],
    scheme: u32,
    ranges: &mut [u32],
    place: &mut usize,
) -> u32
    ensures { Entered (read_request (plain scheme) input.now) (length input.now)
        ranges.old ranges.new place.new result }
{
    capi::entries::ospirnar_read_request(input, scheme, ranges, place)
}

// The first HTTP/1.1 response of a stream, told whether it answers a HEAD and whether the connection has closed.
#[unsafe(no_mangle)]
pub extern "C" fn ospirnar_read_response(
    input: &[u8],
    head: u32,
    closed: u32,
    ranges: &mut [u32],
    place: &mut usize,
) -> u32
    ensures { Entered (read_response (closing closed (answering head (plain 0))) input.now) (length input.now)
        ranges.old ranges.new place.new result }
{
    capi::entries::ospirnar_read_response(input, head, closed, ranges, place)
}

// One Binary message, told whether it answers a HEAD and its edition: the whole input.
#[unsafe(no_mangle)]
pub extern "C" fn ospirnar_read_binary(
    input: &[u8],
    head: u32,
    edition: u32,
    ranges: &mut [u32],
    place: &mut usize,
) -> u32
    ensures { Entered (read_binary (in_edition edition (answering head (plain 0))) input.now) (length input.now)
        ranges.old ranges.new place.new result }
{
    capi::entries::ospirnar_read_binary(input, head, edition, ranges, place)
}

// The listing of an HTTP/1.1 request stream under http.
#[unsafe(no_mangle)]
pub extern "C" fn ospirnar_listing(input: &[u8], output: &mut [u8], place: &mut usize) -> u32
    ensures { EntryServed (writes (listing_of input.now))
        output.old output.new place.new result }
{
    capi::entries::ospirnar_listing(input, output, place)
}
