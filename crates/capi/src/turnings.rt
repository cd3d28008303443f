// The turning entries: what is read of the one form is written in the other.
ghost use Rattle.messages.specs.Told.{plain, answering, closing, keeping, in_edition};
ghost use Rattle.http1_lines.specs.Read.{read_request, read_response};
ghost use Rattle.turn.specs.Turn.{request_to_binary, response_to_binary, binary_to_binary, binary_to_http1};
ghost use Rattle.capi.specs.Entries.{EntryServed, EntryTaken};

use crate::written::give_written;
use messages::Told;
use turning::from_binary::{binary_to_binary, binary_to_http1};
use turning::to_binary::{request_to_binary, response_to_binary};

// The first HTTP/1.1 request of a stream, under the scheme told, as Binary.
#[unsafe(no_mangle)]
pub extern "C" fn ospirnar_request_to_binary(
    input: &[u8],
    scheme: u32,
    output: &mut [u8],
    place: &mut usize,
    taken: &mut usize,
) -> u32
    ensures { EntryTaken (read_request (plain scheme) input.now) (request_to_binary (plain scheme) input.now)
        output.old output.new taken.new place.new result }
{
    let w = request_to_binary(
        input,
        Told {
            scheme,
            head: 0,
            closed: 0,
            former: 0,
            edition: 0,
        },
        output,
        taken,
    );
    give_written(w, place)
}

// The first HTTP/1.1 response of a stream, told whether it answers a HEAD and whether the connection has closed, as Binary.
#[unsafe(no_mangle)]
pub extern "C" fn ospirnar_response_to_binary(
    input: &[u8],
    head: u32,
    closed: u32,
    output: &mut [u8],
    place: &mut usize,
    taken: &mut usize,
) -> u32
    ensures { EntryTaken (read_response (closing closed (answering head (plain 0))) input.now)
        (response_to_binary (closing closed (answering head (plain 0))) input.now)
        output.old output.new taken.new place.new result }
{
    let w = response_to_binary(
        input,
        Told {
            scheme: 0,
            head,
            closed,
            former: 0,
            edition: 0,
        },
        output,
        taken,
    );
    give_written(w, place)
}

// A Binary message, told whether it answers a HEAD and its edition, anew as Binary.
#[unsafe(no_mangle)]
pub extern "C" fn ospirnar_binary_to_binary(
    input: &[u8],
    head: u32,
    edition: u32,
    output: &mut [u8],
    place: &mut usize,
) -> u32
    ensures { EntryServed (binary_to_binary (in_edition edition (answering head (plain 0))) input.now)
        output.old output.new place.new result }
{
    let w = binary_to_binary(
        input,
        Told {
            scheme: 0,
            head,
            closed: 0,
            former: 0,
            edition,
        },
        output,
    );
    give_written(w, place)
}

// A Binary message, told whether it answers a HEAD and its edition, as HTTP/1.1 on a connection of the scheme told, by the former rule on
// empty content or not.
#[unsafe(no_mangle)]
pub extern "C" fn ospirnar_binary_to_http1(
    input: &[u8],
    scheme: u32,
    head: u32,
    former: u32,
    edition: u32,
    output: &mut [u8],
    place: &mut usize,
) -> u32
    ensures { EntryServed (binary_to_http1 (in_edition edition (keeping former (answering head (plain scheme)))) input.now)
        output.old output.new place.new result }
{
    let w = binary_to_http1(
        input,
        Told {
            scheme,
            head,
            closed: 0,
            former,
            edition,
        },
        output,
    );
    give_written(w, place)
}
