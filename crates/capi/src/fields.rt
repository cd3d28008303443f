// The field question's entries. C can't be handed a slice back, so start and length stand for the part of the message that the inner call's slice would be.
ghost use Rattle.messages.specs.Told.{plain, answering, closing, in_edition};
ghost use Rattle.turn.specs.Question.{request_question, response_question, binary_question};
ghost use Rattle.question.specs.Asking.{asked_of};
ghost use Rattle.capi.specs.Entries.{FieldEntered};

use messages::Told;
use question::{Asked, binary_found, request_found, response_found};

// 1 with start and length of the part that was found, or 0 with 0 and 0; number and place as they were answered.
fn give_field(
    a: Asked,
    number: &mut u32,
    place: &mut usize,
    start: &mut usize,
    len: &mut usize,
) -> u32
    ensures { FieldEntered a number.new place.new start.new len.new result }
{
    match a {
        Ok(Some(part)) => {
            *number = 0;
            *place = 0;
            *start = part.start;
            *len = part.len;
            1
        }
        Ok(None) => {
            *number = 0;
            *place = 0;
            *start = 0;
            *len = 0;
            0
        }
        Err(e) => {
            *number = e.number;
            *place = e.place;
            *start = 0;
            *len = 0;
            0
        }
    }
}

// The first kept header value of the name in the first HTTP/1.1 request of a stream, under the scheme told.
#[unsafe(no_mangle)]
pub extern "C" fn ospirnar_request_field(
    input: &[u8],
    scheme: u32,
    name: &[u8],
    number: &mut u32,
    place: &mut usize,
    start: &mut usize,
    len: &mut usize,
) -> u32
    ensures { FieldEntered (asked_of (request_question (plain scheme) name.now input.now))
        number.new place.new start.new len.new result }
{
    let a = request_found(
        input,
        Told {
            scheme,
            head: 0,
            closed: 0,
            former: 0,
            edition: 0,
        },
        name,
    );
    give_field(a, number, place, start, len)
}

// The first kept header value of the name in the final head of the first HTTP/1.1 response of a stream, told whether it answers a HEAD and whether the
// connection has closed.
#[unsafe(no_mangle)]
pub extern "C" fn ospirnar_response_field(
    input: &[u8],
    head: u32,
    closed: u32,
    name: &[u8],
    number: &mut u32,
    place: &mut usize,
    start: &mut usize,
    len: &mut usize,
) -> u32
    ensures { FieldEntered (asked_of (response_question (closing closed (answering head (plain 0))) name.now input.now))
        number.new place.new start.new len.new result }
{
    let a = response_found(
        input,
        Told {
            scheme: 0,
            head,
            closed,
            former: 0,
            edition: 0,
        },
        name,
    );
    give_field(a, number, place, start, len)
}

// The first kept header value of the name in a Binary message, told whether it answers a HEAD and its edition: the whole input.
#[unsafe(no_mangle)]
pub extern "C" fn ospirnar_binary_field(
    input: &[u8],
    head: u32,
    edition: u32,
    name: &[u8],
    number: &mut u32,
    place: &mut usize,
    start: &mut usize,
    len: &mut usize,
) -> u32
    ensures { FieldEntered (asked_of (binary_question (in_edition edition (answering head (plain 0))) name.now input.now))
        number.new place.new start.new len.new result }
{
    let a = binary_found(
        input,
        Told {
            scheme: 0,
            head,
            closed: 0,
            former: 0,
            edition,
        },
        name,
    );
    give_field(a, number, place, start, len)
}
