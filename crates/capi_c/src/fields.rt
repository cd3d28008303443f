// The field question for C.
ghost use Rattle.messages.specs.Told.{plain, answering, closing, in_edition};
ghost use Rattle.turn.specs.Question.{request_question, response_question, binary_question};
ghost use Rattle.question.specs.Asking.{asked_of};
ghost use Rattle.capi.specs.Entries.{FieldEntered};

// The first kept header value of the name in the first HTTP/1.1 request of a stream, under the scheme told.
#[unsafe(no_mangle)]
pub extern "C" fn ospirnar_request_field(
    input: &[u8],
    scheme: u32,
    name: &[u8],
    number: &mut u32,
    place: &mut usize,
    start: &mut usize,
    len: &mut usize,
) -> u32
    ensures { FieldEntered (asked_of (request_question (plain scheme) name.now input.now))
        number.new place.new start.new len.new result }
{
    capi::fields::ospirnar_request_field(input, scheme, name, number, place, start, len)
}

// The first kept header value of the name in the final head of the first HTTP/1.1 response of a stream, told whether it answers a HEAD and whether the
// connection has closed.
#[unsafe(no_mangle)]
pub extern "C" fn ospirnar_response_field(
    input: &[u8],
    head: u32,
    closed: u32,
    name: &[u8],
    number: &mut u32,
    place: &mut usize,
    start: &mut usize,
    len: &mut usize,
) -> u32
    ensures { FieldEntered (asked_of (response_question (closing closed (answering head (plain 0))) name.now input.now))
        number.new place.new start.new len.new result }
{
    capi::fields::ospirnar_response_field(input, head, closed, name, number, place, start, len)
}

// The first kept header value of the name in a Binary message, told whether it answers a HEAD and its edition: the whole input.
#[unsafe(no_mangle)]
pub extern "C" fn ospirnar_binary_field(
    input: &[u8],
    head: u32,
    edition: u32,
    name: &[u8],
    number: &mut u32,
    place: &mut usize,
    start: &mut usize,
    len: &mut usize,
) -> u32
    ensures { FieldEntered (asked_of (binary_question (in_edition edition (answering head (plain 0))) name.now input.now))
        number.new place.new start.new len.new result }
{
    capi::fields::ospirnar_binary_field(input, head, edition, name, number, place, start, len)
}
