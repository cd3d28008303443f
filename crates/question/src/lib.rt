// The field question: the first kept header value of a name, of the final head in a response, as a part of the message; else the default.
#![tactic(auto)]

ghost use Rattle.std.specs.Prelude.{◌≡◌, map, ◌+◌, ◌*◌, ◌≤◌, length};
ghost use Rattle.octets.specs.Text.{lower_of, same_text};
ghost use Rattle.ranges.specs.Entries.{field_in, EntryWithin, FieldsWithin};
ghost use Rattle.turn.specs.Question.{found_part, lent_number, lent_place, request_question, response_question, binary_question};
ghost use Rattle.question.specs.Asking.{asked_of, value_part, found_in, OutcomeWithin, asked_from, octets_or, points_to, FoundWithin, Answered};

use binary_reader::whole::binary_in;
use http1_reader::request::request_in;
use http1_reader::response::response_in;
use messages::{Outcome, Span, Stop, Told};
use octets::{ClassTable, Refusal, Refused, same};
use ranges::{fields_before, number_at};

// An answer: the value that was found, as a part of the message, or nothing: the default is meant then; or the message's refusal.
pub type Asked = Result<Option<Span>, Refused>;

// Whether the field of the entry k has the name.
fn is_named(s: &[u8], ranges: &[u32], k: usize, name: &[u8]) -> bool
    requires { (k * 4 + 4 ≤ length ranges.now) × EntryWithin (length s.now) ranges.now k }
    ensures { result ≡ same_text (map lower_of (field_in s.now ranges.now k).name.text) name.now }
{
    let start = number_at(ranges, k * 4);
    let len = number_at(ranges, k * 4 + 1);
    same(&s[start..start + len], name)
}

// The value of the entry k.
fn value_of(ranges: &[u32], k: usize) -> Span
    requires { k * 4 + 4 ≤ length ranges.now }
    ensures { result ≡ value_part ranges.now k }
{
    let start = number_at(ranges, k * 4 + 2);
    let len = number_at(ranges, k * 4 + 3);
    Span { start, len }
}

// The first value of the name among n fields from the entry k on.
fn first_in(s: &[u8], ranges: &[u32], k: usize, n: usize, name: &[u8]) -> Option<Span>
    requires { FieldsWithin (length s.now) ranges.now k n }
    ensures { result ≡ found_in name.now s.now ranges.now k n }
{
    for i in 0..n {
        if is_named(s, ranges, k + i, name) {
            return Some(value_of(ranges, k + i));
        }
    }
    None
}

// The answer from a reader's outcome and the ranges that it left.
fn asked_from(s: &[u8], o: Outcome, headers: &[u32], heads: &[u32], name: &[u8]) -> Asked
    requires { OutcomeWithin s.now o headers.now heads.now }
    ensures { result ≡ asked_from name.now s.now o headers.now heads.now }
{
    match o {
        Err(Stop::More) => Err(Refusal::MoreNeeded.at(s.len())),
        Err(Stop::Refused(refused)) => Err(refused),
        Ok(r) => {
            let k = fields_before(heads, r.informational);
            Ok(first_in(s, headers, k, r.headers, name))
        }
    }
}

// The field question to the first HTTP/1.1 request of s, under the scheme told.
pub fn request_found(s: &[u8], told: Told, name: &[u8]) -> Asked
    ensures { result ≡ asked_of (request_question told name.now s.now) }
{
    let t = ClassTable::new();
    let heads = [0u32; 8];
    let mut headers = [0u32; 256];
    let mut chunks = [0u32; 512];
    let mut trailers = [0u32; 256];
    let o = request_in(&t, s, told, &mut headers, &mut chunks, &mut trailers);
    asked_from(s, o, &headers, &heads, name)
}

// The field question to the first HTTP/1.1 response of s, as told.
pub fn response_found(s: &[u8], told: Told, name: &[u8]) -> Asked
    ensures { result ≡ asked_of (response_question told name.now s.now) }
{
    let t = ClassTable::new();
    let mut headers = [0u32; 1280];
    let mut heads = [0u32; 8];
    let mut chunks = [0u32; 512];
    let mut trailers = [0u32; 256];
    let o = response_in(
        &t,
        s,
        told,
        &mut headers,
        &mut heads,
        &mut chunks,
        &mut trailers,
    );
    asked_from(s, o, &headers, &heads, name)
}

// The field question to the Binary message that s is, as told.
pub fn binary_found(s: &[u8], told: Told, name: &[u8]) -> Asked
    ensures { result ≡ asked_of (binary_question told name.now s.now) }
{
    let t = ClassTable::new();
    let mut headers = [0u32; 1280];
    let mut heads = [0u32; 8];
    let mut chunks = [0u32; 512];
    let mut trailers = [0u32; 256];
    let o = binary_in(
        &t,
        s,
        told,
        &mut headers,
        &mut heads,
        &mut chunks,
        &mut trailers,
    );
    asked_from(s, o, &headers, &heads, name)
}

// What an answer stands for: the part of s, or the default. The lent number and place are the answer's afterwards.
fn field_or<'a>(
    s: &'a [u8],
    a: Asked,
    default: &'a [u8],
    number: &mut u32,
    place: &mut usize,
) -> &'a [u8]
    requires { FoundWithin s.now (found_part a) }
    ensures result_value { result.now ≡ octets_or s.now «default».now (found_part a) }
    ensures ref_ptr_value { result.ref_ptr ≡ points_to (found_part a) s.entry.ref_ptr «default».entry.ref_ptr }
    ensures number_after { number.new ≡ lent_number a }
    ensures place_after { place.new ≡ lent_place a }
{
    match a {
        Ok(found) => {
            *number = 0;
            *place = 0;
            match found {
                Some(part) => &s[part.start..part.start + part.len],
                None => default,
            }
        }
        Err(e) => {
            *number = e.number;
            *place = e.place;
            default
        }
    }
}

// The first kept header value of the name in the first HTTP/1.1 request of s, under the scheme told, as the part of s that it is, or the default; the lent
// number and place receive the message's refusal, or 0 and 0.
pub fn request_field<'a>(
    s: &'a [u8],
    told: Told,
    name: &[u8],
    default: &'a [u8],
    number: &mut u32,
    place: &mut usize,
) -> &'a [u8]
    ensures { Answered (request_question told name.now s.now)
        «default».now s.entry.ref_ptr «default».entry.ref_ptr result.now result.ref_ptr number.new place.new }
{
    let a = request_found(s, told, name);
    field_or(s, a, default, number, place)
}

// The same for the final head of the first HTTP/1.1 response of s, as told.
pub fn response_field<'a>(
    s: &'a [u8],
    told: Told,
    name: &[u8],
    default: &'a [u8],
    number: &mut u32,
    place: &mut usize,
) -> &'a [u8]
    ensures { Answered (response_question told name.now s.now)
        «default».now s.entry.ref_ptr «default».entry.ref_ptr result.now result.ref_ptr number.new place.new }
{
    let a = response_found(s, told, name);
    field_or(s, a, default, number, place)
}

// The same for the Binary message that s is, as told.
pub fn binary_field<'a>(
    s: &'a [u8],
    told: Told,
    name: &[u8],
    default: &'a [u8],
    number: &mut u32,
    place: &mut usize,
) -> &'a [u8]
    ensures { Answered (binary_question told name.now s.now)
        «default».now s.entry.ref_ptr «default».entry.ref_ptr result.now result.ref_ptr number.new place.new }
{
    let a = binary_found(s, told, name);
    field_or(s, a, default, number, place)
}
