// The length line of a head: decided once, by `length_line`; all below take its answer.
ghost use Rattle.std.specs.Prelude.{◌≡◌, ◌+◌, ◌≤◌, length};
ghost use Rattle.output.specs.Splice.{part, Put};
ghost use Rattle.ranges.specs.Entries.{PartWithin};
ghost use Rattle.http1_writer.specs.Write.{is_get_or_head, is_silent, stated_line};
ghost use Rattle.http1_writer.specs.Numbered.{unmeasured_in, length_line_in, length_text, length_size, length_count, length_bound};

use crate::LengthLine;
use messages::call::is_yes;
use messages::parts::ends_at_head;
use messages::{Record, Told};
use numbers::digit_count;
use octets::equal;
use output::{put_decimal, put_text};

// The length line of a stated length.
fn stated_line(stated: Option<usize>) -> LengthLine
    ensures { result ≡ stated_line stated }
{
    match stated {
        None => LengthLine::Nothing,
        Some(n) => LengthLine::Length(n),
    }
}

// Whether a method expects no content.
fn is_get_or_head(m: &[u8]) -> bool
    ensures { result ≡ is_get_or_head m.now }
{
    if equal(m, b"GET") {
        return true;
    }
    equal(m, b"HEAD")
}

// Whether a request with empty content and a method, `len` octets from `start` on, goes without a length line.
fn is_silent(told: Told, s: &[u8], start: usize, len: usize) -> bool
    requires { start + len ≤ length s.now }
    ensures { result ≡ is_silent told (part s.now start len) }
{
    if is_yes(told.former) {
        return true;
    }
    is_get_or_head(&s[start..start + len])
}

// Whether no length line says how long the content of a message without trailers is.
fn is_unmeasured(told: Told, s: &[u8], r: Record) -> bool
    requires { PartWithin (length s.now) r.method }
    ensures { result ≡ unmeasured_in told s.now r }
{
    if r.response {
        return ends_at_head(told, r.status as usize);
    }
    if r.content == 0 {
        let method = r.method;
        return is_silent(told, s, method.start as usize, method.len as usize);
    }
    false
}

// Which length line a message has.
pub(crate) fn length_line(told: Told, s: &[u8], r: Record) -> LengthLine
    requires { PartWithin (length s.now) r.method }
    ensures { result ≡ length_line_in told s.now r }
{
    if r.trailers == 0 {
        if is_unmeasured(told, s, r) {
            let stated = r.stated;
            return stated_line(stated);
        }
        return LengthLine::Length(r.content);
    }
    LengthLine::Chunked
}

// How long it is.
pub(crate) fn length_size(line: LengthLine) -> usize
    ensures { (result ≡ length_size line) × (result ≤ length_bound) }
{
    match line {
        LengthLine::Nothing => return 0,
        LengthLine::Length(n) => return 16 + digit_count(n, 10) + 2,
        LengthLine::Chunked => return 28,
    }
}

// The line itself.
pub(crate) fn put_length(out: &mut [u8], at: usize, line: LengthLine) -> usize
    requires { at + length_size line ≤ length out.old }
    ensures { Put out.old at (length_text line) (length_size line) out.new result }
{
    match line {
        LengthLine::Nothing => return at,
        LengthLine::Length(n) => {
            let a = put_text(out, at, b"content-length: ");
            let b = put_decimal(out, a, n);
            return put_text(out, b, b"\r\n");
        }
        LengthLine::Chunked => return put_text(out, at, b"transfer-encoding: chunked\r\n"),
    }
}

// How many lines it is.
pub(crate) fn length_lines(line: LengthLine) -> usize
    ensures { (result ≡ length_count line) × (result ≤ 1) }
{
    match line {
        LengthLine::Nothing => return 0,
        LengthLine::Length(_) => return 1,
        LengthLine::Chunked => return 1,
    }
}
