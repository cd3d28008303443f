// The listing of a request stream.
#![tactic(auto)]

ghost use Rattle.std.specs.Prelude.{◌≡◌, ◌+◌, ◌≤◌, ◌++◌, length};
ghost use Rattle.octets.specs.Limits.{listing_most};
ghost use Rattle.octets.specs.Refusals.{too_large};
ghost use Rattle.output.specs.Splice.{Put};
ghost use Rattle.output.specs.Reply.{writes, Served};
ghost use Rattle.listing.specs.Listing.{column, end_line, title, listing_of};
ghost use Rattle.listing.specs.Rows.{row_at, rows_at, counts_text, row_text};
ghost use Rattle.listing.specs.Rows.{title_size, column_size, column_most, three_size, row_size, row_most, end_size, end_most, rows_most};

use http1_reader::request::request_in;
use messages::Stop;
use messages::call::plain;
use numbers::digit_count;
use octets::{ClassTable, Limits, Refusal};
use output::{Written, put_decimal, put_octet, put_text};

// What stands at a place of the stream: a message with its length and counts, or where and why the listing stops.
#[derive(Clone, Copy)]
pub enum Row {
    Message {
        length: usize,
        fields: usize,
        content: usize,
        trailers: usize,
    },
    Stop {
        place: usize,
        number: u32,
    },
}

// The row at a place of the stream.
fn next_row(t: &ClassTable, s: &[u8], at: usize) -> Row
    requires { at ≤ length s.now }
    ensures { result ≡ row_at s.now at }
{
    if s.len() <= at {
        return Row::Stop {
            place: at,
            number: 0,
        };
    }
    let mut headers = [0u32; 256];
    let mut chunks = [0u32; 512];
    let mut trailers = [0u32; 256];
    let o = request_in(
        t,
        &s[at..],
        plain(0),
        &mut headers,
        &mut chunks,
        &mut trailers,
    );
    match o {
        Err(Stop::More) => return Row::Stop {
            place: s.len(),
            number: Refusal::MoreNeeded as u32,
        },
        Err(Stop::Refused(e)) => return Row::Stop {
            place: at + e.place,
            number: e.number,
        },
        Ok(r) => return Row::Message {
            length: r.length,
            fields: r.headers,
            content: r.content,
            trailers: r.trailers,
        },
    }
}

// The length of a column, with the octet behind it.
fn column_size(n: usize) -> usize
    ensures { (result ≡ column_size n) × (result ≤ column_most) }
{
    digit_count(n, 10) + 1
}

fn row_size(
    i: usize,
    at: usize,
    len: usize,
    fields: usize,
    content: usize,
    trailers: usize,
) -> usize
    ensures { (result ≡ row_size i at len fields content trailers) × (result ≤ row_most) }
{
    let a = column_size(i) + column_size(at) + column_size(len);
    let b = column_size(fields) + column_size(content) + column_size(trailers);
    a + b
}

fn end_size(place: usize, number: u32) -> usize
    ensures { (result ≡ end_size place number) × (result ≤ end_most) }
{
    4 + column_size(place) + column_size(number as usize)
}

// The length of all rows of a stream, with the last line.
fn rows_size(t: &ClassTable, s: &[u8]) -> usize
    requires { length s.now ≤ listing_most }
    ensures { (result ≡ length (rows_at s.now 1 0)) × (result ≤ rows_most) }
{
    let mut i = 1;
    let mut at = 0;
    let mut size = 0;
    loop {
        let row = next_row(t, s, at);
        match row {
            Row::Stop { place, number } => return size + end_size(place, number),
            Row::Message {
                length,
                fields,
                content,
                trailers,
            } => {
                size += row_size(i, at, length, fields, content, trailers);
                i += 1;
                at += length;
            }
        }
    }
}

// A number and a space.
fn put_column(out: &mut [u8], at: usize, n: usize) -> usize
    requires { at + column_size n ≤ length out.old }
    ensures { Put out.old at (column n) (column_size n) out.new result }
{
    let a = put_decimal(out, at, n);
    put_octet(out, a, 32)
}

fn put_counts(out: &mut [u8], at: usize, fields: usize, content: usize, trailers: usize) -> usize
    requires { at + three_size fields content trailers ≤ length out.old }
    ensures { Put out.old at (counts_text fields content trailers) (three_size fields content trailers) out.new result }
{
    let a = put_column(out, at, fields);
    let b = put_column(out, a, content);
    let d = put_decimal(out, b, trailers);
    put_octet(out, d, 10)
}

fn put_row(
    out: &mut [u8],
    o: usize,
    i: usize,
    at: usize,
    len: usize,
    fields: usize,
    content: usize,
    trailers: usize,
) -> usize
    requires { o + row_size i at len fields content trailers ≤ length out.old }
    ensures { Put out.old o (row_text i at len fields content trailers) (row_size i at len fields content trailers) out.new result }
{
    let a = put_column(out, o, i);
    let b = put_column(out, a, at);
    let d = put_column(out, b, len);
    put_counts(out, d, fields, content, trailers)
}

fn put_end(out: &mut [u8], at: usize, place: usize, number: u32) -> usize
    requires { at + end_size place number ≤ length out.old }
    ensures { Put out.old at (end_line place number) (end_size place number) out.new result }
{
    let a = put_text(out, at, b"end ");
    let b = put_column(out, a, place);
    let d = put_decimal(out, b, number as usize);
    put_octet(out, d, 10)
}

// All rows of a stream, with the last line.
fn put_rows(t: &ClassTable, s: &[u8], out: &mut [u8], start: usize) -> usize
    requires { (length s.now ≤ listing_most) × (start + length (rows_at s.now 1 0) ≤ length out.old) }
    ensures { Put out.old start (rows_at s.now 1 0) (length (rows_at s.now 1 0)) out.new result }
{
    let mut i = 1;
    let mut at = 0;
    let mut o = start;
    loop {
        let row = next_row(t, s, at);
        match row {
            Row::Stop { place, number } => return put_end(out, o, place, number),
            Row::Message {
                length,
                fields,
                content,
                trailers,
            } => {
                o = put_row(out, o, i, at, length, fields, content, trailers);
                i += 1;
                at += length;
            }
        }
    }
}

fn put_title(out: &mut [u8]) -> usize
    requires { title_size ≤ length out.old }
    ensures { Put out.old 0 title title_size out.new result }
{
    put_text(out, 0, b"message start length fields content trailers\n")
}

// The listing of a stream that is not too large.
fn put_stream(s: &[u8], out: &mut [u8]) -> Written
    requires { length s.now ≤ listing_most }
    ensures { Served (writes (listing_of s.now)) out.old out.new result }
{
    let t = ClassTable::new();
    let n = rows_size(&t, s);
    if out.len() < 45 + n {
        return Err(Refusal::NoRoom.at(0));
    }
    let a = put_title(out);
    let b = put_rows(&t, s, out, a);
    Ok(b)
}

// The listing of a stream that is too large.
fn put_large(out: &mut [u8]) -> Written
    ensures { Served (writes (title ++ end_line listing_most too_large)) out.old out.new result }
{
    let n = end_size(Limits::LISTING, Refusal::TooLarge as u32);
    if out.len() < 45 + n {
        return Err(Refusal::NoRoom.at(0));
    }
    let a = put_title(out);
    let b = put_end(out, a, Limits::LISTING, Refusal::TooLarge as u32);
    Ok(b)
}

// The listing of a stream; 13 at 0 where it does not fit, and nothing is written then.
pub fn listing(s: &[u8], out: &mut [u8]) -> Written
    ensures { Served (writes (listing_of s.now)) out.old out.new result }
{
    if Limits::fits(s.len(), Limits::LISTING) {
        return put_stream(s, out);
    }
    put_large(out)
}
