// Content, chunks and trailers. Of content no octet is kept.
ghost use Rattle.std.specs.Prelude.{◌≡◌, true, false, map, ◌+◌, ◌-◌, ◌≤◌, ◌<◌, length, take};
ghost use Rattle.octets.specs.Limits.{lines_most, chunks_most, content_most};
ghost use Rattle.octets.specs.Text.{lower_of};
ghost use Rattle.numbers.specs.Digits.{most};
ghost use Rattle.messages.specs.Names.{kind_of};
ghost use Rattle.steps.specs.States.{SaneLine, SaneData, SaneCounts};
ghost use Rattle.steps.specs.Bodies.{content_octet, chunk_sized, chunk_in, chunk_tally, trailer_tally, data_cr, chunk_end, chunk_octet, trailer_noted, trailer_held, trailers_end, trailer_in};

use crate::change::{
    begin_line, ended, fresh_word, in_section, next_line, one_more, onward, refused, text_len,
    with_tally,
};
use crate::{Phase, State, Tally};
use http1_lines::lines::{chunk_line, field_line};
use messages::parts::{is_end_to_end, kind_of};
use messages::sections::{no_notes, note};
use messages::{Kind, Notes};
use octets::{Limits, Refusal};

// An octet of content of a stated length: the last ends the message.
pub(crate) fn content_octet(st: State) -> State
    requires { SaneData st.present }
    ensures { result ≡ content_octet st }
{
    let l = st.present;
    if l.have + 1 == l.left {
        let mut t = st.tally;
        t.content = l.left;
        let s = with_tally(st, t);
        return ended(s, l.at + l.left);
    }
    let p = one_more(l, l.cr);
    let x = st.phase;
    onward(st, x, p)
}

// Behind a chunk line that states n octets.
fn chunk_sized(st: State, n: usize) -> State
    requires { SaneLine st.present st.control.end × SaneCounts st × (n ≤ most) }
    ensures { result ≡ chunk_sized st n }
{
    let at = st.present.at;
    let next = at + (st.present.have + 1);
    let end = st.control.end;
    if n == 0 {
        let l = fresh_word(next, Limits::TRAILER, end);
        let notes = no_notes();
        return in_section(st, Phase::TrailerLine, l, 0, notes);
    }
    if Limits::CHUNKS <= st.tally.chunks {
        return refused(st, Refusal::TooLarge as u32, at);
    }
    if Limits::CONTENT < st.tally.content + n {
        return refused(st, Refusal::TooLarge as u32, at);
    }
    let l = fresh_word(next, n + 2, end);
    let mut t = st.tally;
    t.size = n;
    let s = with_tally(st, t);
    onward(s, Phase::Chunk, l)
}

// Behind a chunk line, without its CR LF.
pub(crate) fn chunk_in(st: State, w: &[u8]) -> State
    requires { SaneLine st.present st.control.end × SaneCounts st }
    ensures { result ≡ chunk_in st w.now }
{
    let t = octets::class_table();
    match chunk_line(&t, w) {
        Some(size) => chunk_sized(st, size),
        None => refused(st, Refusal::BadSyntax as u32, st.present.at),
    }
}

// Whether CR is known to stand behind the data of a chunk, with an octet more.
fn data_cr(st: State, b: u8) -> u32
    ensures { result ≡ data_cr st b }
{
    if st.present.have == st.tally.size {
        if b == b'\r' {
            return 1;
        }
        return 0;
    }
    st.present.cr
}

// The counts behind a chunk.
fn with_chunk(t: Tally) -> Tally
    requires { (t.chunks ≤ chunks_most) × (t.content ≤ content_most) × (t.size ≤ content_most) }
    ensures { result ≡ chunk_tally t }
{
    Tally {
        chunks: t.chunks + 1,
        content: t.content + t.size,
        ..t
    }
}

// The last octet of a chunk with its CR LF.
fn chunk_end(st: State, b: u8) -> State
    requires { SaneData st.present × SaneCounts st }
    ensures { result ≡ chunk_end st b }
{
    let at = st.present.at;
    if st.present.cr == 1 && b == b'\n' {
        let l = fresh_word(at + st.present.left, Limits::CHUNK_LINE, st.control.end);
        let t = with_chunk(st.tally);
        let s = with_tally(st, t);
        return onward(s, Phase::ChunkLine, l);
    }
    refused(st, Refusal::BadSyntax as u32, at + st.tally.size)
}

// An octet of a chunk.
pub(crate) fn chunk_octet(st: State, b: u8) -> State
    requires { SaneData st.present × SaneCounts st }
    ensures { result ≡ chunk_octet st b }
{
    let l = st.present;
    if l.have + 1 == l.left {
        return chunk_end(st, b);
    }
    let c = data_cr(st, b);
    let p = one_more(l, c);
    let x = st.phase;
    onward(st, x, p)
}

// The counts behind a trailer line that is kept or not.
fn with_trailer(t: Tally, kept: bool) -> Tally
    requires { t.trailers ≤ lines_most }
    ensures { result ≡ trailer_tally t kept }
{
    if kept {
        return Tally {
            trailers: t.trailers + 1,
            ..t
        };
    }
    t
}

// Behind a trailer line of a kind, when this is noted of the section.
fn trailer_noted(st: State, kind: Kind, notes: Notes) -> State
    requires { SaneLine st.present st.control.end × SaneCounts st }
    ensures { result ≡ trailer_noted st kind notes }
{
    let t = with_trailer(st.tally, is_end_to_end(kind, false));
    let l = next_line(st.present, st.control.end);
    let x = st.phase;
    let s = with_tally(st, t);
    let r = in_section(s, x, l, st.lines + 1, notes);
    begin_line(r)
}

// A trailer line whose name has `name` octets, and whose value has `len` octets from `value` on.
fn trailer_held(st: State, w: &[u8], name: usize, value: usize, len: usize) -> State
    requires { SaneLine st.present st.control.end × SaneCounts st × (name ≤ length w.now) × (value + len ≤ length w.now) × (length w.now ≤ 8192) }
    ensures { result ≡ trailer_held st w.now (kind_of (map lower_of (take name w.now))) value len }
{
    let kind = kind_of(&w[..name]);
    let end = value + len;
    let at = st.present.at;
    let notes = note(st.notes, kind, at, at + value, &w[value..end], true);
    trailer_noted(st, kind, notes)
}

// Behind the empty line of the trailer section.
fn trailers_end(st: State) -> State
    requires { SaneLine st.present st.control.end }
    ensures { result ≡ trailers_end st }
{
    let place = st.present.at + 2;
    if st.notes.trailers {
        return ended(st, place);
    }
    refused(st, Refusal::BadLength as u32, place)
}

// Behind a line of the trailer section, without its CR LF.
pub(crate) fn trailer_in(st: State, w: &[u8]) -> State
    requires { SaneLine st.present st.control.end × SaneCounts st × (length w.now ≡ st.present.have - 1) }
    ensures { result ≡ trailer_in st w.now }
{
    if text_len(st.present) == 0 {
        return trailers_end(st);
    }
    if Limits::LINES <= st.lines {
        return refused(st, Refusal::TooLarge as u32, st.present.at);
    }
    let t = octets::class_table();
    match field_line(&t, w) {
        Some(f) => trailer_held(st, w, f.name, f.value, f.len),
        None => refused(st, Refusal::BadSyntax as u32, st.present.at),
    }
}
