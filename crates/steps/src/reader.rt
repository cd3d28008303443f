// Beginning and step.
ghost use Rattle.std.specs.Prelude.{◌≡◌, ◌-◌, ◌≤◌, ◌<◌, length};
ghost use Rattle.octets.specs.Limits.{head_most};
ghost use Rattle.step_lines.specs.Stepping.{line_text};
ghost use Rattle.steps.specs.States.{Gives, SaneLine, SaneData, SaneCounts};
ghost use Rattle.steps.specs.Bodies.{chunk_in, trailer_in};
ghost use Rattle.steps.specs.Steps.{whole_by, line_octet, line_taken, data_by, data_taken, taken, answer_in, fresh₀, begun, Steps};

use crate::body::{chunk_in, chunk_octet, content_octet, trailer_in};
use crate::change::{
    fresh_word, is_counted, is_data, is_line, one_more, onward, refused, text_len,
};
use crate::head::{field_in, request_in};
use crate::{Answer, Control, Phase, State, Stepped, Tally};
use messages::PathPrefix;
use messages::parts::is_scheme;
use messages::sections::no_notes;
use octets::{Limits, Refusal};
use step_lines::LineStep;
use step_lines::octet::line_step;

// Behind a chunk line that stands in the room.
fn chunk_whole(st: State, room: &[u8]) -> State
    requires { SaneLine st.present st.control.end × SaneCounts st × (head_most ≤ length room.now) }
    ensures { result ≡ chunk_in st (line_text st.present room.now) }
{
    let l = st.present;
    let from = l.from;
    let to = from + text_len(l);
    chunk_in(st, &room[from..to])
}

// Behind a trailer line that stands in the room.
fn trailer_whole(st: State, room: &[u8]) -> State
    requires { SaneLine st.present st.control.end × SaneCounts st × (head_most ≤ length room.now) }
    ensures { result ≡ trailer_in st (line_text st.present room.now) }
{
    let l = st.present;
    let from = l.from;
    let to = from + text_len(l);
    trailer_in(st, &room[from..to])
}

// Behind a line that is whole.
fn whole_line(st: State, room: &mut [u8]) -> State
    requires { SaneLine st.present st.control.end × SaneCounts st × (head_most ≤ length room.old) }
    ensures { Gives (whole_by st.phase st room.old) result room.new }
{
    match st.phase {
        Phase::RequestLine => request_in(st, room),
        Phase::FieldLine => field_in(st, room),
        Phase::ChunkLine => chunk_whole(st, room),
        Phase::TrailerLine => trailer_whole(st, room),
        _ => st,
    }
}

// An octet of a line.
fn line_octet(st: State, room: &mut [u8], b: u8) -> State
    requires { SaneLine st.present st.control.end × SaneCounts st × (head_most ≤ length room.old) }
    ensures { Gives (line_octet st room.old b) result room.new }
{
    let l = st.present;
    let k = line_step(l.have, l.left, l.cr, b);
    match k {
        LineStep::Goes(c) => {
            let i = l.from + l.have;
            room[i] = b;
            let p = one_more(l, c);
            let x = st.phase;
            onward(st, x, p)
        }
        LineStep::Whole => whole_line(st, room),
        LineStep::Bad => refused(st, Refusal::BadSyntax as u32, l.at),
        LineStep::Long => refused(st, Refusal::TooLarge as u32, l.at),
    }
}

// The same of any state.
fn take_line(st: State, room: &mut [u8], b: u8) -> State
    requires { head_most ≤ length room.old }
    ensures { Gives (line_taken st room.old b) result room.new }
{
    let end = st.control.end;
    if is_line(st.present, end) {
        if is_counted(st) {
            return line_octet(st, room, b);
        }
        return st;
    }
    st
}

// An octet that is not a line's.
fn data_octet(st: State, b: u8) -> State
    requires { SaneData st.present × SaneCounts st }
    ensures { result ≡ data_by st.phase st b }
{
    match st.phase {
        Phase::Content => content_octet(st),
        Phase::Chunk => chunk_octet(st, b),
        _ => st,
    }
}

// The same of any state.
fn take_data(st: State, b: u8) -> State
    ensures { result ≡ data_taken st b }
{
    if is_data(st.present) {
        if is_counted(st) {
            return data_octet(st, b);
        }
        return st;
    }
    st
}

// One octet more: what is settled stays.
pub(crate) fn take_octet(st: State, room: &mut [u8], b: u8) -> State
    requires { head_most ≤ length room.old }
    ensures { Gives (taken st room.old b) result room.new }
{
    match st.phase {
        Phase::Content | Phase::Chunk => take_data(st, b),
        Phase::Ended | Phase::Refused => st,
        _ => take_line(st, room, b),
    }
}

// What a state says.
pub fn answer(st: State) -> Answer
    ensures { result ≡ answer_in st }
{
    match st.phase {
        Phase::Ended => Answer::End {
            length: st.place,
            headers: st.tally.headers,
            content: st.tally.content,
            trailers: st.tally.trailers,
        },
        Phase::Refused => Answer::Refusal {
            number: st.number,
            place: st.place,
        },
        _ => Answer::More,
    }
}

// Before the first octet of a request on a connection of a scheme.
fn first(scheme: u32) -> State
    ensures { result ≡ fresh₀ scheme }
{
    State {
        phase: Phase::RequestLine,
        present: fresh_word(0, Limits::HEAD, 0),
        control: Control {
            scheme,
            given: false,
            method: 0,
            host: 0,
            hostlen: 0,
            path: 0,
            pathlen: 0,
            prefix: PathPrefix::Nothing,
            end: 0,
        },
        lines: 0,
        notes: no_notes(),
        tally: Tally {
            headers: 0,
            chunks: 0,
            content: 0,
            size: 0,
            trailers: 0,
        },
        number: 0,
        place: 0,
    }
}

// A request begins, with so much room lent: too little is 19, then another scheme number is 4.
pub fn begin(room: usize, scheme: u32) -> State
    ensures { result ≡ begun room scheme }
{
    let s = first(scheme);
    if room < Limits::HEAD {
        return refused(s, 19, 0);
    }
    if is_scheme(scheme) {
        return s;
    }
    refused(s, Refusal::NotSupported as u32, 0)
}

// A step: one octet of the request. With less room than a head has it is 19 at 0, and counts as not taken.
pub fn step(st: State, room: &mut [u8], b: u8) -> Stepped
    ensures { Steps st room.old b result room.new }
{
    if room.len() < Limits::HEAD {
        return Stepped {
            state: st,
            answer: Answer::Refusal {
                number: 19,
                place: 0,
            },
        };
    }
    let state = take_octet(st, room, b);
    let a = answer(state);
    Stepped { state, answer: a }
}
