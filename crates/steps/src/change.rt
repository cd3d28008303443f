// Small changes of a state.
ghost use Rattle.std.specs.Prelude.{◌≡◌, ◌+◌, ◌-◌, ◌<◌, ◌≤◌};
ghost use Rattle.step_lines.specs.Stepping.{fresh, one_more, next_present};
ghost use Rattle.step_lines.specs.declared.Present.{Present};
ghost use Rattle.steps.specs.States.{refuse, finish, reading, in_section, with_control, with_tally, begins, is_line, is_data, is_tally, is_counted, place_most};

use crate::{Control, Phase, State, Tally};
use messages::Notes;
use octets::{Limits, Refusal};
use step_lines::Present;

// Refused with a number at a place.
pub(crate) fn refused(st: State, number: u32, place: usize) -> State
    ensures { result ≡ refuse st number place }
{
    State {
        phase: Phase::Refused,
        number,
        place,
        ..st
    }
}

// A line that begins: with no allowance it is too long at once.
pub(crate) fn begin_line(st: State) -> State
    ensures { result ≡ begins st }
{
    if st.present.left == 0 {
        return refused(st, Refusal::TooLarge as u32, st.present.at);
    }
    st
}

// A word of at most n octets at a place.
pub(crate) fn fresh_word(at: usize, n: usize, from: usize) -> Present
    ensures { result ≡ fresh at n from }
{
    Present {
        at,
        have: 0,
        left: n,
        cr: 0,
        from,
    }
}

// One octet more of a word, behind which c is known of it.
pub(crate) fn one_more(l: Present, c: u32) -> Present
    requires { l.have < l.left }
    ensures { result ≡ one_more l c }
{
    Present {
        have: l.have + 1,
        cr: c,
        ..l
    }
}

// The line behind one that is whole, where the room keeps what stands before `from`.
pub(crate) fn next_line(l: Present, from: usize) -> Present
    requires { (l.have < l.left) × (l.at ≤ place_most) × (l.left ≤ place_most) }
    ensures { result ≡ next_present l from }
{
    let n = l.have + 1;
    fresh_word(l.at + n, l.left - n, from)
}

// Ended at a place.
pub(crate) fn ended(st: State, place: usize) -> State
    ensures { result ≡ finish st place st.tally }
{
    State {
        phase: Phase::Ended,
        place,
        ..st
    }
}

// Another word of the same kind or of another.
pub(crate) fn onward(st: State, phase: Phase, l: Present) -> State
    ensures { result ≡ reading st phase l }
{
    State {
        phase,
        present: l,
        ..st
    }
}

// The same before a line of a section of which `lines` lines are read, and of which this is noted.
pub(crate) fn in_section(st: State, phase: Phase, l: Present, lines: usize, notes: Notes) -> State
    ensures { result ≡ in_section st phase l lines notes }
{
    State {
        phase,
        present: l,
        lines,
        notes,
        ..st
    }
}

// The same with other control data.
pub(crate) fn with_control(st: State, control: Control) -> State
    ensures { result ≡ with_control st control }
{
    State { control, ..st }
}

// The same with other counts.
pub(crate) fn with_tally(st: State, tally: Tally) -> State
    ensures { result ≡ with_tally st tally }
{
    State { tally, ..st }
}

// How many octets of a whole line stand before its CR.
pub(crate) fn text_len(l: Present) -> usize
    ensures { result ≡ l.have - 1 }
{
    l.have.saturating_sub(1)
}

// Whether the numbers are those of a line, behind control data that end at a place.
pub(crate) fn is_line(l: Present, end: usize) -> bool
    ensures { result ≡ is_line l end }
{
    if l.at <= 1048576 {
        if l.have < l.left {
            if l.left <= Limits::HEAD {
                if l.from <= Limits::HEAD {
                    if l.from + l.have < Limits::HEAD {
                        return end <= l.from;
                    }
                }
            }
        }
    }
    false
}

// Whether the numbers are those of other octets.
pub(crate) fn is_data(l: Present) -> bool
    ensures { result ≡ is_data l }
{
    if l.at <= 1048576 {
        if l.have < l.left {
            return l.left <= Limits::CONTENT + 2;
        }
    }
    false
}

// Whether counts may stand for octets.
fn is_tally(t: Tally) -> bool
    ensures { result ≡ is_tally t }
{
    if t.chunks <= Limits::CHUNKS {
        if t.content <= Limits::CONTENT {
            if t.size <= Limits::CONTENT {
                return t.trailers <= Limits::LINES;
            }
        }
    }
    false
}

// Whether the counts of a state may.
pub(crate) fn is_counted(st: State) -> bool
    ensures { result ≡ is_counted st }
{
    if st.lines <= Limits::LINES {
        if st.control.host <= Limits::HEAD {
            if st.control.hostlen <= Limits::HEAD {
                return is_tally(st.tally);
            }
        }
    }
    false
}
