// The steps of many octets, up to the first answer that asks for no more.
ghost use Rattle.std.specs.Prelude.{◌≡◌, true, ◌+◌, ◌-◌, ◌≤◌, ◌<◌, min};
ghost use Rattle.steps.specs.States.{is_data, is_counted, SaneData};
ghost use Rattle.steps.specs.Runs.{is_settled, passed, MayPass, Runs};

use crate::change::{is_counted, is_data, onward};
use crate::reader::{answer, take_octet};
use crate::{Answer, Phase, Ran, State};
use octets::Limits;
use step_lines::Present;

// Whether a state has ended or is refused.
fn is_settled(st: State) -> bool
    ensures { result ≡ is_settled st.phase }
{
    matches!(st.phase, Phase::Ended | Phase::Refused)
}

// How many octets of a content may be passed over: all but the last.
fn before_last(st: State) -> usize
    requires { SaneData st.present }
    ensures { result ≡ st.present.left - st.present.have - 1 }
{
    st.present.left - st.present.have - 1
}

// How many octets of a chunk may: those of its data.
fn before_end(st: State) -> usize
    requires { SaneData st.present }
    ensures { result ≡ min (st.tally.size - st.present.have) (st.present.left - st.present.have - 1) }
{
    let k = before_last(st);
    st.tally.size.saturating_sub(st.present.have).min(k)
}

// As many of m octets as may be passed over.
fn pass_count(st: State, m: usize) -> usize
    requires { SaneData st.present × (is_data st.present ≡ true) × (is_counted st ≡ true) }
    ensures { MayPass st m result }
{
    match st.phase {
        Phase::Content => before_last(st).min(m),
        Phase::Chunk => before_end(st).min(m),
        _ => 0,
    }
}

// The same of any state.
fn may_pass(st: State, m: usize) -> usize
    ensures { MayPass st m result }
{
    if is_data(st.present) {
        if is_counted(st) {
            return pass_count(st, m);
        }
        return 0;
    }
    0
}

// So many octets of the present word are passed over.
fn pass(st: State, n: usize) -> State
    requires { st.present.have + n < st.present.left }
    ensures { result ≡ passed st n }
{
    let p = st.present;
    let l = Present {
        have: p.have + n,
        ..p
    };
    onward(st, st.phase, l)
}

// The place n octets further, which is not behind a length.
fn further(i: usize, n: usize, len: usize) -> usize
    requires { i + n ≤ len }
    ensures { result ≡ i + n }
{
    i + n
}

// All steps of a slice, up to the first answer that asks for no more.
pub fn run(st: State, room: &mut [u8], s: &[u8]) -> Ran
    ensures { Runs st room.old s.now result room.new }
{
    if room.len() < Limits::HEAD {
        return Ran {
            state: st,
            taken: 0,
            answer: Answer::Refusal {
                number: 19,
                place: 0,
            },
        };
    }
    let mut x = st;
    let mut i = 0;
    while i < s.len() {
        if is_settled(x) {
            let a = answer(x);
            return Ran {
                state: x,
                taken: i,
                answer: a,
            };
        }
        let n = may_pass(x, s.len() - i);
        if n == 0 {
            let b = s[i];
            x = take_octet(x, room, b);
            i = further(i, 1, s.len());
        } else {
            x = pass(x, n);
            i = further(i, n, s.len());
        }
    }
    let z = answer(x);
    Ran {
        state: x,
        taken: i,
        answer: z,
    }
}
