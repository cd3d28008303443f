// The ends of the request line, of a field line and of the head.
ghost use Rattle.std.specs.Prelude.{◌≡◌, true, false, map, ◌+◌, ◌-◌, ◌≤◌, ◌<◌, length, take, drop};
ghost use Rattle.octets.specs.Limits.{head_most};
ghost use Rattle.octets.specs.Table.{classes};
ghost use Rattle.octets.specs.Text.{lower_of};
ghost use Rattle.messages.specs.Names.{kind_of};
ghost use Rattle.messages.specs.Notes.{body_answer};
ghost use Rattle.messages.specs.Rules.{request_body};
ghost use Rattle.steps.specs.States.{Gives, SaneLine, SaneCounts};
ghost use Rattle.steps.specs.Heads.{target_room, control_of, request_held, request_in, host_stands, hosted_by, host_behind, settle};
ghost use Rattle.steps.specs.Heads.{content_from, on_body, head_end, host_from, host_at, field_noted, field_held, field_in};

use crate::change::{
    begin_line, ended, fresh_word, in_section, next_line, onward, refused, text_len, with_control,
    with_tally,
};
use crate::{Control, Phase, State};
use http1_lines::Target;
use http1_lines::lines::{field_line, request_line};
use messages::parts::{is_host, kind_of};
use messages::sections::{no_notes, note, request_body};
use messages::{Body, Hosts, Kind, Notes};
use octets::{Limits, Refusal};
use step_lines::names::count;
use step_lines::room::{keep, move_down};

// Authority and path of a target that stands behind a method's end and a space move down behind the method.
fn hold_target(room: &mut [u8], at: usize, x: Target)
    requires { (x.hostlen ≤ x.start) × (at + 1 + (x.start + x.len) ≤ length room.old) × (at + 1 + (x.host + x.hostlen) ≤ length room.old) }
    ensures { room.new ≡ target_room room.old at x }
{
    move_down(room, at, at + 1 + x.host, x.hostlen);
    move_down(room, at + x.hostlen, at + 1 + x.start, x.len);
}

// Where they then stand.
fn control_of(scheme: u32, at: usize, x: Target) -> Control
    requires { (at ≤ 4294967295) × (x.hostlen ≤ 4294967295) × (x.len ≤ 4294967295) }
    ensures { result ≡ control_of scheme at x }
{
    let given = x.hostlen != 0;
    let path = at + x.hostlen;
    let end = path + x.len;
    let prefix = x.prefix;
    Control {
        scheme,
        given,
        method: at,
        host: at,
        hostlen: x.hostlen,
        path,
        pathlen: x.len,
        prefix,
        end,
    }
}

// Behind a request line with a method of m octets and a target.
fn request_held(st: State, room: &mut [u8], m: usize, x: Target) -> State
    requires sane_line { SaneLine st.present st.control.end × (head_most ≤ length room.old) }
    requires hostlen_le_start { (x.hostlen ≤ x.start) × (m + 1 + (x.start + x.len) ≤ st.present.have) × (m + 1 + (x.host + x.hostlen) ≤ st.present.have) }
    ensures { Gives (request_held st room.old m x) result room.new }
{
    let l = st.present;
    let at = l.from + m;
    hold_target(room, at, x);
    let scheme = st.control.scheme;
    let c = control_of(scheme, at, x);
    let p = next_line(l, c.end);
    let notes = no_notes();
    let s = with_control(st, c);
    let q = in_section(s, Phase::FieldLine, p, 0, notes);
    begin_line(q)
}

// Behind the request line.
pub(crate) fn request_in(st: State, room: &mut [u8]) -> State
    requires { SaneLine st.present st.control.end × (head_most ≤ length room.old) }
    ensures { Gives (request_in st room.old) result room.new }
{
    let l = st.present;
    let from = l.from;
    let to = from + text_len(l);
    let t = octets::class_table();
    match request_line(&t, st.control.scheme, &room[from..to]) {
        Ok(q) => request_held(st, room, q.method, q.target),
        Err(r) => refused(st, r.number(), l.at),
    }
}

// Whether the one Host line's value is an authority, where the target has none.
fn host_stands(t: &[u8; 256], st: State, room: &[u8]) -> bool
    requires { SaneLine st.present st.control.end × SaneCounts st × (head_most ≤ length room.now) }
    ensures { t.now ≡ classes → result ≡ host_stands st room.now }
{
    let c = st.control;
    if c.given {
        return true;
    }
    let host = c.host;
    if c.end <= host {
        let to = host + c.hostlen;
        if to <= st.present.from {
            return is_host(t, &room[host..to]);
        }
        return false;
    }
    false
}

// The host rule.
fn is_hosted(t: &[u8; 256], st: State, room: &[u8]) -> bool
    requires { SaneLine st.present st.control.end × SaneCounts st × (head_most ≤ length room.now) }
    ensures { t.now ≡ classes → result ≡ hosted_by st.notes.hosts st room.now }
{
    matches!(st.notes.hosts, Hosts::One { .. }) && host_stands(t, st, room)
}

// Host's value as the authority, directly behind method and path.
fn host_behind(c: Control) -> Control
    requires { (c.end ≤ head_most) × (c.hostlen ≤ head_most) }
    ensures { result ≡ host_behind c }
{
    Control {
        host: c.end,
        end: c.end + c.hostlen,
        ..c
    }
}

// The names are counted and given up, and the authority stands behind method and path.
fn settled(st: State, room: &mut [u8]) -> State
    requires sane_line { SaneLine st.present st.control.end × SaneCounts st × (head_most ≤ length room.old) }
    requires end_le_host { st.control.given ≡ false → (st.control.end ≤ st.control.host) × (st.control.host + st.control.hostlen ≤ st.present.from) }
    ensures { Gives (settle st room.old) result room.new }
{
    let c = st.control;
    let end = c.end;
    let from = st.present.from;
    let n = count(&room[end..from]);
    let mut t = st.tally;
    t.headers = n;
    if c.given {
        return with_tally(st, t);
    }
    move_down(room, end, c.host, c.hostlen);
    let d = host_behind(c);
    let s = with_control(st, d);
    with_tally(s, t)
}

// The content begins at a place; none has ended there.
fn content_from(st: State, end: usize, body: Body) -> State
    ensures { result ≡ content_from st end body }
{
    let from = st.control.end;
    match body {
        Body::Sized(n) => {
            if n == 0 {
                return ended(st, end);
            }
            let l = fresh_word(end, n, from);
            onward(st, Phase::Content, l)
        }
        Body::InChunks => {
            let k = fresh_word(end, Limits::CHUNK_LINE, from);
            onward(st, Phase::ChunkLine, k)
        }
        Body::UntilClosed => st,
    }
}

// Behind a head whose host rule is kept: what is stated of the length.
fn head_body(st: State, room: &mut [u8], end: usize) -> State
    requires sane_line { SaneLine st.present st.control.end × SaneCounts st × (head_most ≤ length room.old) }
    requires end_le_host { st.control.given ≡ false → (st.control.end ≤ st.control.host) × (st.control.host + st.control.hostlen ≤ st.present.from) }
    ensures { Gives (on_body st room.old end (body_answer (request_body end st.notes.framing))) result room.new }
{
    let n = st.notes;
    let f = n.framing;
    let b = request_body(f, end);
    match b {
        Ok(body) => {
            let s = settled(st, room);
            content_from(s, end, body)
        }
        Err(e) => refused(st, e.number, e.place),
    }
}

// Behind the empty line.
fn head_end(st: State, room: &mut [u8]) -> State
    requires { SaneLine st.present st.control.end × SaneCounts st × (head_most ≤ length room.old) }
    ensures { Gives (head_end st room.old) result room.new }
{
    let end = st.present.at + 2;
    let t = octets::class_table();
    if is_hosted(&t, st, room) {
        return head_body(st, room, end);
    }
    refused(st, Refusal::BadHost as u32, end)
}

// A Host line's value stands at a place, where the target has no authority.
fn host_from(c: Control, host: usize, len: usize) -> Control
    ensures { result ≡ host_from c host len }
{
    if c.given {
        return c;
    }
    Control {
        host,
        hostlen: len,
        ..c
    }
}

// The same of a line of any kind.
fn host_at(kind: Kind, c: Control, host: usize, len: usize) -> Control
    ensures { result ≡ host_at kind c host len }
{
    match kind {
        Kind::Host => host_from(c, host, len),
        _ => c,
    }
}

// Behind a field line of a kind, when this is noted of the section and what is kept ends at `end`.
fn field_noted(st: State, kind: Kind, notes: Notes, len: usize, end: usize) -> State
    requires { SaneLine st.present st.control.end × SaneCounts st }
    ensures { result ≡ field_noted st kind notes len end }
{
    let l = st.present;
    let old = st.control;
    let c = host_at(kind, old, l.from + 1, len);
    let p = next_line(l, end);
    let s = with_control(st, c);
    let x = st.phase;
    let q = in_section(s, x, p, st.lines + 1, notes);
    begin_line(q)
}

// A field line whose name has `name` octets, and whose value has `len` octets from `value` on.
fn field_held(st: State, room: &mut [u8], name: usize, value: usize, len: usize) -> State
    requires { SaneLine st.present st.control.end × SaneCounts st × (head_most ≤ length room.old) × (name < value) × (value + len < st.present.have) }
    ensures { Gives (field_held st room.old (kind_of (map lower_of (take name (drop st.present.from room.old)))) name value len) result room.new }
{
    let from = st.present.from;
    let at = st.present.at;
    let to = from + name;
    let kind = kind_of(&room[from..to]);
    let start = from + value;
    let end = start + len;
    let old = st.notes;
    let notes = note(old, kind, at, at + value, &room[start..end], true);
    let n = keep(room, kind, from, name, start, len);
    field_noted(st, kind, notes, len, from + n)
}

// Behind a line of the head.
pub(crate) fn field_in(st: State, room: &mut [u8]) -> State
    requires { SaneLine st.present st.control.end × SaneCounts st × (head_most ≤ length room.old) }
    ensures { Gives (field_in st room.old) result room.new }
{
    let l = st.present;
    let from = l.from;
    let n = text_len(l);
    if n == 0 {
        return head_end(st, room);
    }
    if Limits::LINES <= st.lines {
        return refused(st, Refusal::TooLarge as u32, l.at);
    }
    let to = from + n;
    let t = octets::class_table();
    match field_line(&t, &room[from..to]) {
        Some(f) => field_held(st, room, f.name, f.value, f.len),
        None => refused(st, Refusal::BadSyntax as u32, l.at),
    }
}
