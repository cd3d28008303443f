// The judges of single lines, without their CR LF. What a promise says of a lent table is given that it is the one of `octets::class_table`.
ghost use Rattle.std.specs.Prelude.{◌≡◌, true, ◌+◌, ◌-◌, ◌≤◌, ◌<◌, length, take, drop};
ghost use Rattle.octets.specs.Table.{classes, has_in};
ghost use Rattle.octets.specs.Class.{value, is_blank};
ghost use Rattle.octets.specs.Text.{span_len, all};
ghost use Rattle.numbers.specs.Digits.{digit_of};
ghost use Rattle.http1_lines.specs.Next.{NameEnds, of_field, line_judged, next_line};
ghost use Rattle.http1_lines.specs.Lines.{value_from, value_in, field_lens, chunk_lens};
ghost use Rattle.http1_lines.specs.Lines.{status_at, status_version, is_status_shape, status_lens};
ghost use Rattle.http1_lines.specs.Lines.{request_parts, request_version, request_lens};

use super::targets::request_target;
use super::{FieldLine, NextLine, RequestLine};
use messages::parts::{is_options, method_verdict, status_verdict};
use numbers::{digit, hexadecimal};
use octets::{Class, Refusal, all_of, blank_end, equal, find, span, trim_len};
use script::{Line, line_end};

// Whether all octets from `from` on are those of a value, by the table that is lent.
fn is_value_from(t: &[u8; 256], w: &[u8], from: usize) -> bool
    ensures { result ≡ all (has_in t.now value) (drop from w.now) }
{
    if w.len() <= from {
        return true;
    }
    all_of(t, &w[from..], Class::VALUE)
}

// The value of the field whose name has `name` octets, from `from` on.
fn value_in(t: &[u8; 256], w: &[u8], name: usize, from: usize) -> Option<FieldLine>
    requires { from ≤ length w.now }
    ensures { t.now ≡ classes → result ≡ value_in w.now name from }
{
    if span(t, w, from, Class::VALUE) == w.len() {
        return Some(trimmed(w, name, from));
    }
    None
}

// The field whose name has `name` octets and whose value stands from `from` on, blanks around it.
fn trimmed(w: &[u8], name: usize, from: usize) -> FieldLine
    requires { from ≤ length w.now }
    ensures { result ≡ value_from w.now name (from + span_len is_blank (drop from w.now)) }
{
    let b = blank_end(w, from);
    let len = trim_len(&w[b..]);
    FieldLine {
        name,
        value: b,
        len,
    }
}

// How long the name at the front of a field line is, where a colon stands behind it; else 0. By any table, what is not 0 is a place in the line.
fn name_len(t: &[u8; 256], w: &[u8]) -> usize
    ensures { (result ≤ length w.now - 1) × (t.now ≡ classes → NameEnds w.now result) }
{
    let n = span(t, w, 0, Class::TOKEN);
    if w.len() <= n {
        return 0;
    }
    if w[n] == b':' {
        return n;
    }
    0
}

// A field line whose octets are all those of a value.
fn plain_line(t: &[u8; 256], w: &[u8]) -> Option<FieldLine>
    requires { all (has_in t.now value) w.now ≡ true }
    ensures { t.now ≡ classes → result ≡ field_lens w.now }
{
    let n = name_len(t, w);
    if n == 0 {
        return None;
    }
    Some(trimmed(w, n, n + 1))
}

// Any field line.
pub fn field_line(t: &[u8; 256], w: &[u8]) -> Option<FieldLine>
    ensures { t.now ≡ classes → result ≡ field_lens w.now }
{
    let n = name_len(t, w);
    if n == 0 {
        return None;
    }
    value_in(t, w, n, n + 1)
}

// A field line as the next one, which ends at `next`.
fn of_field(line: Option<FieldLine>, next: usize) -> NextLine
    ensures { result ≡ of_field next line }
{
    match line {
        Some(f) => NextLine::Field {
            name: f.name,
            value: f.value,
            len: f.len,
            next,
        },
        None => NextLine::NoField,
    }
}

// The line from i to e, whose octets are all those of a value.
fn value_line(t: &[u8; 256], s: &[u8], i: usize, e: usize) -> NextLine
    requires { (i ≤ e) × (e + 2 ≤ length s.now) × (all (has_in t.now value) (take (e - i) (drop i s.now)) ≡ true) }
    ensures { t.now ≡ classes → result ≡ line_judged (take (e - i) (drop i s.now)) (e + 2) }
{
    let next = e + 2;
    if e == i {
        return NextLine::Empty { next };
    }
    let f = plain_line(t, &s[i..e]);
    of_field(f, next)
}

// The line at i, within what is left of its allowance.
fn any_line(t: &[u8; 256], s: &[u8], i: usize, left: usize) -> NextLine
    ensures { t.now ≡ classes → result ≡ next_line s.now i left }
{
    let l = line_end(s, i, left);
    match l {
        Line::More => return NextLine::More,
        Line::Bad => return NextLine::Bad,
        Line::Long => return NextLine::Long,
        Line::Ends(next) => {
            let e = next - 2;
            if e == i {
                return NextLine::Empty { next };
            }
            let f = field_line(t, &s[i..e]);
            return of_field(f, next);
        }
    }
}

// The same in one walk over a line of which nothing but its end is to be refused.
pub fn next_line(t: &[u8; 256], s: &[u8], i: usize, left: usize) -> NextLine
    ensures { t.now ≡ classes → result ≡ next_line s.now i left }
{
    let e = span(t, s, i, Class::VALUE);
    if e < s.len() {
        if 2 <= s.len() - e {
            if s[e] == b'\r' {
                if s[e + 1] == b'\n' {
                    if e + 2 - i <= left {
                        return value_line(t, s, i, e);
                    }
                }
            }
        }
    }
    any_line(t, s, i, left)
}

// The size of the chunk of a chunk line. (A function of its own in machine code too, as messages::parts::path_verdict is.)
#[inline(never)]
pub fn chunk_line(t: &[u8; 256], w: &[u8]) -> Option<usize>
    ensures { t.now ≡ classes → result ≡ chunk_lens w.now }
{
    let h = find(w, 0, b';');
    let size = hexadecimal(&w[..h]);
    match size {
        Some(n) => {
            if is_value_from(t, w, h + 1) {
                return Some(n);
            } else {
                return None;
            }
        }
        None => return None,
    }
}

fn digit_value(b: u8) -> usize
    ensures { (result ≡ digit_of b) × (result ≤ 255) }
{
    digit(b)
}

// The value of three digits from d on.
fn status_at(w: &[u8], d: usize) -> usize
    requires { d + 3 ≤ length w.now }
    ensures { (result ≡ status_at w.now d) × (result ≤ 28305) }
{
    let a = digit_value(w[d]);
    let b = digit_value(w[d + 1]);
    let c = digit_value(w[d + 2]);
    a * 100 + b * 10 + c
}

// The version and the status, around the first space at v.
fn status_version(w: &[u8], v: usize) -> Result<u32, Refusal>
    requires { v + 5 ≤ length w.now }
    ensures { result ≡ status_version w.now v }
{
    if equal(&w[..v], b"HTTP/1.1") {
        let n = status_at(w, v + 1);
        status_verdict(n)?;
        return Ok(n as u32);
    } else {
        return Err(Refusal::BadVersion);
    }
}

// Whether three digits, a space and a reason stand behind the first space at v.
fn is_status_shape(t: &[u8; 256], w: &[u8], v: usize) -> bool
    requires { v ≤ length w.now }
    ensures { (result ≡ true → v + 5 ≤ length w.now) × (t.now ≡ classes → result ≡ is_status_shape w.now v) }
{
    if w.len() < v + 5 {
        return false;
    }
    if 10 <= digit(w[v + 1]) {
        return false;
    }
    if 10 <= digit(w[v + 2]) {
        return false;
    }
    if 10 <= digit(w[v + 3]) {
        return false;
    }
    if w[v + 4] == b' ' {
        return is_value_from(t, w, v + 5);
    }
    false
}

pub fn status_line(t: &[u8; 256], w: &[u8]) -> Result<u32, Refusal>
    ensures { t.now ≡ classes → result ≡ status_lens w.now }
{
    let v = find(w, 0, b' ');
    if is_status_shape(t, w, v) {
        return status_version(w, v);
    } else {
        return Err(Refusal::BadSyntax);
    }
}

// Method and target, of so many octets.
fn request_parts(
    t: &[u8; 256],
    scheme: u32,
    w: &[u8],
    m: usize,
    p: usize,
) -> Result<RequestLine, Refusal>
    requires { m + 1 + p ≤ length w.now }
    ensures { t.now ≡ classes → result ≡ request_parts scheme w.now m p }
{
    method_verdict(t, &w[..m])?;
    let options = is_options(&w[..m]);
    let a = m + 1;
    let e = a + p;
    let target = request_target(t, scheme, options, &w[a..e])?;
    Ok(RequestLine { method: m, target })
}

// What stands behind the second space, at e; then method and target.
fn request_version(
    t: &[u8; 256],
    scheme: u32,
    w: &[u8],
    m: usize,
    e: usize,
) -> Result<RequestLine, Refusal>
    requires { (m < e) × (e < length w.now) }
    ensures { t.now ≡ classes → result ≡ request_version scheme w.now m e }
{
    let v = e + 1;
    if find(w, v, b' ') == w.len() {
        if equal(&w[v..], b"HTTP/1.1") {
            return request_parts(t, scheme, w, m, e - (m + 1));
        } else {
            return Err(Refusal::BadVersion);
        }
    }
    Err(Refusal::BadSyntax)
}

// A request line on a connection of the scheme told.
pub fn request_line(t: &[u8; 256], scheme: u32, w: &[u8]) -> Result<RequestLine, Refusal>
    ensures { t.now ≡ classes → result ≡ request_lens scheme w.now }
{
    let m = find(w, 0, b' ');
    if w.len() <= m {
        return Err(Refusal::BadSyntax);
    }
    let e = find(w, m + 1, b' ');
    if w.len() <= e {
        return Err(Refusal::BadSyntax);
    }
    request_version(t, scheme, w, m, e)
}
