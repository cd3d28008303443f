// Fields that Connection lines name, dropped from a section that was read: those behind them move up.
ghost use Rattle.std.specs.Prelude.{◌≡◌, [], ◌∷◌, map, ◌+◌, ◌-◌, ◌*◌, ◌≤◌, ◌<◌, length, get_or};
ghost use Rattle.octets.specs.Text.{lower_of, same_text};
ghost use Rattle.output.specs.Splice.{splice, part};
ghost use Rattle.messages.specs.Names.{unnamed};
ghost use Rattle.ranges.specs.Entries.{field_in, fields_in};
ghost use Rattle.ranges.specs.Connections.{values_in, without_name, FieldsFrom, ValuesFrom, Dropped, LinesGathered, Kept};
ghost use Rattle.messages.specs.Room.{section_room};

use crate::{keep, number_at};
use messages::lists::member_at;
use octets::{Limits, same_name};

// Whether the entry k is of this name, in lower case both.
fn has_name(s: &[u8], ranges: &[u32], k: usize, name: &[u8]) -> bool
    requires { (k * 4 + 4 ≤ length ranges.now) × (get_or ranges.now (k * 4) 0 + get_or ranges.now (k * 4 + 1) 0 ≤ length s.now) }
    ensures { result ≡ same_text (map lower_of name.now) (map lower_of (field_in s.now ranges.now k).name.text) }
{
    let len = number_at(ranges, k * 4 + 1);
    if len == name.len() {
        let start = number_at(ranges, k * 4);
        let end = start + len;
        return same_name(name, &s[start..end]);
    }
    false
}

// The entry i takes the place of the entry k, which stands before it or is it; the answer is the entry behind that.
fn move_entry(out: &mut [u32], k: usize, i: usize) -> usize
    requires { (k ≤ i) × (i * 4 + 4 ≤ length out.old) }
    ensures { (out.new ≡ splice out.old (k * 4) (part out.old (i * 4) 4)) × (result ≡ k + 1) }
{
    if k < i {
        let at = i * 4;
        let name = out[at];
        let nlen = out[at + 1];
        let value = out[at + 1 + 1];
        let vlen = out[at + 1 + 1 + 1];
        return keep(out, k, true, name, nlen, value, vlen);
    }
    k + 1
}

// The fields of this name are dropped.
fn drop_member(s: &[u8], out: &mut [u32], base: usize, count: usize, name: &[u8]) -> usize
    requires { FieldsFrom s.now base count out.old }
    ensures { Dropped s.now base count
        (without_name name.now (fields_in s.now out.old base (count - base))) out.old out.new result }
{
    let mut k = base;
    for i in base..count {
        if !has_name(s, out, i, name) {
            k = move_entry(out, k, i);
        }
    }
    k
}

// The fields that one of the members of a Connection value names are dropped.
fn drop_members(s: &[u8], out: &mut [u32], base: usize, count: usize, value: &[u8]) -> usize
    requires { FieldsFrom s.now base count out.old }
    ensures { Dropped s.now base count
        (unnamed (value.now ∷ []) (fields_in s.now out.old base (count - base))) out.old out.new result }
{
    let mut k = count;
    let mut from = 0;
    loop {
        let m = member_at(value, from);
        let start = m.start;
        let end = start + m.len;
        k = drop_member(s, out, base, k, &value[start..end]);
        if value.len() <= m.end {
            return k;
        }
        from = m.end + 1;
    }
}

// The fields that one of the Connection values names are dropped.
fn drop_values(s: &[u8], out: &mut [u32], base: usize, count: usize, connections: usize) -> usize
    requires { ValuesFrom s.now base count connections out.old }
    ensures { Dropped s.now base count
        (unnamed (values_in s.now out.old base 0 connections) (fields_in s.now out.old base (count - base)))
        out.old out.new result }
{
    let mut k = count;
    for i in 0..connections {
        let at = base * 4 + (Limits::LINES * 4 - (i + 1) * 2);
        let start = number_at(out, at);
        let end = start + number_at(out, at + 1);
        k = drop_members(s, out, base, k, &s[start..end]);
    }
    k
}

// The fields of a section that was read behind `base` fields, up to the field `count`: of a header section those that one of its Connection lines names are
// dropped, in trailers none.
pub fn drop_named(
    s: &[u8],
    out: &mut [u32],
    headers: bool,
    base: usize,
    count: usize,
    connections: usize,
) -> usize
    requires { LinesGathered s.now base count connections out.old × (base * 4 + section_room ≤ length out.old) }
    ensures { Kept s.now headers base count connections out.old out.new result }
{
    if headers {
        if 0 < connections {
            return drop_values(s, out, base, count, connections);
        }
    }
    count
}
