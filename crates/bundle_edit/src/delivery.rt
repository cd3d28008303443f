// Marking an entry as delivered, and the sweep of those that are.
ghost use Rattle.std.specs.Prelude.{◌≡◌, cond, true, false, ◌+◌, ◌≤◌, ◌<◌, eqb, length, take, drop, get_or, set, replicate};
ghost use Rattle.output.specs.Splice.{splice, part};
ghost use Rattle.bundle.specs.Bundle.{word_of, flock_of, delivered_of, is_flock, walk};
ghost use Rattle.flock_table.specs.Table.{picked, is_delivered, table_of, minus as minus_of};
ghost use Rattle.bundle_edit.specs.Changes.{table_numbers};
ghost use Rattle.bundle_edit.specs.Delivery.{idle_plan, marking_plan, one_undelivered, mark_plan_of, marked_of, kept_octets};
ghost use Rattle.bundle_edit.specs.Delivery.{judged_call, Finds, Marks, Sweeps, entry_place};

use crate::tables::{count_entries, is_delivered, refuse_changes};
use crate::{Changes, Found, Kind, Plan, front_bundle};
use bundle::Head;
use bundle::entry::word_at;
use flock_table::{Flock, is_table, minus};
use octets::{Refusal, Refused};

// A plan without a record to change.
fn idle_plan(used: usize, number: u32, place: usize) -> Plan
    ensures { result ≡ idle_plan used number place }
{
    Plan {
        index: None,
        size: 0,
        number,
        place,
        used,
        long: 0,
    }
}

// The table, the used length and the bundle, in this order: how many entries there are.
fn judge(n: usize, buf: &[u8], used: usize) -> Result<usize, Refused>
    ensures { result ≡ judged_call n buf.now used }
{
    if is_table(n) {
        if used <= buf.len() {
            let b = front_bundle(buf, used);
            if b.number == 0 {
                return Ok(b.count);
            }
            return Err(Refused {
                number: b.number,
                place: b.end,
            });
        }
        return Err(Refusal::NoRoom.at(0));
    }
    Err(Refusal::BadTable.at(0))
}

// Where the i-th entry begins, of a bundle that has so many.
fn entry_place(s: &[u8], count: usize, i: usize) -> usize
    requires { (count ≡ length (walk s.now).entries) × (i < count) }
    ensures { result ≡ entry_place (walk s.now).entries i }
{
    let mut at = 0;
    for _k in 0..i {
        let word = word_at(s, at);
        at += 4 + (word % Head::KIND) as usize;
    }
    at
}

// The i-th entry of the bundle that s is: its place, its head.
fn entry_in(s: &[u8], count: usize, i: usize) -> Found
    requires { (count ≡ length (walk s.now).entries) × (i < count) }
    ensures { Finds s.now (walk s.now).entries i result.at result.word }
{
    let at = entry_place(s, count, i);
    let word = word_at(s, at);
    Found { at, word }
}

// The i-th entry of the bundle that the first `used` octets of the buffer are.
fn find_entry(buf: &[u8], used: usize, count: usize, i: usize) -> Found
    requires used_in_bounds { used ≤ length buf.now }
    requires count_value { (count ≡ length (walk (take used buf.now)).entries) × (i < count) }
    ensures { Finds buf.now (walk (take used buf.now)).entries i result.at result.word }
{
    entry_in(&buf[..used], count, i)
}

// The mark of an undelivered entry whose head stands there.
fn set_mark(buf: &mut [u8], at: usize, word: u32)
    requires { (at + 4 ≤ length buf.old) × (word ≡ word_of (drop at buf.old)) × (eqb (delivered_of word) 1 ≡ false) }
    ensures { buf.new ≡ set buf.old at (get_or buf.old at 0 + 1) }
{
    buf[at] = buf[at] + 1;
}

// The plan for an entry of this head.
fn marking_plan(used: usize, word: u32) -> Plan
    requires { is_flock (flock_of word) ≡ true }
    ensures { result ≡ marking_plan used word }
{
    Plan {
        index: Some((word / Head::FLOCK) as usize - 1),
        size: 0,
        number: 0,
        place: 0,
        used,
        long: 0,
    }
}

// The entry i of so many is marked, or left where it is delivered already.
fn mark_entry(buf: &mut [u8], used: usize, count: usize, i: usize) -> Plan
    requires used_in_bounds { used ≤ length buf.old }
    requires count_value { count ≡ length (walk (take used buf.old)).entries }
    ensures { (result ≡ mark_plan_of used i (walk (take used buf.old)).entries)
        × (buf.new ≡ marked_of buf.old i (walk (take used buf.old)).entries) }
{
    if i < count {
        let f = find_entry(buf, used, count, i);
        let at = f.at;
        let word = f.word;
        if is_delivered(word) {
            return idle_plan(used, 0, 0);
        } else {
            set_mark(buf, at, word);
            return marking_plan(used, word);
        }
    }
    idle_plan(used, Refusal::NoEntry as u32, 0)
}

// The entry of this number, counted from 0, is delivered from now on; beside a table of n records.
pub fn mark(n: usize, buf: &mut [u8], used: usize, entry: usize) -> Plan
    ensures { Marks n buf.old used entry buf.new result }
{
    match judge(n, buf, used) {
        Ok(count) => mark_entry(buf, used, count, entry),
        Err(e) => idle_plan(used, e.number, e.place),
    }
}

// A record with one undelivered entry less.
pub fn lessen(old: Flock) -> Flock
    ensures { result ≡ minus_of old one_undelivered }
{
    let one = Flock {
        entries: 0,
        bytes: 0,
        undelivered: 1,
    };
    minus(old, one)
}

// The records of the delivered entries of the bundle that the first `used` octets of the buffer are.
fn count_delivered(buf: &[u8], used: usize, count: usize, counts: &mut [u32])
    requires used_in_bounds { used ≤ length buf.now }
    requires count_value { count ≡ length (walk (take used buf.now)).entries }
    requires counts_value { counts.old ≡ replicate 381 0 }
    ensures { counts.new ≡ table_numbers (table_of (picked is_delivered (walk (take used buf.now)).entries)) }
{
    count_entries(&buf[..used], count, false, counts);
}

// So many octets from a place on, moved forward.
fn move_forward(buf: &mut [u8], to: usize, from: usize, n: usize)
    requires { (to ≤ from) × (from + n ≤ length buf.old) }
    ensures { buf.new ≡ splice buf.old to (part buf.old from n) }
{
    buf.copy_within(from..from + n, to);
}

// An entry of n octets is moved forward to the end of those that are kept, if it is not delivered.
fn keep_if(buf: &mut [u8], end: usize, at: usize, n: usize, delivered: bool) -> usize
    requires { (end ≤ at) × (at + n ≤ length buf.old) }
    ensures { (result ≡ cond delivered end (end + n))
        × (buf.new ≡ cond delivered buf.old (splice buf.old end (part buf.old at n))) }
{
    if delivered {
        return end;
    }
    if end == at {
        return end + n;
    }
    move_forward(buf, end, at, n);
    end + n
}

// The undelivered entries move forward, in order; their end.
fn keep_entries(buf: &mut [u8], used: usize, count: usize) -> usize
    requires used_in_bounds { used ≤ length buf.old }
    requires count_value { count ≡ length (walk (take used buf.old)).entries }
    ensures { (result ≡ length (kept_octets (walk (take used buf.old)).entries))
        × (buf.new ≡ splice buf.old 0 (kept_octets (walk (take used buf.old)).entries)) }
{
    let mut at = 0;
    let mut end = 0;
    for _i in 0..count {
        let word = word_at(buf, at);
        let n = 4 + (word % Head::KIND) as usize;
        end = keep_if(buf, end, at, n, is_delivered(word));
        at += n;
    }
    end
}

// The delivered entries are swept out of the bundle that the first `used` octets of the buffer are, beside a table of n records.
pub fn sweep(n: usize, buf: &mut [u8], used: usize) -> Changes
    ensures { Sweeps n buf.old used buf.new result }
{
    match judge(n, buf, used) {
        Ok(count) => {
            let mut counts = [0u32; 381];
            count_delivered(buf, used, count, &mut counts);
            let end = keep_entries(buf, used, count);
            Changes {
                kind: Kind::TakesOff as u32,
                number: 0,
                place: 0,
                used: end,
                counts,
            }
        }
        Err(e) => refuse_changes(used, e.number, e.place),
    }
}
