// All records of a table at once: the records of a bundle's entries as numbers, three each; the rebuild; one record's change.
ghost use Rattle.std.specs.Prelude.{◌≡◌, cond, true, ◌+◌, ◌-◌, ◌*◌, ◌≤◌, eqb, length, replicate};
ghost use Rattle.output.specs.Splice.{splice};
ghost use Rattle.bundle.specs.Bundle.{flock_of, delivered_of, is_flock, walk};
ghost use Rattle.flock_table.specs.Table.{picked, table_of, plus as plus_of};
ghost use Rattle.bundle_edit.specs.Changes.{record_numbers, table_numbers, record_at, head_record, is_counted, changed, refused_changes, rebuild_changes};

use crate::{Changes, Kind};
use bundle::Head;
use bundle::entry::word_at;
use bundle::reader::read_bundle;
use flock_table::{Flock, is_table, minus, plus};
use octets::Refusal;

// The k-th record.
fn record_at(counts: &[u32], k: usize) -> Flock
    requires { k * 3 + 3 ≤ length counts.now }
    ensures { result ≡ record_at counts.now k }
{
    Flock {
        entries: counts[k * 3],
        bytes: counts[k * 3 + 1],
        undelivered: counts[k * 3 + 2],
    }
}

// The k-th record is this one.
fn store_record(counts: &mut [u32], k: usize, r: Flock)
    requires { k * 3 + 3 ≤ length counts.old }
    ensures { counts.new ≡ splice counts.old (k * 3) (record_numbers r) }
{
    let at = k * 3;
    counts[at] = r.entries;
    counts[at + 1] = r.bytes;
    counts[at + 1 + 1] = r.undelivered;
}

// This record is added to the k-th one.
fn add_record(counts: &mut [u32], k: usize, s: Flock)
    requires { k * 3 + 3 ≤ length counts.old }
    ensures { counts.new ≡ splice counts.old (k * 3) (record_numbers (plus_of (record_at counts.old k) s)) }
{
    let old = record_at(counts, k);
    let new = plus(old, s);
    store_record(counts, k, new);
}

// Whether the entry of this head is delivered.
pub(crate) fn is_delivered(word: u32) -> bool
    ensures { result ≡ eqb (delivered_of word) 1 }
{
    word / Head::DELIVERED % 2 == 1
}

// Whether it is counted, where all entries are or those that are delivered.
fn is_counted(all: bool, word: u32) -> bool
    ensures { result ≡ cond all true (eqb (delivered_of word) 1) }
{
    if all {
        return true;
    }
    is_delivered(word)
}

// The record of one entry.
fn head_record(word: u32) -> Flock
    ensures { result ≡ head_record word }
{
    Flock {
        entries: 1,
        bytes: word % Head::KIND,
        undelivered: 1 - word / Head::DELIVERED % 2,
    }
}

// The entry of this head is added to its flock's record, if it is counted.
fn count_if(counts: &mut [u32], word: u32, counted: bool)
    requires { (length counts.old ≡ 381) × (is_flock (flock_of word) ≡ true) }
    ensures { counts.new ≡ cond counted (splice counts.old ((flock_of word - 1) * 3)
        (record_numbers (plus_of (record_at counts.old (flock_of word - 1)) (head_record word)))) counts.old }
{
    if counted {
        let s = head_record(word);
        let k = (word / Head::FLOCK) as usize - 1;
        add_record(counts, k, s);
    }
}

// The records of the counted entries, of a bundle that has so many.
pub(crate) fn count_entries(s: &[u8], count: usize, all: bool, counts: &mut [u32])
    requires count_value { count ≡ length (walk s.now).entries }
    requires counts_value { counts.old ≡ replicate 381 0 }
    ensures { counts.new ≡ table_numbers (table_of (picked (is_counted all) (walk s.now).entries)) }
{
    let mut at = 0;
    for _i in 0..count {
        let word = word_at(s, at);
        count_if(counts, word, is_counted(all, word));
        at += 4 + (word % Head::KIND) as usize;
    }
}

// A refusal changes no record.
pub(crate) fn refuse_changes(used: usize, number: u32, place: usize) -> Changes
    ensures { result ≡ refused_changes used number place }
{
    Changes {
        kind: Kind::Leaves as u32,
        number,
        place,
        used,
        counts: [0u32; 381],
    }
}

// The table of a bundle, for a table of n records.
pub fn rebuild(n: usize, s: &[u8]) -> Changes
    ensures { result ≡ rebuild_changes n s.now }
{
    if is_table(n) {
        let b = read_bundle(s);
        if b.number == 0 {
            let mut counts = [0u32; 381];
            count_entries(s, b.count, true, &mut counts);
            return Changes {
                kind: Kind::Puts as u32,
                number: 0,
                place: 0,
                used: s.len(),
                counts,
            };
        }
        return refuse_changes(s.len(), b.number, b.end);
    } else {
        return refuse_changes(s.len(), Refusal::BadTable as u32, 0);
    }
}

// The k-th record afterwards.
pub fn change(old: Flock, c: Changes, k: usize) -> Flock
    ensures { result ≡ changed c k old }
{
    if k < 127 {
        let s = Flock {
            entries: c.counts[k * 3],
            bytes: c.counts[k * 3 + 1],
            undelivered: c.counts[k * 3 + 2],
        };
        if c.kind == Kind::Puts as u32 {
            return s;
        }
        if c.kind == Kind::TakesOff as u32 {
            return minus(old, s);
        }
    }
    old
}
