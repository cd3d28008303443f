// A table of flock records that the caller lends, one for each flock: the arithmetic on one record, and where a flock's record stands.
#![tactic(auto)]

ghost use Rattle.std.specs.Prelude.{◌≡◌, eqb};
ghost use Rattle.octets.specs.Limits.{flocks_most};
ghost use Rattle.flock_table.specs.Table as spec;

use bundle::entry::is_flock;
use octets::{Limits, Refusal};

// The record of a flock: how many entries, octets of message and undelivered entries.
#[repr(C)]
#[derive(Clone, Copy)]
pub struct Flock {
    pub entries: u32,
    pub bytes: u32,
    pub undelivered: u32,
}

// What a flock's answer is: 0 and its record, or a refusal's number and place.
#[repr(C)]
#[derive(Clone, Copy)]
pub struct Totals {
    pub number: u32,
    pub place: usize,
    pub entries: u32,
    pub bytes: u32,
    pub undelivered: u32,
}

// A record with another one added to it.
pub fn plus(r: Flock, s: Flock) -> Flock
    ensures { result ≡ spec.plus r s }
{
    Flock {
        entries: r.entries.wrapping_add(s.entries),
        bytes: r.bytes.wrapping_add(s.bytes),
        undelivered: r.undelivered.wrapping_add(s.undelivered),
    }
}

// A record with another one taken off it.
pub fn minus(r: Flock, s: Flock) -> Flock
    ensures { result ≡ spec.minus r s }
{
    Flock {
        entries: r.entries.wrapping_sub(s.entries),
        bytes: r.bytes.wrapping_sub(s.bytes),
        undelivered: r.undelivered.wrapping_sub(s.undelivered),
    }
}

// Whether so many records are a table.
pub fn is_table(n: usize) -> bool
    ensures { result ≡ eqb n flocks_most }
{
    n == Limits::FLOCKS as usize
}

// Where a flock's record stands in a table of n records.
pub fn slot_of(n: usize, flock: u32) -> Result<usize, Refusal>
    ensures { result ≡ spec.slot_of n flock }
{
    if !is_table(n) {
        return Err(Refusal::BadTable);
    }
    if !is_flock(flock) {
        return Err(Refusal::BadEntry);
    }
    Ok(flock as usize - 1)
}

// The answer of a record.
pub fn totals_of(r: Flock) -> Totals
    ensures { result ≡ spec.totals_of r }
{
    Totals {
        number: 0,
        place: 0,
        entries: r.entries,
        bytes: r.bytes,
        undelivered: r.undelivered,
    }
}

// A refusal.
pub fn no_totals(number: u32) -> Totals
    ensures { result ≡ spec.no_totals number }
{
    Totals {
        number,
        place: 0,
        entries: 0,
        bytes: 0,
        undelivered: 0,
    }
}
