// The list of one flock: its entries' octets, copied in order.
ghost use Rattle.std.specs.Prelude.{◌≡◌, cond, ◌+◌, ◌≤◌, eqb, length};
ghost use Rattle.output.specs.Reply.{writes, Served};
ghost use Rattle.bundle.specs.Bundle.{flock_of, walk, list_octets, flock_list};
ghost use Rattle.bundle.specs.Answers.{PickedPut, ListPut};

use crate::Head;
use crate::entry::{is_flock, word_at};
use crate::reader::read_bundle;
use octets::{Refusal, Refused};
use output::{Written, put_part};

// Whether the entry of this head is the flock's, delivered or not.
fn is_of(word: u32, flock: u32) -> bool
    ensures { result ≡ eqb (flock_of word) flock }
{
    word / Head::FLOCK == flock
}

// So much, if it is picked.
fn size_if(picked: bool, n: usize) -> usize
    ensures { result ≡ cond picked n 0 }
{
    if picked {
        return n;
    }
    0
}

// The n octets of s from a place on, if they are picked.
fn put_if(out: &mut [u8], o: usize, s: &[u8], at: usize, n: usize, picked: bool) -> usize
    ensures { PickedPut picked s.now at n out.old o out.new result }
{
    if picked {
        return put_part(out, o, s, at, n);
    }
    o
}

// How long the list is, of a bundle that has so many entries.
fn list_size(s: &[u8], count: usize, flock: u32) -> usize
    requires { count ≡ length (walk s.now).entries }
    ensures { result ≡ length (list_octets flock (walk s.now)) }
{
    let mut at = 0;
    let mut size = 0;
    for _i in 0..count {
        let word = word_at(s, at);
        let n = 4 + (word % Head::KIND) as usize;
        size += size_if(is_of(word, flock), n);
        at += n;
    }
    size
}

// The list into room for it.
fn put_list(s: &[u8], count: usize, flock: u32, out: &mut [u8]) -> usize
    requires count_value { count ≡ length (walk s.now).entries }
    requires s_in_bounds { length (list_octets flock (walk s.now)) ≤ length out.old }
    ensures { ListPut flock (walk s.now) out.old out.new result }
{
    let mut at = 0;
    let mut o = 0;
    for _i in 0..count {
        let word = word_at(s, at);
        let n = 4 + (word % Head::KIND) as usize;
        o = put_if(out, o, s, at, n, is_of(word, flock));
        at += n;
    }
    o
}

// The list, or 13 at 0 where it does not fit.
fn write_list(s: &[u8], count: usize, flock: u32, out: &mut [u8]) -> Written
    requires { count ≡ length (walk s.now).entries }
    ensures { Served (writes (list_octets flock (walk s.now))) out.old out.new result }
{
    let n = list_size(s, count, flock);
    if out.len() < n {
        return Err(Refusal::NoRoom.at(0));
    }
    Ok(put_list(s, count, flock, out))
}

// The list of a flock. A refusal writes nothing.
pub fn flock_list(s: &[u8], flock: u32, out: &mut [u8]) -> Written
    ensures { Served (flock_list flock s.now) out.old out.new result }
{
    let b = read_bundle(s);
    if b.number == 0 {
        if is_flock(flock) {
            return write_list(s, b.count, flock, out);
        }
        return Err(Refusal::BadEntry.at(0));
    }
    Err(Refused {
        number: b.number,
        place: b.end,
    })
}
