// Changing a bundle, and what that is to do to the table beside it. Everything is judged before the first octet is written, so that a refused call alters
// nothing.
#![tactic(auto)]

pub mod delivery; // delivery.rt: marking an entry as delivered, and the sweep
pub mod tables; // tables.rt: all records of a table at once: the rebuild

ghost use Rattle.std.specs.Prelude.{◌≡◌, cond, true, ◌+◌, ◌≤◌, leb, length, take};
ghost use Rattle.octets.specs.Limits.{binary_most, flocks_most};
ghost use Rattle.output.specs.Splice.{splice};
ghost use Rattle.output.specs.Reply.{ServedAt};
ghost use Rattle.messages.specs.Told.{plain as told_plain};
ghost use Rattle.turn.specs.Turn.{binary_to_binary};
ghost use Rattle.bundle.specs.Bundle.{head_of, head_octets, is_flock, read_message, walk};
ghost use Rattle.bundle.specs.Answers.{bundle_of};
ghost use Rattle.bundle_edit.specs.Append.{message_entry, behind_bundle, buffer_reply, append_reply, plan_of, long_in, Planned, Fair, new_record};
ghost use Rattle.flock_table.specs.Table.{plus as plus_of};

use binary_reader::whole::read_binary;
use bundle::entry::is_flock;
use bundle::reader::read_bundle;
use bundle::{Bundle, Head};
use flock_table::{Flock, is_table, plus};
use messages::call::plain;
use octets::{Limits, Refusal, Refused};
use output::Written;
use turning::from_binary::binary_to_binary;

// What a call that changes a bundle answers, flat: which record of a table is to be changed, if any, by how many octets of message; number, place, the used
// length afterwards; integers that were not in their shortest form.
#[derive(Clone, Copy)]
pub struct Plan {
    pub index: Option<usize>,
    pub size: u32,
    pub number: u32,
    pub place: usize,
    pub used: usize,
    pub long: usize,
}

// What a call that changes all records of a table answers, flat: what is done to each (the number of a Kind, and any other number leaves it), number, place, the
// used length afterwards; and the records it is done with, three numbers each.
#[derive(Clone, Copy)]
pub struct Changes {
    pub kind: u32,
    pub number: u32,
    pub place: usize,
    pub used: usize,
    pub counts: [u32; 381],
}

// What is done to each record, with its number: it is left, put, or taken off.
#[derive(Clone, Copy)]
pub enum Kind {
    Leaves = 0,
    Puts = 1,
    TakesOff = 2,
}

// An entry: where it begins, its head.
#[derive(Clone, Copy)]
struct Found {
    at: usize,
    word: u32,
}

// The plan of a writer's answer.
fn plan_of(room: usize, used: usize, flock: u32, w: Written, long: usize) -> Plan
    requires { Fair room used flock w }
    ensures { result ≡ plan_of used flock long w }
{
    match w {
        Err(e) => Plan {
            index: None,
            size: 0,
            number: e.number,
            place: e.place,
            used,
            long: 0,
        },
        Ok(n) => Plan {
            index: Some(flock as usize - 1),
            size: (n - 4) as u32,
            number: 0,
            place: 0,
            used: used + n,
            long,
        },
    }
}

// The head of an undelivered entry.
fn head_word(flock: u32, kind: u8, n: usize) -> u32
    requires { (flock ≤ flocks_most) × (kind ≤ 1) × (n ≤ binary_most) }
    ensures { result ≡ head_of flock 0 kind n }
{
    flock * Head::FLOCK + kind as u32 * Head::KIND + n as u32
}

// A head into the four octets from a place on.
fn put_head(buf: &mut [u8], at: usize, word: u32)
    requires { at + 4 ≤ length buf.old }
    ensures { buf.new ≡ splice buf.old at (head_octets word) }
{
    buf[at] = (word / 256 / 256 / 256 % 256) as u8;
    buf[at + 1] = (word / 256 / 256 % 256) as u8;
    buf[at + 1 + 1] = (word / 256 % 256) as u8;
    buf[at + 1 + 1 + 1] = (word % 256) as u8;
}

// Where the message of an entry at `used` begins: behind its head, or at the end of a buffer that has no room for the head.
fn behind_head(size: usize, used: usize) -> usize
    requires { used ≤ size }
    ensures { result ≡ cond (leb (used + 4) size) (used + 4) size }
{
    if size - used < 4 {
        return size;
    }
    used + 4
}

// The message, which answers no HEAD, anew into the buffer from a place on: the only loan.
fn lend_behind(message: &[u8], buf: &mut [u8], from: usize) -> Written
    requires { from ≤ length buf.old }
    ensures { ServedAt (binary_to_binary (told_plain 0) message.now) from buf.old buf.new result }
{
    let told = plain(0);
    binary_to_binary(message, told, &mut buf[from..])
}

// The message as an entry at `used`: written behind its head first, the head last.
fn put_entry(buf: &mut [u8], used: usize, flock: u32, message: &[u8]) -> Written
    requires { (used ≤ length buf.old) × (is_flock flock ≡ true) }
    ensures { ServedAt (message_entry flock message.now) used buf.old buf.new result }
{
    let from = behind_head(buf.len(), used);
    let n = lend_behind(message, buf, from)?;
    let kind = buf[from];
    let word = head_word(flock, kind, n);
    put_head(buf, used, word);
    Ok(n + 4)
}

// The bundle that the first octets of a buffer are.
pub(crate) fn front_bundle(buf: &[u8], used: usize) -> Bundle
    requires { used ≤ length buf.now }
    ensures { result ≡ bundle_of (walk (take used buf.now)) }
{
    read_bundle(&buf[..used])
}

// Bundle, count and flock judged, then the entry put.
fn append_entry(buf: &mut [u8], used: usize, flock: u32, message: &[u8]) -> Written
    requires { used ≤ length buf.old }
    ensures { ServedAt (behind_bundle buf.old used flock message.now) used buf.old buf.new result }
{
    let b = front_bundle(buf, used);
    if b.number == 0 {
        if b.count < Limits::ENTRIES {
            if is_flock(flock) {
                return put_entry(buf, used, flock, message);
            }
            return Err(Refusal::BadEntry.at(0));
        }
        return Err(Refusal::TooLarge.at(0));
    }
    Err(Refused {
        number: b.number,
        place: b.end,
    })
}

// The same with a used length that may be past the buffer.
fn append_within(buf: &mut [u8], used: usize, flock: u32, message: &[u8]) -> Written
    ensures { ServedAt (buffer_reply buf.old used flock message.now) used buf.old buf.new result }
{
    if used <= buf.len() {
        return append_entry(buf, used, flock, message);
    }
    Err(Refusal::NoRoom.at(0))
}

// The same beside a table of n records.
fn append_beside(n: usize, buf: &mut [u8], used: usize, flock: u32, message: &[u8]) -> Written
    ensures { ServedAt (append_reply n buf.old used flock message.now) used buf.old buf.new result }
{
    if is_table(n) {
        return append_within(buf, used, flock, message);
    }
    Err(Refusal::BadTable.at(0))
}

// How many integers of the message are not in their shortest form.
fn long_forms(message: &[u8]) -> usize
    ensures { result ≡ long_in (read_message message.now) }
{
    let told = plain(0);
    let m = read_binary(message, told);
    let o = m.outcome;
    match o {
        Ok(r) => return r.long,
        Err(_) => return 0,
    }
}

// A Binary message behind a bundle of `used` octets in the buffer, as an undelivered entry of the flock, beside a table of n records.
pub fn append(n: usize, buf: &mut [u8], used: usize, flock: u32, message: &[u8]) -> Plan
    ensures { Planned n buf.old used flock message.now buf.new result }
{
    let room = buf.len();
    let w = append_beside(n, buf, used, flock, message);
    plan_of(room, used, flock, w, long_forms(message))
}

// A record with a new entry of so many octets of message.
pub fn enter(old: Flock, size: u32) -> Flock
    ensures { result ≡ plus_of old (new_record size) }
{
    let new = Flock {
        entries: 1,
        bytes: size,
        undelivered: 1,
    };
    plus(old, new)
}
