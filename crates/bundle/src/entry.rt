// One entry of a bundle: its head, then its message.
ghost use Rattle.std.specs.Prelude.{◌≡◌, ℕ, ◌+◌, ◌≤◌, ◌<◌, eqb, length, take, drop};
ghost use Rattle.octets.specs.Text.{same_text};
ghost use Rattle.octets.specs.Limits.{binary_most};
ghost use Rattle.messages.specs.Message.{Message};
ghost use Rattle.ranges.specs.Ranges.{Held};
ghost use Rattle.bundle.specs.Bundle.{word_of, is_flock, kind_number, message_verdict, headed, next_at};
ghost use Rattle.bundle.specs.Answers.{Lent, FormJudged};

use crate::{Head, Next};
use binary_reader::whole::binary_in;
use binary_writer::write_message;
use messages::call::plain;
use messages::{Record, Stop};
use octets::{ClassTable, Limits, Refusal, equal};

// Whether the number is a flock's.
pub fn is_flock(f: u32) -> bool
    ensures { result ≡ is_flock f }
{
    if f < 1 {
        return false;
    }
    f <= Limits::FLOCKS
}

// An octet as a number.
fn wide(b: u8) -> u32
    ensures { (result ≡ b) × (result < 256) }
{
    b as u32
}

// The head at a place, as a number.
pub fn word_at(s: &[u8], at: usize) -> u32
    requires { at + 4 ≤ length s.now }
    ensures { result ≡ word_of (drop at s.now) }
{
    let a = wide(s[at]);
    let b = wide(s[at + 1]);
    let c = wide(s[at + 2]);
    let d = wide(s[at + 3]);
    ((a * 256 + b) * 256 + c) * 256 + d
}

// Whether the kind is that of a message.
fn is_kind(kind: u32, response: bool) -> bool
    ensures { result ≡ eqb kind (kind_number response) }
{
    if response {
        return kind == 1;
    }
    kind == 0
}

// Whether the first n octets of `a` are s.
fn are_first(a: &[u8], n: usize, s: &[u8]) -> bool
    requires { n ≤ length a.now }
    ensures { result ≡ same_text (take n a.now) s.now }
{
    equal(&a[..n], s)
}

// Whether the octets s of a message that was read are those that the Binary writer writes for it; the scratch is what they are written into.
fn in_form(
    s: &[u8],
    r: Record,
    headers: &[u32],
    heads: &[u32],
    chunks: &[u32],
    trailers: &[u32],
    scratch: &mut [u8],
) -> bool
    requires by_index { (n : ℕ) × (m : Message) × Held s.now n m r headers.now heads.now chunks.now trailers.now }
    requires binary_most_in_bounds { binary_most ≤ length scratch.old }
    ensures { FormJudged s.now r headers.now heads.now chunks.now trailers.now result }
{
    match write_message(s, r, headers, heads, chunks, trailers, scratch) {
        Ok(n) => are_first(scratch, n, s),
        Err(_) => false,
    }
}

// The number of a message's octets under a head of this kind, through working space; 0 is a good one.
fn judge_message(
    t: &ClassTable,
    s: &[u8],
    kind: u32,
    headers: &mut [u32],
    heads: &mut [u32],
    chunks: &mut [u32],
    trailers: &mut [u32],
    scratch: &mut [u8],
) -> u32
    requires { Lent headers.old heads.old chunks.old trailers.old scratch.old }
    ensures { result ≡ message_verdict kind s.now }
{
    let o = binary_in(t, s, plain(0), headers, heads, chunks, trailers);
    match o {
        Err(Stop::More) => return Refusal::MoreNeeded as u32,
        Err(Stop::Refused(e)) => return e.number,
        Ok(r) => {
            if is_kind(kind, r.response) {
                if in_form(s, r, headers, heads, chunks, trailers, scratch) {
                    return 0;
                } else {
                    return Refusal::BadEntry as u32;
                }
            } else {
                return Refusal::BadEntry as u32;
            }
        }
    }
}

// The same, with working space of its own.
fn message_verdict(t: &ClassTable, s: &[u8], kind: u32, scratch: &mut [u8]) -> u32
    requires { binary_most ≤ length scratch.old }
    ensures { result ≡ message_verdict kind s.now }
{
    let mut headers = [0u32; 1280];
    let mut heads = [0u32; 8];
    let mut chunks = [0u32; 512];
    let mut trailers = [0u32; 256];
    judge_message(
        t,
        s,
        kind,
        &mut headers,
        &mut heads,
        &mut chunks,
        &mut trailers,
        scratch,
    )
}

// The entry behind a whole head at the place `at`.
fn headed_entry(t: &ClassTable, s: &[u8], at: usize, word: u32, scratch: &mut [u8]) -> Next
    requires { (at + 4 ≤ length s.now) × (binary_most ≤ length scratch.old) }
    ensures { result ≡ headed (drop at s.now) word }
{
    if is_flock(word / Head::FLOCK) {
        let kind = word / Head::KIND % 4;
        if 2 <= kind {
            return Next::Stop {
                number: Refusal::BadEntry as u32,
            };
        }
        let n = (word % Head::KIND) as usize;
        if Limits::BINARY < n {
            return Next::Stop {
                number: Refusal::TooLarge as u32,
            };
        }
        if s.len() - at - 4 < n {
            return Next::Stop {
                number: Refusal::CutOff as u32,
            };
        }
        let v = message_verdict(t, &s[at + 4..at + 4 + n], kind, scratch);
        if v == 0 {
            return Next::Entry { word };
        }
        return Next::Stop { number: v };
    }
    Next::Stop {
        number: Refusal::BadEntry as u32,
    }
}

// What stands at the place `at`, where `left` entries more may come.
pub(crate) fn next_entry(
    t: &ClassTable,
    s: &[u8],
    at: usize,
    left: usize,
    scratch: &mut [u8],
) -> Next
    requires { (at ≤ length s.now) × (binary_most ≤ length scratch.old) }
    ensures { result ≡ next_at left (drop at s.now) }
{
    if s.len() <= at {
        return Next::End;
    }
    if s.len() - at < 4 {
        return Next::Stop {
            number: Refusal::CutOff as u32,
        };
    }
    if left == 0 {
        return Next::Stop {
            number: Refusal::TooLarge as u32,
        };
    }
    let word = word_at(s, at);
    headed_entry(t, s, at, word, scratch)
}
