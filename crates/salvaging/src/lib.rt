// What came through the radio: the front of whole entries kept of whatever octets, and the line that says how much that is. Knows nothing of what an entry is.
#![tactic(auto)]

ghost use Rattle.std.specs.Prelude.{◌≡◌, ◌≤◌, length};
ghost use Rattle.output.specs.Splice.{Put, Puts};
ghost use Rattle.output.specs.Reply.{writes, Served};
ghost use Rattle.bundle.specs.Salvage.{salvage_of};
ghost use Rattle.salvaging.specs.Answers.{front_of, Salvages};
ghost use Rattle.salvaging.specs.Line.{labelled, labelled_size, line_of, line_size, salvage_line};

use bundle::reader::read_bundle;
use numbers::digit_count;
use octets::Refusal;
use output::{Written, put_decimal, put_octet, put_part, put_text};

// The input of the program: so many octets at most.
#[derive(Clone, Copy)]
struct Input;

impl Input {
    const MOST: usize = 65536;
}

// How much is kept and left off, and the number that stopped it.
#[derive(Clone, Copy)]
pub struct Front {
    pub entries: usize,
    pub kept: usize,
    pub left: usize,
    pub stop: u32,
}

// What a salvage answers: 0, the entries and octets kept, the octets left off and the number that stopped it; or a refusal's number and place, and zeros.
#[repr(C)]
#[derive(Clone, Copy)]
pub struct Salvaged {
    pub number: u32,
    pub place: usize,
    pub entries: usize,
    pub kept: usize,
    pub left: usize,
    pub stop: u32,
}

// How much of the octets is kept, and why not more.
fn find_front(s: &[u8]) -> Front
    ensures { result ≡ front_of (salvage_of s.now) }
{
    let b = read_bundle(s);
    Front {
        entries: b.count,
        kept: b.end,
        left: s.len() - b.end,
        stop: b.number,
    }
}

// The front of whole entries, copied. A refusal writes nothing.
pub fn salvage(s: &[u8], out: &mut [u8]) -> Salvaged
    ensures { Salvages s.now out.old out.new result }
{
    let f = find_front(s);
    if out.len() < f.kept {
        return Salvaged {
            number: Refusal::NoRoom as u32,
            place: 0,
            entries: 0,
            kept: 0,
            left: 0,
            stop: 0,
        };
    }
    let n = put_part(out, 0, s, 0, f.kept);
    Salvaged {
        number: 0,
        place: 0,
        entries: f.entries,
        kept: n,
        left: f.left,
        stop: f.stop,
    }
}

// How long the line is.
fn line_size(f: Front) -> usize
    ensures { result ≡ line_size f }
{
    let kept = digit_count(f.entries, 10) + digit_count(f.kept, 10);
    let rest = digit_count(f.left, 10) + digit_count(f.stop as usize, 10);
    19 + kept + rest
}

// A word, and a number behind it.
fn put_labelled(out: &mut [u8], at: usize, word: &[u8], n: usize) -> usize
    ensures { Puts out.old at (labelled word.now n) (labelled_size word.now n) out.new result }
{
    let a = put_text(out, at, word);
    put_decimal(out, a, n)
}

// The line into room for it.
fn put_line(out: &mut [u8], f: Front) -> usize
    requires { line_size f ≤ length out.old }
    ensures { Put out.old 0 (line_of f) (line_size f) out.new result }
{
    let a = put_labelled(out, 0, b"kept ", f.entries);
    let b = put_labelled(out, a, b" ", f.kept);
    let d = put_labelled(out, b, b" left ", f.left);
    let e = put_labelled(out, d, b" stop ", f.stop as usize);
    put_octet(out, e, 10)
}

// The line, or 13 at 0 where it does not fit.
fn write_line(f: Front, out: &mut [u8]) -> Written
    ensures { Served (writes (line_of f)) out.old out.new result }
{
    if out.len() < line_size(f) {
        return Err(Refusal::NoRoom.at(0));
    }
    Ok(put_line(out, f))
}

// The line that the program prints for an input.
pub fn salvage_line(s: &[u8], out: &mut [u8]) -> Written
    ensures { Served (writes (salvage_line s.now)) out.old out.new result }
{
    if s.len() <= Input::MOST {
        return write_line(find_front(s), out);
    }
    write_line(
        Front {
            entries: 0,
            kept: 0,
            left: Input::MOST,
            stop: Refusal::TooLarge as u32,
        },
        out,
    )
}
