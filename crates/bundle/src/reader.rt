// The reader of a bundle: one walk over its octets.
ghost use Rattle.std.specs.Prelude.{◌≡◌, ◌≤◌, length};
ghost use Rattle.octets.specs.Limits.{binary_most};
ghost use Rattle.bundle.specs.Bundle.{walk};
ghost use Rattle.bundle.specs.Answers.{entries_room, bundle_of, Walked};

use crate::entry::next_entry;
use crate::{Bundle, Head, Next};
use octets::{ClassTable, Limits};
use ranges::store;

// How a walk ended: after so many entries, at a place, by a number.
#[derive(Clone, Copy)]
struct Ended {
    count: usize,
    end: usize,
    number: u32,
}

// The walk, each entry's head, start and length into lent space.
fn walk_into(t: &ClassTable, s: &[u8], out: &mut [u32], scratch: &mut [u8]) -> Ended
    requires { (entries_room ≤ length out.old) × (binary_most ≤ length scratch.old) }
    ensures { Walked (walk s.now) out.old out.new result.count result.end result.number }
{
    let mut at = 0;
    let mut count = 0;
    loop {
        let next = next_entry(t, s, at, Limits::ENTRIES - count, scratch);
        match next {
            Next::End => return Ended {
                count,
                end: at,
                number: 0,
            },
            Next::Stop { number } => return Ended {
                count,
                end: at,
                number,
            },
            Next::Entry { word } => {
                let n = word % Head::KIND;
                store(out, count, [word, (at + 4) as u32, n]);
                count += 1;
                at += 4 + n as usize;
            }
        }
    }
}

// A bundle by value: its entries in order, where they end and what stopped the walk.
pub fn read_bundle(s: &[u8]) -> Bundle
    ensures { result ≡ bundle_of (walk s.now) }
{
    let t = ClassTable::new();
    let mut numbers = [0u32; 768];
    let mut scratch = [0u8; 65535];
    let e = walk_into(&t, s, &mut numbers, &mut scratch);
    Bundle {
        count: e.count,
        end: e.end,
        number: e.number,
        numbers,
    }
}
