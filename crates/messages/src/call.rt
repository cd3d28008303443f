// What a call is told beside its input.
ghost use Rattle.std.specs.Prelude.{◌≡◌};
ghost use Rattle.messages.specs.Told.{is_yes, is_edition, ending_of, plain as told_plain};

use crate::Told;

// What a yes or no says that a call is told.
pub fn is_yes(n: u32) -> bool
    ensures { result ≡ is_yes n }
{
    n != 0
}

// A scheme's number and nothing else.
pub fn plain(scheme: u32) -> Told
    ensures { result ≡ told_plain scheme }
{
    Told {
        scheme,
        head: 0,
        closed: 0,
        former: 0,
        edition: 0,
    }
}

// Whether the number told is an edition's.
pub fn is_edition(n: u32) -> bool
    ensures { result ≡ is_edition n }
{
    n < 2
}

// Where a stream of n octets ends, as told.
pub fn ending_of(told: Told, n: usize) -> Option<usize>
    ensures { result ≡ ending_of told n }
{
    if is_yes(told.closed) {
        return Some(n);
    }
    None
}
