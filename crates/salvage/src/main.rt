// Prints what is kept of the octets on standard input.
#![tactic(auto)]

use std::io;

fn main(rt: HostRuntime) -> io::Result<()> {
    salvager::go(&mut rt.reader(), &mut io::writer(&rt))
}
