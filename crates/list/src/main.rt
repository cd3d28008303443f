// Prints the listing of the request stream on standard input.
#![tactic(auto)]

use std::io;

fn main(rt: HostRuntime) -> io::Result<()> {
    lister::go(&mut rt.reader(), &mut io::writer(&rt))
}
