// Prints the name of each of its arguments, a file, and what is kept of it.
#![tactic(auto)]

use reading::arguments::print_files;
use std::io;

fn main(rt: HostRuntime) -> io::Result<()> {
    print_files(&rt, |file| salvager::go(file, &mut io::writer(&rt)))
}
