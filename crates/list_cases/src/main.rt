// Prints the name and the listing of each of its arguments, a file.
#![tactic(auto)]

use reading::arguments::print_files;
use std::io;

fn main(rt: HostRuntime) -> io::Result<()> {
    print_files(&rt, |file| lister::go(file, &mut io::writer(&rt)))
}
