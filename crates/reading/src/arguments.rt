// The files that a program's arguments name.
use std::env::Env;
use std::rt::Files;
use std::{fs, io, str};

// Whether there is an argument k, and a file of that name: its name is printed, and then what `print` prints of it.
fn print_file<R: Env + Files + Print + Eprint, F: Fn(&mut R::File) -> io::Result<()>>(
    rt: &R,
    k: usize,
    print: &F,
) -> io::Result<bool>
    requires { F.IsAlwaysCallable print.now }
{
    let mut path = [0u8; 4096];
    let Ok(n) = rt.arg(k, &mut path) else {
        return Ok(false);
    };
    if n == 0 {
        return Ok(false);
    }
    let Ok(name) = str::from_utf8(&path[..n]) else {
        eprintln!(rt; "argument {k} is not UTF-8")?;
        return Ok(false);
    };
    match fs::open(rt, name) {
        Ok(mut file) => {
            println!(rt; "{name}")?;
            print(&mut file)?;
            Ok(true)
        }
        Err(e) => {
            eprintln!(rt; "{name}: {e}")?;
            Ok(false)
        }
    }
}

// The name of each argument's file, and what `print` prints of it, up to the first argument that names none.
pub fn print_files<R: Env + Files + Print + Eprint, F: Fn(&mut R::File) -> io::Result<()>>(
    rt: &R,
    print: F,
) -> io::Result<()>
    requires { F.IsAlwaysCallable print }
{
    for k in 1..100 {
        if !print_file(rt, k, &print)? {
            break;
        }
    }
    Ok(())
}
