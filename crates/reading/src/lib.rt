// Reads into a lent array; and the files that a program's arguments name.
#![tactic(auto)]

pub mod arguments; // arguments.rt: the files that a program's arguments name

ghost use Rattle.std.specs.Prelude.{◌≤◌, ◌<◌, length, take, IfOk};
ghost use Rattle.std.specs.Io.KnownBytes.{Consumes, IsAtEnd};

use std::io;
use std::io::Read;

// Reads until the input ends or `out` is full, however short each read is, and answers how many octets stand at the start of `out`.
pub fn read_full<R: Read>(from: &mut R, out: &mut [u8]) -> io::Result<usize>
    ensures in_bounds { IfOk result (λ n. n ≤ length out.new) }
    ensures bytes { IfOk result (λ n. Consumes (R.remaining from.old) (R.remaining from.new) (take n out.new)) }
    ensures end { IfOk result (λ n. n < length out.new → IsAtEnd (R.remaining from.new)) }
{
    let mut at = 0;
    while at < out.len() {
        let n = from.read(&mut out[at..])?;
        if n == 0 {
            return Ok(at);
        }
        at += n;
    }
    Ok(at)
}

#[cfg(test)]
mod tests {
    use super::*;
    use std::io::ErrorKind;
    use std::test::Fail;

    // Gives one octet a read, and then ends or fails.
    #[derive(Drop)]
    struct Trickle<'a> {
        left: &'a [u8],
        fails: bool,
    }

    impl Read for Trickle<'_> {
        fn read(&mut self, buf: &mut [u8]) -> io::Result<usize> {
            if buf.is_empty() {
                return Ok(0);
            }
            match self.left.split_first() {
                Some((octet, left)) => {
                    buf[0] = *octet;
                    self.left = left;
                    Ok(1)
                }
                None if self.fails => Err(io::Error::from(ErrorKind::BrokenPipe)),
                None => Ok(0),
            }
        }
    }

    #[test]
    fn reads_a_slice(rt: HostRuntime) -> Result<(), Fail> {
        let mut from = b"abc".as_slice();
        let mut out = [0u8; 8];
        let n = read_full(&mut from, &mut out)?;
        assert_eq!(rt; n, 3);
        assert_eq!(rt; out, *b"abc\0\0\0\0\0");
        Ok(())
    }

    #[test]
    fn joins_short_reads(rt: HostRuntime) -> Result<(), Fail> {
        let mut from = Trickle {
            left: b"abc",
            fails: false,
        };
        let mut out = [0u8; 8];
        let n = read_full(&mut from, &mut out)?;
        assert_eq!(rt; n, 3);
        assert_eq!(rt; out, *b"abc\0\0\0\0\0");
        Ok(())
    }

    #[test]
    fn stops_where_it_is_full(rt: HostRuntime) -> Result<(), Fail> {
        let mut from = Trickle {
            left: b"abc",
            fails: true,
        };
        let mut out = [0u8; 2];
        let n = read_full(&mut from, &mut out)?;
        assert_eq!(rt; n, 2);
        assert_eq!(rt; out, *b"ab");
        assert_eq!(rt; from.left, b"c".as_slice());
        Ok(())
    }

    #[test]
    fn passes_an_error_on(rt: HostRuntime) {
        let mut from = Trickle {
            left: b"abc",
            fails: true,
        };
        let mut out = [0u8; 8];
        match read_full(&mut from, &mut out) {
            Ok(n) => assert!(rt; false, "it answered {n}"),
            Err(e) => assert!(rt; e.kind() == ErrorKind::BrokenPipe),
        }
    }
}
