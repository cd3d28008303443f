// What is kept of a line of a head, moved down over the rest of the line.
ghost use Rattle.std.specs.Prelude.{◌≡◌, [], ◌∷◌, ◌++◌, map, ◌+◌, ◌≤◌, ◌<◌, length, take, drop};
ghost use Rattle.octets.specs.Text.{lower_of};
ghost use Rattle.output.specs.Splice.{splice};
ghost use Rattle.step_lines.specs.Entries.{kept_text};

use messages::Kind;

// So many octets from a place on, moved down.
pub fn move_down(room: &mut [u8], to: usize, from: usize, n: usize)
    requires { (to ≤ from) × (from + n ≤ length room.old) }
    ensures { room.new ≡ splice room.old to (take n (drop from room.old)) }
{
    room.copy_within(from..from + n, to);
}

// So many octets from a place on, put in lower case.
fn put_lower(room: &mut [u8], from: usize, n: usize)
    requires { from + n ≤ length room.old }
    ensures { room.new ≡ splice room.old from (map lower_of (take n (drop from room.old))) }
{
    room[from..from + n].make_ascii_lowercase();
}

// A name of n octets stays where it stands, in lower case, with LF behind it.
fn keep_name(room: &mut [u8], from: usize, n: usize)
    requires { from + n < length room.old }
    ensures { room.new ≡ splice room.old from (map lower_of (take n (drop from room.old)) ++ 10 ∷ []) }
{
    put_lower(room, from, n);
    room[from + n] = b'\n';
}

// A value of n octets from `start` on moves down behind a mark, with LF behind it.
fn keep_value(room: &mut [u8], from: usize, mark: u8, start: usize, n: usize)
    requires { (from < start) × (start + n < length room.old) }
    ensures { room.new ≡ splice room.old from (mark ∷ (take n (drop start room.old) ++ 10 ∷ [])) }
{
    move_down(room, from + 1, start, n);
    room[from] = mark;
    room[from + 1 + n] = b'\n';
}

// What is kept of a line of a kind that stands from `from` on, with a name of `name` octets and a value of n octets from `start` on. Answers how long it is.
pub fn keep(room: &mut [u8], kind: Kind, from: usize, name: usize, start: usize, n: usize) -> usize
    requires { (from + name < start) × (start + n < length room.old) }
    ensures { (room.new ≡ splice room.old from (kept_text kind (take name (drop from room.old)) (take n (drop start room.old))))
        × (result ≡ length (kept_text kind (take name (drop from room.old)) (take n (drop start room.old)))) }
{
    match kind {
        Kind::Ordinary => {
            keep_name(room, from, name);
            name + 1
        }
        Kind::HopByHop => 0,
        Kind::Host => {
            keep_value(room, from, b':', start, n);
            n + 2
        }
        Kind::ContentLength => 0,
        Kind::TransferEncoding => 0,
        Kind::Connection => {
            keep_value(room, from, b',', start, n);
            n + 2
        }
    }
}
