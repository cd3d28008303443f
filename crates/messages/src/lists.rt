// The members of a list between commas (RFC 9110, section 5.6.1), as Connection has them.
ghost use Rattle.std.specs.Prelude.{◌≡◌, map, ◌+◌, ◌≤◌, length, take, drop};
ghost use Rattle.octets.specs.Text.{lower_of, same_text};
ghost use Rattle.messages.specs.Connection.{members, any_member, MemberFrom};

use crate::Member;

// The member of a list that begins at `from`.
pub fn member_at(value: &[u8], from: usize) -> Member
    ensures { MemberFrom value.now from result }
{
    let end = octets::find(value, from, b',');
    if value.len() < from {
        return Member {
            start: end,
            len: 0,
            end,
        };
    }
    let start = octets::blank_end(&value[..end], from);
    let len = octets::trim_len(&value[start..end]);
    Member { start, len, end }
}

// Whether len octets from start on are a name that is given in lower case.
fn is_at(value: &[u8], start: usize, len: usize, name: &[u8]) -> bool
    requires { start + len ≤ length value.now }
    ensures { result ≡ same_text (map lower_of (take len (drop start value.now))) name.now }
{
    let end = start + len;
    octets::same(&value[start..end], name)
}

// Whether one of the members is a name that is given in lower case.
pub fn has_member(value: &[u8], name: &[u8]) -> bool
    ensures { result ≡ any_member name.now (members value.now) }
{
    let mut from = 0;
    loop {
        let m = member_at(value, from);
        if is_at(value, m.start, m.len, name) {
            return true;
        }
        if value.len() <= m.end {
            return false;
        }
        from = m.end + 1;
    }
}
