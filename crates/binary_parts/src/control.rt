// The control data of a request.
ghost use Rattle.std.specs.Prelude.{◌≡◌, ◌<◌, ◌≤◌, drop};
ghost use Rattle.binary.specs.Read.{ruled_part, scheme_part, after_scheme, request_control};
ghost use Rattle.binary_parts.specs.Control.{Parted, most_of, verdict_of, Schemed, piece_of, Inside, Controlled};

use crate::parts::{part_at, part_within};
use crate::{ControlRead, PartRead, Ruled, SchemeRead};
use binary::Cursor;
use messages::Span;
use messages::parts::{authority_verdict, is_options, method_verdict, path_verdict};
use octets::{ClassTable, Limits, Refusal, Refused};

// The most octets of a part that has a rule.
fn most_of(what: Ruled) -> usize
    ensures { result ≡ most_of what }
{
    match what {
        Ruled::Method => Limits::METHOD,
        Ruled::Authority => Limits::AUTHORITY,
        Ruled::Path(_) => Limits::PATH,
    }
}

// What the rule of a part says of its octets.
fn verdict_of(t: &ClassTable, what: Ruled, w: &[u8]) -> Result<(), Refusal>
    ensures { result ≡ verdict_of what w.now }
{
    match what {
        Ruled::Method => method_verdict(&t.masks, w),
        Ruled::Authority => authority_verdict(&t.masks, w),
        Ruled::Path(options) => path_verdict(&t.masks, options, w),
    }
}

// The part at `from`, judged by its size and then by its rule.
fn ruled_part(t: &ClassTable, s: &[u8], from: Cursor, what: Ruled) -> Result<PartRead, Refused>
    requires { from.long ≤ from.at }
    ensures { Parted s.now (ruled_part (most_of what) (verdict_of what) from (drop from.at s.now)) result }
{
    let read = part_within(s, from, most_of(what))?;
    match verdict_of(t, what, &s[read.part.start..read.end.at]) {
        Ok(()) => Ok(read),
        Err(refusal) => Err(refusal.at(from.at)),
    }
}

// The scheme at `from`, by its number.
fn scheme_part(s: &[u8], from: Cursor) -> Result<SchemeRead, Refused>
    requires { from.long ≤ from.at }
    ensures { Schemed s.now (scheme_part from (drop from.at s.now)) result }
{
    let PartRead { part, end } = part_at(s, from)?;
    let name = &s[part.start..end.at];
    if octets::equal(name, b"http") {
        Ok(SchemeRead { scheme: 0, end })
    } else if octets::equal(name, b"https") {
        Ok(SchemeRead { scheme: 1, end })
    } else {
        Err(Refusal::NotSupported.at(from.at))
    }
}

// Authority and path, behind a method and a scheme.
fn after_scheme(
    t: &ClassTable,
    s: &[u8],
    method: Span,
    read: SchemeRead,
) -> Result<ControlRead, Refused>
    requires { Inside s.now method × (read.scheme < 2) × (read.end.long ≤ read.end.at) }
    ensures { Controlled s.now (after_scheme (piece_of s.now method) read.scheme read.end (drop read.end.at s.now)) result }
{
    let authority = ruled_part(t, s, read.end, Ruled::Authority)?;
    let options = is_options(&s[method.start..method.start + method.len]);
    let path = ruled_part(t, s, authority.end, Ruled::Path(options))?;
    Ok(ControlRead {
        method,
        scheme: read.scheme,
        authority: authority.part,
        path: path.part,
        end: path.end,
    })
}

// The control data of a request from `from` on: method, scheme, authority, path, each judged before the next is read.
pub fn request_control(t: &ClassTable, s: &[u8], from: Cursor) -> Result<ControlRead, Refused>
    requires { from.long ≤ from.at }
    ensures { Controlled s.now (request_control from (drop from.at s.now)) result }
{
    let method = ruled_part(t, s, from, Ruled::Method)?;
    let scheme = scheme_part(s, method.end)?;
    after_scheme(t, s, method.part, scheme)
}
