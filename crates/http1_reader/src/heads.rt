// Heads, judged by what is noted of their lines.
ghost use Rattle.http1_reader.specs.Readers.{RequestJudged};

use crate::JudgedHead;
use messages::sections::{request_body, target_authority};
use messages::{Notes, Span};
use octets::{ClassTable, Refusal, Refused};

// A request's head that ends at `end`, where the target's authority stands in s as `host` says: host, then length.
pub(crate) fn judge_request(
    t: &ClassTable,
    s: &[u8],
    host: Span,
    end: usize,
    notes: Notes,
) -> Result<JudgedHead, Refused>
    ensures { RequestJudged s.now host end notes result }
{
    let a = target_authority(&t.masks, s, host.start, host.len, notes.hosts);
    match a {
        None => Err(Refusal::BadHost.at(end)),
        Some(authority) => {
            let body = request_body(notes.framing, end)?;
            Ok(JudgedHead { authority, body })
        }
    }
}
