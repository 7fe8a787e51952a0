//! What a node makes of an inbox.

ghost use Rattle.std.specs.Prelude.{◌≡◌};
ghost use Rattle.leader.specs.Election.{heard};

use crate::candidate::Candidate;
use crate::rules::AFTER_LAST;
use node_api::{Inbox, Refused};

// The greatest of what a node knows and what came.
pub(crate) fn greatest(
    known: u128,
    last: u32,
    pulse: u32,
    inbox: &Inbox<Candidate>,
) -> Result<u128, Refused>
    ensures heard { result ≡ heard known last pulse inbox.now.slots }
{
    let mut best = known;
    let mut reader = inbox.reader();
    while reader.has_next() {
        let Candidate(id) = reader.next();
        if last < pulse {
            return Err(Refused {
                rule: AFTER_LAST,
                port: Some(reader.sender()),
            });
        }
        best = best.max(id);
    }
    Ok(best)
}
