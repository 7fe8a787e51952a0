//! What a node makes of an inbox.

ghost use Rattle.std.specs.Prelude.{◌≡◌};
ghost use Rattle.layers.specs.Layering.{heard, rule_broken};

use crate::hops::Hops;
use crate::rules::{AFTER_LAST, WRONG_HOPS};
use node_api::{Inbox, Refused};

// The rule that a distance breaks which comes at a pulse.
fn rule_broken(last: u32, pulse: u32, hops: u32) -> Option<u16>
    ensures { result ≡ rule_broken last pulse hops }
{
    if last < pulse {
        Some(AFTER_LAST)
    } else if u64::from(hops) + 1 == u64::from(pulse) {
        None
    } else {
        Some(WRONG_HOPS)
    }
}

// The first port at which a payload came.
pub(crate) fn first_port(last: u32, pulse: u32, inbox: &Inbox<Hops>) -> Result<Option<u32>, Refused>
    ensures heard { result ≡ heard last pulse inbox.now.slots }
{
    let mut first = None;
    let mut reader = inbox.reader();
    while reader.has_next() {
        let Hops(hops) = reader.next();
        let port = Some(reader.sender());
        match rule_broken(last, pulse, hops) {
            Some(rule) => return Err(Refused { rule, port }),
            None => first = first.or(port),
        }
    }
    Ok(first)
}
