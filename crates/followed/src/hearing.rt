//! What a first program hears of an inbox of both, and what both hear of its outbox.

ghost use Rattle.std.specs.Prelude.{◌≡◌, ◌≢◌, ◌<◌, ℕ, None, Some, length, map};
ghost use Rattle.std.specs.Option.{option_or};
ghost use Rattle.node_api.specs.Boxes.{at_port, nothing, unread};
ghost use Rattle.followed.specs.Said.{first_of, firsts, misplaced, said, then_port};

use crate::said::Said;
use node_api::{Inbox, Outbox};

// Puts a payload of the first program into its own inbox; returns the port of another's.
fn put_first<A: Copy, B: Copy>(own: &mut Inbox<A>, port: u32, payload: Said<A, B>) -> Option<u32>
    requires port { port < length own.old.slots }
    requires empty { at_port own.old.slots port ≡ None }
    ensures misplaced { result ≡ then_port port payload }
    ensures here { at_port own.new.slots port ≡ first_of (Some payload) }
    ensures others { (k : ℕ) → k ≢ port → at_port own.new.slots k ≡ at_port own.old.slots k }
    ensures size { length own.new.slots ≡ length own.old.slots }
    ensures cursor { own.new.cursor ≡ own.old.cursor }
{
    match payload {
        Said::First(payload) => {
            own.put(port, payload);
            None
        }
        Said::Then(_payload) => Some(port),
    }
}

/// Puts the payloads of the first program into its own inbox; returns the first port at which another came.
pub(crate) fn hear<A: Copy, B: Copy>(inbox: &Inbox<Said<A, B>>, own: &mut Inbox<A>) -> Option<u32>
    requires own { own.old ≡ unread (nothing (length inbox.now.slots)) }
    ensures misplaced { result ≡ misplaced inbox.now.slots }
    ensures heard { own.new ≡ unread (firsts inbox.now.slots) }
{
    let mut found = None;
    let mut reader = inbox.reader();
    while reader.has_next() {
        let payload = reader.next();
        let other = put_first(own, reader.sender(), payload);
        found = found.or(other);
    }
    found
}

/// Sends at each port what the first program sends there, and empties its own outbox.
pub(crate) fn tell<A: Copy, B: Copy>(degree: u32, own: &mut Outbox<A>, out: &mut Outbox<Said<A, B>>)
    requires degree { length own.old ≡ degree }
    requires out { out.old ≡ nothing degree }
    ensures told { out.new ≡ map said own.old }
    ensures own { own.new ≡ nothing degree }
{
    if own.is_quiet() {
        return;
    }
    send_all(degree, own, out);
    own.clear();
}

fn send_all<A: Copy, B: Copy>(degree: u32, own: &Outbox<A>, out: &mut Outbox<Said<A, B>>)
    requires degree { length own.now ≡ degree }
    requires out { out.old ≡ nothing degree }
    ensures told { out.new ≡ map said own.now }
{
    for port in 0..degree {
        if let Some(payload) = own.get(port) {
            out.send(port, Said::First(payload));
        }
    }
}
