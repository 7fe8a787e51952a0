//! Whether two wires are one. Payloads are compared by their words, since a program's `Eq` may say what it likes.

ghost use Rattle.std.specs.Prelude.{◌≡◌, ◌≢◌, MatchBool, Option};

use node_api::PayloadText;
use wires::Wire;

fn is_same_payload<T: PayloadText>(a: T, b: T) -> bool
    ensures { MatchBool result (a ≡ b) (a ≢ b) }
{
    let (word, number) = a.words();
    let (other_word, other_number) = b.words();
    word == other_word && number == other_number
}

fn is_same_wire<T: PayloadText>(a: Wire<T>, b: Wire<T>) -> bool
    ensures { MatchBool result (a ≡ b) (a ≢ b) }
{
    match (a, b) {
        (Wire::Payload(p, x), Wire::Payload(q, y)) => p == q && is_same_payload(x, y),
        (Wire::Ack(p), Wire::Ack(q)) => p == q,
        (Wire::Safe(p), Wire::Safe(q)) => p == q,
        (Wire::Close, Wire::Close) => true,
        _ => false,
    }
}

/// Whether there is a wire, and it is this one.
pub(crate) fn carries<T: PayloadText>(oldest: Option<Wire<T>>, wire: Wire<T>) -> bool
    ensures { MatchBool result (oldest ≡ Option.Some wire) (oldest ≢ Option.Some wire) }
{
    match oldest {
        Some(oldest) => is_same_wire(oldest, wire),
        None => false,
    }
}
