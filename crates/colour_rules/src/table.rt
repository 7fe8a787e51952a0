//! What may come to a node, by phase, kind of payload and role of the port: 96 cells.
ghost use Rattle.std.specs.Prelude.{◌≡◌};
ghost use Rattle.colour_rules.specs.Table.{cell};

use crate::payload::Payload;
use crate::phase::{Phase, Reduction};
use crate::rules::{AFTER_HALT, WRONG_KIND, WRONG_ROLE};
use forests::Role;

// One cell of a table: no rule is broken if the payload is due.
macro_rules! cell {
    (due) => {
        None
    };
    (P1) => {
        Some(WRONG_KIND)
    };
    (P2) => {
        Some(WRONG_ROLE)
    };
    (P6) => {
        Some(AFTER_HALT)
    };
}

// A table of cells as an expression: a row for each phase and kind of payload, in it a cell for each
// role of the port.
macro_rules! table {
    (($phase:expr, $payload:expr, $role:expr) { $($at:pat, $kind:ident: $unknown:ident $up:ident $down:ident;)* }) => {
        match ($phase, $payload, $role) {
            $(
                ($at, Payload::$kind(_), Role::Unknown) => cell!($unknown),
                ($at, Payload::$kind(_), Role::Up(_)) => cell!($up),
                ($at, Payload::$kind(_), Role::Down(_)) => cell!($down),
            )*
        }
    };
}

// The rule that a payload breaks by its kind, from a port of this role in this phase; none if it is
// due.
pub(crate) fn cell(phase: Phase, payload: &Payload, role: Role) -> Option<u16>
    ensures { result ≡ cell phase role payload.now }
{
    // Each row: from a port that is Unknown, Up, Down.
    table! { (phase, payload, role) {
        Phase::Greet, Hello: P1 P1 P1;
        Phase::Greet, Label: P1 P1 P1;
        Phase::Greet, Colour: P1 P1 P1;
        Phase::Greet, Chosen: P1 P1 P1;
        Phase::Orient, Hello: due P2 P2;
        Phase::Orient, Label: P1 P1 P1;
        Phase::Orient, Colour: P1 P1 P1;
        Phase::Orient, Chosen: P1 P1 P1;
        Phase::Seed, Hello: P1 P1 P1;
        Phase::Seed, Label: due P2 P2;
        Phase::Seed, Colour: P1 P1 P1;
        Phase::Seed, Chosen: P1 P1 P1;
        Phase::Work(Reduction::Step(_)), Hello: P1 P1 P1;
        Phase::Work(Reduction::Step(_)), Label: P1 P1 P1;
        Phase::Work(Reduction::Step(_)), Colour: P2 due P2;
        Phase::Work(Reduction::Step(_)), Chosen: P1 P1 P1;
        Phase::Work(Reduction::Shift(_)), Hello: P1 P1 P1;
        Phase::Work(Reduction::Shift(_)), Label: P1 P1 P1;
        Phase::Work(Reduction::Shift(_)), Colour: P2 due P2;
        Phase::Work(Reduction::Shift(_)), Chosen: P1 P1 P1;
        Phase::Work(Reduction::Drop(_)), Hello: P1 P1 P1;
        Phase::Work(Reduction::Drop(_)), Label: P1 P1 P1;
        Phase::Work(Reduction::Drop(_)), Colour: P2 due P2;
        Phase::Work(Reduction::Drop(_)), Chosen: P1 P1 P1;
        Phase::Merge(_, _), Hello: P1 P1 P1;
        Phase::Merge(_, _), Label: P1 P1 P1;
        Phase::Merge(_, _), Colour: P1 P1 P1;
        Phase::Merge(_, _), Chosen: P2 due due;
        Phase::Halted, Hello: P6 P6 P6;
        Phase::Halted, Label: P6 P6 P6;
        Phase::Halted, Colour: P6 P6 P6;
        Phase::Halted, Chosen: P6 P6 P6;
    } }
}
