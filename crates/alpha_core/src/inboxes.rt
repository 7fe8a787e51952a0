//! The payloads that a node took: of this pulse, and of the next.

ghost use Rattle.std.specs.Prelude.{◌≡◌, ◌<◌, ◌≤◌, ◌↔◌, IfOk, IsTrue, OnErr, Option, false, length, not, slice_set};
ghost use Rattle.interference.specs.declared.limits.TheConstants.{MAX_DEGREE};
ghost use Rattle.node_api.specs.Boxes.{at_port, nothing};
ghost use Rattle.node_api.specs.Program.{Matches};
ghost use Rattle.alpha_core.specs.When.{slots_of, with_slots};

use crate::when::When;
use interference::Memory;
use node_api::{Inbox, NodeProgram, Outbox, Refused};
use std::alloc::Global;
use std::marker::Model;

/// Two inboxes, used by turns: a payload is in the one of its pulse's parity, so none is moved as the node enters a
/// pulse. Contracts see the payloads of this pulse and of the next by port, and the parity.
#[derive(Drop)]
pub(crate) struct Inboxes<T> {
    even: Inbox<T>,
    odd: Inbox<T>,
    // Whether the node's pulse is odd: a fact of `Ports`, which has the pulse.
    at_odd: bool,
}

impl<T> Model for Inboxes<T> {
    ghost use Rattle.alpha_core.specs.Rows.{Taken, taken_by};

    ghost Value = { Taken T };

    ghost view = { λ a. taken_by a.at_odd a.even.slots a.odd.slots };
}

/// Hands the payloads of this pulse to a program as its inbox of the next. Nothing but the program and
/// the outbox is changed.
pub(crate) fn hand_over<P: NodeProgram>(
    inboxes: &mut Inboxes<P::Payload>,
    program: &mut P,
    pulse: u32,
    out: &mut Outbox<P::Payload>,
) -> Result<(), Refused>
    requires ports { P.program.ports program.old ≡ length inboxes.old.present }
    requires out { out.old ≡ nothing (length inboxes.old.present) }
    ensures same { inboxes.new ≡ inboxes.old }
    ensures answer { Matches result (P.program.next program.old pulse inboxes.old.present) (program.new, out.new) }
    ensures refused { OnErr result ((program.new ≡ program.old) × (out.new ≡ out.old)) }
{
    if inboxes.at_odd {
        inboxes.odd.rewind();
        program.handle_messages(pulse, &mut inboxes.odd, out)
    } else {
        inboxes.even.rewind();
        program.handle_messages(pulse, &mut inboxes.even, out)
    }
}

impl<T: Copy> Inboxes<T> {
    /// Nothing at any port, at pulse 0. No later call can return out-of-memory.
    pub(crate) fn new(alloc: Global, degree: u32) -> Result<Inboxes<T>, Memory>
        requires degree { degree ≤ MAX_DEGREE }
        ensures new { IfOk result
            (λ a. a ≡ record { odd = false; present = nothing degree; early = nothing degree }) }
    {
        Ok(Inboxes {
            even: Inbox::new(alloc, degree)?,
            odd: Inbox::new(alloc, degree)?,
            at_odd: false,
        })
    }

    /// Whether no payload of a pulse is at a port.
    pub(crate) fn has_none(&self, port: u32, when: When) -> bool
        requires port { port < length (slots_of when self.now) }
        ensures empty { IsTrue result ↔ (at_port (slots_of when self.now) port ≡ Option.None) }
    {
        if when.is_in_odd(self.at_odd) {
            self.odd.is_empty(port)
        } else {
            self.even.is_empty(port)
        }
    }

    /// Puts a payload of a pulse at a port that has none of it.
    pub(crate) fn put(&mut self, port: u32, when: When, payload: T)
        requires port { port < length (slots_of when self.old) }
        requires empty { at_port (slots_of when self.old) port ≡ Option.None }
        ensures put { self.new ≡ with_slots when
            (slice_set (slots_of when self.old) port (Option.Some payload)) self.old }
    {
        if when.is_in_odd(self.at_odd) {
            self.odd.put(port, payload);
        } else {
            self.even.put(port, payload);
        }
    }

    /// Enters the next pulse: its payloads are those of this pulse now, and those of this pulse are thrown away.
    pub(crate) fn advance(&mut self)
        ensures advanced { self.new ≡
            record { odd = not self.old.odd; present = self.old.early; early = nothing (length self.old.present) } }
    {
        if self.at_odd {
            self.odd.clear();
        } else {
            self.even.clear();
        }
        self.at_odd = !self.at_odd;
    }
}
