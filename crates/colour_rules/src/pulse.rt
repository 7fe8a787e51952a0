//! A whole pulse of a node: what it refuses, and the work of the phase.
ghost use Rattle.std.specs.Prelude.{◌≡◌, ◌≤◌, IfOk, MatchResult, None, OnErr, Some, count_by, length, nat_lt};
ghost use Rattle.std.specs.List.{list_any};
ghost use Rattle.node_api.specs.Boxes.{nothing};
ghost use Rattle.node_api.specs.Program.{Matches};
ghost use Rattle.colour_rules.specs.Idle.{IsIdle, IsWaiting};
ghost use Rattle.colour_rules.specs.declared.phase.Phase.TheVariants.{Orient};
ghost use Rattle.colour_rules.specs.Node.{IsPhase, phase_of, ports};
ghost use Rattle.colour_rules.specs.Refusals.{IsAccepted, first_refusal, ids_in, own_rule, without_port};
ghost use Rattle.colour_rules.specs.Program.{work_of, next};
ghost use Rattle.colour_rules.specs.Pulsed.{HasBoxes, Pulsed};
ghost use Rattle.colour_rules.specs.Table.{is_above};

use crate::idle::IdlePulses;
use crate::node::ColourNode;
use crate::payload::Payload;
use crate::phase::{Phase, Reduction};
use crate::rules::{COLOUR_RANGE, FOREST_RANGE};
use cole_vishkin::Identifier;
use interference::MAX_DEGREE;
use node_api::{Inbox, Outbox, Refused};

// How many ports a node has at most.
const MAX_PORTS: usize = MAX_DEGREE as usize;

// Up to how many ports a shorter list on the stack serves, since it is cleared.
const FEW_PORTS: usize = 128;

impl ColourNode {
    /// A pulse: reads what came, does the work of the phase and sends. Returns pulses after this one in
    /// which the node does nothing if nothing comes.
    ///
    /// # Errors
    ///
    /// The first rule that is broken, by ascending port and then by the node itself. Node and outbox
    /// are then as before.
    pub fn pulse(
        &mut self,
        pulse: u32,
        inbox: &Inbox<Payload>,
        out: &mut Outbox<Payload>,
    ) -> Result<IdlePulses, Refused>
        requires inbox { length inbox.now.slots ≡ ports self.old }
        requires out { out.old ≡ nothing (ports self.old) }
        ensures answer { Matches result (next self.old pulse inbox.now.slots) (self.new, out.new) }
        ensures idle { IfOk result (IsIdle self.new) }
        ensures waits { IfOk result (IsWaiting self.new) }
        ensures refused { OnErr result ((self.new ≡ self.old) × (out.new ≡ out.old)) }
    {
        if self.phase(pulse) == Phase::Orient {
            self.pulse_at_orient(pulse, inbox, out)
        } else {
            self.pulse_with(pulse, &mut [], inbox, out)
        }
    }

    // The same, at the pulse at which identifiers come. Never inlined, since its list on the stack is cleared, which
    // other pulses needn't pay for.
    #[inline(never)]
    fn pulse_at_orient(
        &mut self,
        pulse: u32,
        inbox: &Inbox<Payload>,
        out: &mut Outbox<Payload>,
    ) -> Result<IdlePulses, Refused>
        requires boxes { HasBoxes self.old inbox.now.slots out.old }
        ensures pulsed { Pulsed pulse inbox.now.slots (self.old, out.old) (self.new, out.new) result }
    {
        if self.roles.len() <= FEW_PORTS {
            self.pulse_with(pulse, &mut [0; FEW_PORTS], inbox, out)
        } else {
            self.pulse_with(pulse, &mut [0; MAX_PORTS], inbox, out)
        }
    }

    // The same, with room for the identifiers of all ports if they come at this pulse.
    fn pulse_with(
        &mut self,
        pulse: u32,
        identifiers: &mut [Identifier],
        inbox: &Inbox<Payload>,
        out: &mut Outbox<Payload>,
    ) -> Result<IdlePulses, Refused>
        requires room { phase_of self.old.sizes pulse ≡ Orient → ports self.old ≤ length identifiers.old }
        requires boxes { HasBoxes self.old inbox.now.slots out.old }
        ensures pulsed { Pulsed pulse inbox.now.slots (self.old, out.old) (self.new, out.new) result }
    {
        let phase = self.phase(pulse);
        let count = self.look_at_ports(phase, identifiers, inbox)?;
        self.look_at_own(phase, &identifiers[..count], inbox)?;
        self.do_work(phase, &identifiers[..count], inbox, out);
        Ok(self.idle_after(pulse, phase))
    }

    // The work of the phase, once nothing is refused; `identifiers` are those that came.
    fn do_work(
        &mut self,
        phase: Phase,
        identifiers: &[Identifier],
        inbox: &Inbox<Payload>,
        out: &mut Outbox<Payload>,
    )
        requires accepted { IsAccepted self.old phase inbox.now.slots }
        requires out { out.old ≡ nothing (ports self.old) }
        requires came { identifiers.now ≡ ids_in inbox.now.slots }
        ensures node { (self.new, out.new) ≡ work_of self.old phase inbox.now.slots }
    {
        match phase {
            Phase::Orient => self.orient(identifiers, out),
            Phase::Seed => self.seed(inbox, out),
            Phase::Work(reduction) => self.work(reduction, inbox, out),
            Phase::Merge(forest, step) => self.merge(forest, step, inbox, out),
            Phase::Greet | Phase::Halted => {}
        }
    }

    // The refusal of the rule that the node itself breaks.
    fn look_at_own(
        &self,
        phase: Phase,
        identifiers: &[Identifier],
        inbox: &Inbox<Payload>,
    ) -> Result<(), Refused>
        requires real { IsPhase self.now.sizes phase }
        requires came { identifiers.now ≡ ids_in inbox.now.slots }
        requires accepted { first_refusal self.now phase inbox.now.slots ≡ None }
        requires inbox { length inbox.now.slots ≡ ports self.now }
        ensures answer { let rule = own_rule self.now phase inbox.now.slots in
            MatchResult result (λ _. rule ≡ None) (λ refused. without_port rule ≡ Some refused) }
    {
        let broken = match phase {
            Phase::Orient if self.has_many_higher(identifiers) => Some(FOREST_RANGE),
            Phase::Work(Reduction::Step(_)) => None,
            Phase::Work(reduction) if self.has_colour_above(reduction) => Some(COLOUR_RANGE),
            Phase::Merge(forest, step) if self.has_no_choice(forest, step, inbox) => {
                Some(COLOUR_RANGE)
            }
            _ => None,
        };
        match broken {
            Some(rule) => Err(Refused { rule, port: None }),
            None => Ok(()),
        }
    }

    // Whether more identifiers are higher than the node's own than there are forests.
    fn has_many_higher(&self, identifiers: &[Identifier]) -> bool
        ensures { result ≡ nat_lt self.now.sizes.forests (count_by (nat_lt self.now.id) identifiers.now) }
    {
        let higher = identifiers.iter().filter(|id| self.id < **id).count();
        usize::from(self.forests) < higher
    }

    // Whether a colour of the node is too high.
    fn has_colour_above(&self, reduction: Reduction) -> bool
        ensures { result ≡ list_any (is_above reduction) self.now.colours }
    {
        self.colours.has_above(self.id, reduction)
    }
}
