//! The first rule that a port breaks.
ghost use Rattle.std.specs.Prelude.{◌≡◌, ◌==◌, ◌≤◌, ◌<◌, ℕ, if◌then◌else◌, IfOk, MatchResult, None, Some, false};
ghost use Rattle.std.specs.Prelude.{length, slice_index_or, take};
ghost use Rattle.forest_merge.specs.Free.{is_among};
ghost use Rattle.node_api.specs.Boxes.{HasFrom};
ghost use Rattle.forests.specs.declared.numbering.Role.{Role};
ghost use Rattle.forests.specs.declared.numbering.Role.TheVariants.{Unknown};
ghost use Rattle.colour_rules.specs.declared.payload.Payload.TheVariants.{Hello};
ghost use Rattle.colour_rules.specs.declared.phase.Phase.TheVariants.{Orient};
ghost use Rattle.colour_rules.specs.declared.rules.TheConstants.{COLOUR_RANGE};
ghost use Rattle.colour_rules.specs.Node.{IsIn, ports};
ghost use Rattle.colour_rules.specs.Table.{is_above, is_due, is_merged, value_rule};
ghost use Rattle.colour_rules.specs.Refusals.{AreUndue, IsFirstMissing, Looked};
ghost use Rattle.colour_rules.specs.Refusals.{and_id, first_refusal, ids_in, port_rule};

use crate::node::ColourNode;
use crate::payload::Payload;
use crate::phase::{Phase, Reduction};
use crate::rules::{COLOUR_RANGE, FOREST_RANGE, MISSING};
use crate::table::cell;
use cole_vishkin::Identifier;
use forests::Role;
use node_api::{Inbox, Reader, Refused};

// Whether a port of a role has to bring a payload in a phase.
fn is_due(phase: Phase, role: Role) -> bool
    ensures { result ≡ is_due phase role }
{
    match (phase, role) {
        (Phase::Orient, _) => true,
        (Phase::Seed, Role::Unknown) => true,
        (Phase::Work(_), Role::Up(_)) => true,
        _ => false,
    }
}

// Whether a colour is too high: each bit step has a bound, and a class is dropped as the greatest colour.
pub(crate) fn is_above(reduction: Reduction, colour: Identifier) -> bool
    ensures { result ≡ is_above reduction colour }
{
    match reduction {
        Reduction::Step(0) => false,
        Reduction::Step(1) => 255 < colour,
        Reduction::Step(2) => 15 < colour,
        Reduction::Step(_) => 7 < colour,
        Reduction::Shift(class) | Reduction::Drop(class) => Identifier::from(class) < colour,
    }
}

// Whether a port is of one of the forests up to this one.
pub(crate) fn is_merged(forest: u16, role: Role) -> bool
    ensures { result ≡ is_merged forest role }
{
    matches!(role.forest(), Some(number) if number <= forest)
}

// Whether something is due from a port of some role in a phase.
fn waits(phase: Phase) -> bool
    ensures { result ≡ false → (role : Role) → is_due phase role ≡ false }
{
    matches!(phase, Phase::Orient | Phase::Seed | Phase::Work(_))
}

impl ColourNode {
    // The rule that an identifier breaks if it is the node's own, or one of those that the ports before brought.
    fn identifier_rule(&self, earlier: &[Identifier], id: Identifier) -> Option<u16>
        ensures { result ≡ (if id == self.now.id then Some COLOUR_RANGE
            else if is_among earlier.now id then Some COLOUR_RANGE else None) }
    {
        (id == self.id || earlier.contains(&id)).then_some(COLOUR_RANGE)
    }

    // The rule that a due payload breaks by its value; `earlier` are the identifiers that the ports
    // before brought.
    fn value_rule(
        &self,
        phase: Phase,
        earlier: &[Identifier],
        role: Role,
        payload: &Payload,
    ) -> Option<u16>
        requires { IsIn self.now.sizes.forests role }
        ensures { result ≡ value_rule self.now earlier.now phase role payload.now }
    {
        match (phase, role, payload) {
            (Phase::Orient, _, Payload::Hello(id)) => { self.identifier_rule(earlier, id.get()) }
            (Phase::Seed, _, Payload::Label(forest)) => {
                (self.forests <= forest.get()).then_some(FOREST_RANGE)
            }
            (Phase::Work(reduction), Role::Up(forest), Payload::Colour(colour)) => {
                let colour = colour.get();
                let own = self.colours.own(self.id, forest);
                (is_above(reduction, colour) || colour == own).then_some(COLOUR_RANGE)
            }
            (Phase::Merge(forest, step), _, Payload::Chosen(colour)) => {
                if step == 0 || !is_merged(forest, role) {
                    Some(FOREST_RANGE)
                } else {
                    (self.span() < colour.get()).then_some(COLOUR_RANGE)
                }
            }
            _ => None,
        }
    }

    // The refusal of the payload of a port, by its kind and then by its value.
    fn look_at(
        &self,
        phase: Phase,
        earlier: &[Identifier],
        port: u32,
        payload: &Payload,
    ) -> Result<(), Refused>
        requires { port < ports self.now }
        ensures { let role = slice_index_or self.now.roles port Unknown in
            let rule = port_rule self.now earlier.now phase role (Some payload.now) in
            MatchResult result
            (λ _. rule ≡ None)
            (λ refused. (rule ≡ Some refused.rule) × (refused.port ≡ Some port)) }
    {
        let role = self.roles[port as usize];
        match cell(phase, payload, role).or(self.value_rule(phase, earlier, role, payload)) {
            Some(rule) => Err(Refused {
                rule,
                port: Some(port),
            }),
            None => Ok(()),
        }
    }

    // The refusal of the first of the ports `from` to `to - 1`, which brought nothing, from which
    // something is due.
    fn none_due(&self, phase: Phase, from: u32, to: u32) -> Result<(), Refused>
        requires { to ≤ ports self.now }
        ensures { MatchResult result
            (λ _. AreUndue phase self.now.roles from to)
            (λ refused. IsFirstMissing phase self.now.roles from to refused) }
    {
        if waits(phase) {
            for port in from..to {
                if is_due(phase, self.roles[port as usize]) {
                    return Err(Refused {
                        rule: MISSING,
                        port: Some(port),
                    });
                }
            }
        }
        Ok(())
    }

    // Reads the next payload, which comes from port `from` or a later one, and refuses the first port
    // up to it that breaks a rule; `earlier` are the identifiers that came before.
    fn look_at_next(
        &self,
        phase: Phase,
        from: u32,
        earlier: &[Identifier],
        reader: &mut Reader<'_, Payload>,
    ) -> Result<Payload, Refused>
        requires more { HasFrom reader.old.slots reader.old.cursor }
        requires from { from ≡ reader.old.cursor }
        requires ports { length reader.old.slots ≡ ports self.now }
        requires looked { Looked self.now phase reader.old.slots from earlier.now }
        ensures slots { reader.new.slots ≡ reader.old.slots }
        ensures hello { IfOk result (λ payload. (id : ℕ) → payload ≡ Hello id → phase ≡ Orient) }
        ensures later { (reader.old.cursor < reader.new.cursor) × (reader.new.cursor ≤ ports self.now) }
        ensures answer { MatchResult result
            (λ payload. Looked self.now phase reader.old.slots reader.new.cursor (and_id earlier.now (Some payload)))
            (λ refused. first_refusal self.now phase reader.old.slots ≡ Some refused) }
    {
        let payload = reader.next();
        let port = reader.sender();
        self.none_due(phase, from, port)?;
        self.look_at(phase, earlier, port, &payload)?;
        Ok(payload)
    }

    // The first refusal of a port, by ascending port. If there is none, how many identifiers came,
    // which are at the front of `identifiers`: these come at Orient alone.
    pub(crate) fn look_at_ports(
        &self,
        phase: Phase,
        identifiers: &mut [Identifier],
        inbox: &Inbox<Payload>,
    ) -> Result<usize, Refused>
        requires ports { length inbox.now.slots ≡ ports self.now }
        requires room { phase ≡ Orient → ports self.now ≤ length identifiers.old }
        ensures answer { MatchResult result
            (λ _. first_refusal self.now phase inbox.now.slots ≡ None)
            (λ refused. first_refusal self.now phase inbox.now.slots ≡ Some refused) }
        ensures came { IfOk result
            (λ count. (count ≤ length identifiers.new) × (take count identifiers.new ≡ ids_in inbox.now.slots)) }
        ensures room { length identifiers.new ≡ length identifiers.old }
    {
        let ports = self.roles.len() as u32;
        let mut count = 0;
        let mut from = 0;
        let mut reader = inbox.reader();
        while reader.has_next() {
            let payload = self.look_at_next(phase, from, &identifiers[..count], &mut reader)?;
            if let Payload::Hello(id) = payload {
                identifiers[count] = id.get();
                count += 1;
            }
            from = reader.sender() + 1;
        }
        self.none_due(phase, from, ports)?;
        Ok(count)
    }
}
