//! What a node does in the pulses in which it only takes in what comes.
ghost use Rattle.std.specs.Prelude.{◌≡◌, ◌<◌, ◌≤◌, IfSome, IsTrue, Ok, false, if◌then◌else◌, length, true};
ghost use Rattle.std.specs.Prelude.{slice_index_or};
ghost use Rattle.node_api.specs.Boxes.{HasFrom, nothing};
ghost use Rattle.node_api.specs.Program.{span};
ghost use Rattle.forests.specs.declared.numbering.Role.TheVariants.{Unknown};
ghost use Rattle.colour_rules.specs.Idle.{IsPassed, IsTaken, IsWaiting};
ghost use Rattle.colour_rules.specs.Choice.{with_taken};
ghost use Rattle.colour_rules.specs.Node.{ports};
ghost use Rattle.colour_rules.specs.Table.{is_merged};
ghost use Rattle.colour_rules.specs.Program.{next};

use crate::idle::IdlePulses;
use crate::node::ColourNode;
use crate::payload::Payload;
use crate::ports::is_merged;
use node_api::{Inbox, Reader};

impl ColourNode {
    /// A pulse at which the node only takes in what came, if anything did, which is one of `idle`; nothing is sent, and
    /// the pulses in which it waits stay the same. Returns false, and leaves the node as it was, if the pulse isn't
    /// one of them or something came that may not come: then `pulse` says what is refused.
    pub fn hear(&mut self, idle: IdlePulses, pulse: u32, inbox: &Inbox<Payload>) -> bool
        requires waits { IsWaiting self.old idle }
        requires inbox { length inbox.now.slots ≡ ports self.old }
        ensures heard { IsTrue result → next self.old pulse inbox.now.slots ≡ Ok (self.new, nothing (ports self.old)) }
        ensures waits { IsWaiting self.new idle }
        ensures refused { result ≡ false → self.new ≡ self.old }
        ensures sizes { (ports self.new ≡ ports self.old) × (self.new.sizes ≡ self.old.sizes) }
    {
        if !idle.contains(pulse) {
            return false;
        }
        if !inbox.reader().has_next() {
            return true;
        }
        self.hear_all(idle.forest, inbox)
    }

    // Takes in what came, which is something, if it may come at each step of a forest after the first. Never inlined,
    // so that an engine's loop has nothing of it but the call.
    #[inline(never)]
    fn hear_all(&mut self, forest: u16, inbox: &Inbox<Payload>) -> bool
        requires ports { length inbox.now.slots ≡ ports self.old }
        requires more { HasFrom inbox.now.slots 0 }
        ensures accepted { IsTrue result → IsPassed self.old forest inbox.now.slots (ports self.old) }
        ensures node { self.new ≡ (if result then with_taken self.old inbox.now.slots else self.old) }
    {
        let mut reader = inbox.reader();
        let Some(first) = self.take_next(forest, &mut reader) else {
            return false;
        };
        // Most payloads come alone.
        if !reader.has_next() {
            self.taken.add(first);
            return true;
        }
        if !self.takes_rest(forest, reader) {
            return false;
        }
        self.taken.add_all(inbox);
        true
    }

    // Whether what is still to be read may come at each step of a forest after the first.
    fn takes_rest(&self, forest: u16, mut reader: Reader<'_, Payload>) -> bool
        requires ports { length reader.slots ≡ ports self.now }
        requires within { reader.cursor ≤ ports self.now }
        requires passed { IsPassed self.now forest reader.slots reader.cursor }
        ensures accepted { IsTrue result → IsPassed self.now forest reader.entry.slots (ports self.now) }
    {
        while reader.has_next() {
            if self.take_next(forest, &mut reader).is_none() {
                return false;
            }
        }
        true
    }

    // Reads the next payload, and returns its colour if it may come at each step of a forest after the first.
    fn take_next(&self, forest: u16, reader: &mut Reader<'_, Payload>) -> Option<u16>
        requires more { HasFrom reader.old.slots reader.old.cursor }
        requires ports { length reader.old.slots ≡ ports self.now }
        requires passed { IsPassed self.now forest reader.old.slots reader.old.cursor }
        ensures taken { IfSome result (λ colour. IsTaken self.now forest reader.old colour reader.new) }
    {
        let payload = reader.next();
        let port = reader.sender();
        match payload {
            Payload::Chosen(colour) if self.takes(forest, port, colour.get()) => Some(colour.get()),
            _ => None,
        }
    }

    // Whether a colour may come from a port at each step of a forest after the first.
    fn takes(&self, forest: u16, port: u32, colour: u16) -> bool
        requires { port < ports self.now }
        ensures low { IsTrue result → colour ≤ span self.now.sizes }
        ensures merged { IsTrue result → is_merged forest (slice_index_or self.now.roles port Unknown) ≡ true }
    {
        colour <= self.span() && is_merged(forest, self.roles[port as usize])
    }
}
