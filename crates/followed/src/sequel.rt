//! What follows a program.

ghost use Rattle.std.specs.Prelude.{◌≡◌, IfOk, OnErr, length};
ghost use Rattle.interference.specs.Net.{IsVertex};
ghost use Rattle.node_api.specs.Boxes.{nothing};
ghost use Rattle.node_api.specs.Laws.{IsProgram};
ghost use Rattle.node_api.specs.Program.{Matches, Program, own_of, sizes_of};
ghost use Rattle.followed.specs.declared.said.Said.{Said};
ghost use Rattle.followed.specs.Followed.{Sequel, IsSequel};

use crate::said::{Said, WordsBeside};
use interference::{Memory, Network};
use node_api::{Inbox, NodeProgram, Outbox, Refused};
use std::alloc::Global;

/// What a node goes on with, once a first program is over: it has its state of that program, which stays, and this
/// beside it.
pub trait Sequel<P: NodeProgram>: Sized + Drop + Send {
    ghost use Rattle.node_api.specs.declared.program.Refused.{Refused};

    /// What nodes send one another, once the first program is over.
    type Payload: WordsBeside<P::Payload>;

    /// What the first program means, and that it is a program: a member of this trait sees no member of `P`, so both
    /// are said again here, and `same` says that they are.
    ghost before: { Program P P.Payload Refused };

    ghost before_laws: { IsProgram before };

    /// What this part means.
    ghost sequel: { Sequel P Self P.Payload Self.Payload };

    /// The sequel may follow the first program: each node knows when it begins, it refuses nothing on the synchronous
    /// run, and sends nothing at the last pulse.
    ghost laws: { IsSequel before sequel };

    /// The last pulse of the first program that is made.
    fn until(&self) -> u32
        ensures until { result ≡ sequel.until self.now };

    /// The pulse after which a node is done.
    fn last_pulse(net: &Network) -> u32
        ensures last { result ≡ sequel.last (sizes_of net.now) net.now.again };

    /// What the node of a vertex has beside the first program, until that is over.
    ///
    /// # Errors
    ///
    /// `Memory` if memory is refused. No other call can return it.
    fn begin(alloc: Global, net: &Network, v: u32) -> Result<Self, Memory>
        requires vertex { IsVertex net.now v }
        ensures begin { IfOk result (λ beside. beside ≡ sequel.begin (own_of net.now v)) };

    /// A pulse, counted from 0 once the first program is over: reads what came, and sends. A refusal leaves the state
    /// and the empty outbox.
    ///
    /// # Errors
    ///
    /// `Refused` if the inbox breaks a rule of the sequel. On the synchronous run none does.
    fn pulse(
        &mut self,
        first: &P,
        pulse: u32,
        inbox: &Inbox<Said<P::Payload, Self::Payload>>,
        out: &mut Outbox<Said<P::Payload, Self::Payload>>,
    ) -> Result<(), Refused>
        requires inbox { length inbox.now.slots ≡ before.ports first.now }
        requires out { out.old ≡ nothing (before.ports first.now) }
        ensures answer { Matches result (sequel.next first.now self.old pulse inbox.now.slots) (self.new, out.new) }
        ensures refused { OnErr result ((self.new ≡ self.old) × (out.new ≡ out.old)) };

    /// The first program is that of the nodes.
    ghost same: { before ≡ P.program };
}
