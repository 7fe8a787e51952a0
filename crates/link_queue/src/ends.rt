//! The two ends of a link.

ghost use Rattle.std.specs.Prelude.{◌≡◌, [], true};
ghost use Rattle.crossbeam_queue.specs.Passes.{view};
ghost use Rattle.wires.specs.StampedWires.{wires_of};
ghost use Rattle.link_queue.specs.Rule.{has_close};

use crate::queued::Queued;
use crate::view::EndView;
use crossbeam_queue::Pass;
use node_api::NodeProgram;

/// The end that puts, of a link of the program `P`.
pub type PutEnd<P: NodeProgram> = PutSide<P::Payload>;

/// The end that takes, of a link of the program `P`.
pub type TakeEnd<P: NodeProgram> = TakeSide<P::Payload>;

/// The end that puts wires with payload `T`. `PutEnd` names it by the program.
#[derive(Drop)]
pub struct PutSide<T> {
    pub(crate) pass: Pass<Queued<T>, EndView<T>>,
    pub(crate) closed: bool,
    // It may put, and knows whether it put a close.
    pub ghost puts: { (pass.me.1 ≡ []) × ((view pass).puts ≡ true) × (closed ≡ has_close (wires_of (view pass).put)) },
}

/// The end that takes wires with payload `T`. `TakeEnd` names it by the program.
#[derive(Drop)]
pub struct TakeSide<T> {
    pub(crate) pass: Pass<Queued<T>, EndView<T>>,
    // It may take.
    pub ghost takes: { (pass.me.1 ≡ []) × ((view pass).takes ≡ true) },
}
