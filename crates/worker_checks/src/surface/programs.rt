//! Programs of nodes, and the two that were asked for.

ghost use Rattle.std.specs.Prelude.{◌≡◌, ◌<◌, ◌≤◌, length};
ghost use Rattle.interference.specs.Net.{IsVertex};
ghost use Rattle.node_api.specs.Boxes.{nothing};

use colour_program::Colouring;
use colour_rules::Payload;
use interference::{MAX_DEGREE, Memory, Network};
use node_api::{Inbox, NodeProgram, Outbox, PayloadText, Refused};
use std::alloc::Global;
use sync_rounds::{Best, Greatest, run_rounds};

pub fn made<P: NodeProgram>(alloc: Global, net: &Network, v: u32) -> Result<P, Memory>
    requires { IsVertex net.now v }
{
    let _: u32 = P::last_pulse(net);
    P::make(alloc, net, v)
}

pub fn greeting<P: NodeProgram>(node: &mut P, out: &mut Outbox<P::Payload>)
    requires { out.old ≡ nothing (P.program.ports node.old) }
{
    node.init(out)
}

pub fn pulse<P: NodeProgram>(
    node: &mut P,
    pulse: u32,
    inbox: &mut Inbox<P::Payload>,
    out: &mut Outbox<P::Payload>,
) -> Result<(), Refused>
    requires pulse { 1 ≤ pulse }
    requires rewound { inbox.old.cursor ≡ 0 }
    requires inbox { length inbox.old.slots ≡ P.program.ports node.old }
    requires out { out.old ≡ nothing (P.program.ports node.old) }
{
    node.pre_step(pulse);
    let answer = node.handle_messages(pulse, inbox, out);
    node.post_step(pulse);
    answer
}

pub fn colouring() {
    let _: fn(&Colouring) -> u16 = Colouring::colour;
    let _: fn(&str, u128) -> Option<Payload> = Payload::from_words;
    let _: fn(u128) -> Payload = Payload::hello;
    let _: fn(u16) -> Payload = Payload::label;
    let _: fn(u128) -> Payload = Payload::colour;
    let _: fn(u16) -> Payload = Payload::chosen;
}

pub fn words(payload: Payload) -> u128 {
    let (_, number): (&'static str, u128) = payload.words();
    number
}

pub fn payload(payload: Payload) -> u128 {
    match payload {
        Payload::Hello(number) | Payload::Colour(number) => number.get(),
        Payload::Label(number) | Payload::Chosen(number) => u128::from(number.get()),
    }
}

pub fn refused(refused: Refused) -> (u16, Option<u32>) {
    let Refused { rule, port } = refused;
    (rule, port)
}

pub fn new_inbox(alloc: Global, degree: u32) -> Result<Inbox<Payload>, Memory>
    requires { degree ≤ MAX_DEGREE }
{
    Inbox::new(alloc, degree)
}

pub fn inbox(inbox: &mut Inbox<Payload>, port: u32, payload: Payload) -> Option<(u32, Payload)>
    requires { port < length inbox.old.slots }
{
    inbox.clear();
    if inbox.is_empty(port) {
        inbox.put(port, payload);
    }
    inbox.rewind();
    if inbox.has_next() {
        let payload = inbox.next();
        Some((inbox.sender(), payload))
    } else {
        None
    }
}

pub fn new_outbox(alloc: Global, degree: u32) -> Result<Outbox<Payload>, Memory>
    requires { degree ≤ MAX_DEGREE }
{
    Outbox::new(alloc, degree)
}

pub fn broadcast(out: &mut Outbox<Payload>, payload: Payload)
    requires { out.old ≡ nothing (length out.old) }
{
    out.broadcast(payload)
}

pub fn outbox(out: &mut Outbox<Payload>, port: u32, payload: Payload) -> Option<Payload>
    requires { port < length out.old }
{
    out.clear();
    if out.is_free(port) {
        out.send(port, payload);
    }
    out.get(port)
}

pub fn rounds<P: NodeProgram>(alloc: Global, net: &Network) -> Result<Vec<P>, Memory> {
    run_rounds::<P>(alloc, net)
}

pub fn greatest(greatest: &Greatest<3>) -> Best {
    Best(greatest.best())
}
