//! From an outbox of a pulse to the inboxes of the next one.

ghost use Rattle.std.specs.Prelude.{◌≡◌, ◌<◌, ◌+◌, ◌++◌, ◌∷◌, ◌↔◌, ℕ, List, Option, [], false, length};
ghost use Rattle.interference.specs.Net.{IsNetwork, IsVertex, degree_of};
ghost use Rattle.node_api.specs.Boxes.{nothing, FilledPorts};
ghost use Rattle.sync_rounds.specs.Delivery.{Broadcasts, Delivered, IsNext, Sends};

use interference::Network;
use node_api::{Inbox, Outbox, Sent};

// Puts what one vertex sent into its neighbours' inboxes, and empties its outbox; an outbox that sends nothing isn't
// looked into. Returns whether something was sent. Inlined, since after most turns nothing is.
#[inline(always)]
pub(crate) fn send_out<T: Copy>(
    net: &Network,
    w: u32,
    out: &mut Outbox<T>,
    inboxes: &mut [Inbox<T>],
) -> bool
    requires network { IsNetwork net.now }
    requires vertex { IsVertex net.now w }
    requires ports { length out.old ≡ degree_of net.now w }
    requires before { (outs : List (List (Option T))) × Sends net.now outs w out.old inboxes.old }
    ensures after { (outs : List (List (Option T))) → Sends net.now outs w out.old inboxes.old
        → Delivered net.now outs (w + 1) [] inboxes.new }
    ensures out { out.new ≡ nothing (length out.old) }
    ensures sent { (result ≡ false) ↔ (out.old ≡ nothing (length out.old)) }
    ensures quiet { result ≡ false → inboxes.new ≡ inboxes.old }
{
    if !out.is_quiet() {
        deliver_out(net, w, out, inboxes);
        out.clear();
        return true;
    }
    false
}

// Puts what is in the outbox of one vertex into its neighbours' inboxes, each payload at the port that leads back.
// Never inlined, so that a turn that sends nothing has nothing of it.
#[inline(never)]
fn deliver_out<T: Copy>(net: &Network, w: u32, out: &Outbox<T>, inboxes: &mut [Inbox<T>])
    requires network { IsNetwork net.now }
    requires vertex { IsVertex net.now w }
    requires ports { length out.now ≡ degree_of net.now w }
    requires before { (outs : List (List (Option T))) × Sends net.now outs w out.now inboxes.old }
    ensures after { (outs : List (List (Option T))) → Sends net.now outs w out.now inboxes.old
        → Delivered net.now outs (w + 1) [] inboxes.new }
{
    match out.sent() {
        Sent::Everywhere(payload) => deliver_everywhere(net, w, payload, inboxes),
        Sent::At(ports) => deliver_at(net, w, ports, out, inboxes),
    }
}

// Puts this payload, which a vertex sent at every port, into its neighbours' inboxes.
fn deliver_everywhere<T: Copy>(net: &Network, w: u32, payload: T, inboxes: &mut [Inbox<T>])
    requires vertex { IsVertex net.now w }
    requires before { (outs : List (List (Option T))) × Broadcasts net.now outs w payload inboxes.old }
    ensures after { (outs : List (List (Option T))) → Broadcasts net.now outs w payload inboxes.old
        → Delivered net.now outs (w + 1) [] inboxes.new }
{
    for port in 0..net.degree(w) {
        deliver_one(net, w, port, payload, inboxes);
    }
}

// Puts what a vertex sent at these ports into its neighbours' inboxes.
fn deliver_at<T: Copy>(
    net: &Network,
    w: u32,
    ports: &[u32],
    out: &Outbox<T>,
    inboxes: &mut [Inbox<T>],
)
    requires network { IsNetwork net.now }
    requires vertex { IsVertex net.now w }
    requires size { length out.now ≡ degree_of net.now w }
    requires sent { FilledPorts out.now ports.now }
    requires before { (outs : List (List (Option T))) × Sends net.now outs w out.now inboxes.old }
    ensures after { (outs : List (List (Option T))) → Sends net.now outs w out.now inboxes.old
        → Delivered net.now outs (w + 1) [] inboxes.new }
{
    for &port in ports {
        match out.get(port) {
            Some(payload) => deliver_one(net, w, port, payload, inboxes),
            None => unreachable!(),
        }
    }
}

// Puts the payload that a vertex sent at this port into the neighbour's inbox, at the port that leads back.
#[inline]
fn deliver_one<T: Copy>(net: &Network, w: u32, port: u32, payload: T, inboxes: &mut [Inbox<T>])
    requires vertex { IsVertex net.now w }
    requires port { port < degree_of net.now w }
    requires next { (outs : List (List (Option T))) × (of_w : List ℕ)
        × IsNext net.now outs w of_w port payload inboxes.old }
    ensures after { (outs : List (List (Option T))) → (of_w : List ℕ)
        → IsNext net.now outs w of_w port payload inboxes.old
        → Delivered net.now outs w (of_w ++ port ∷ []) inboxes.new }
{
    let v = net.neighbour(w, port);
    let inbox = &mut inboxes[(v - 1) as usize];
    inbox.put(net.back_port(w, port), payload);
}
