//! Each call of an inbox and an outbox once, with ample memory, at payloads of one byte.
ghost use Rattle.std.specs.Prelude.{◌≡◌, length};
ghost use Rattle.node_api.specs.Boxes.{nothing};

use node_api::{Inbox, Outbox, Sent};

// Whether this payload of this port is the next to be read.
fn next_is(inbox: &mut Inbox<u8>, port: u32, payload: u8) -> bool
    ensures { inbox.new.slots ≡ inbox.old.slots }
{
    inbox.has_next() && inbox.next() == payload && inbox.sender() == port
}

// Whether these payloads of these ports are read next, and then none.
fn reads(inbox: &mut Inbox<u8>, due: &[(u32, u8)]) -> bool
    ensures { inbox.new.slots ≡ inbox.old.slots }
{
    for (port, payload) in due {
        if !next_is(inbox, *port, *payload) {
            return false;
        }
    }
    !inbox.has_next()
}

static THREE: [(u32, u8); 3] = [(0, 4), (2, 9), (3, 7)];

static FOUR: [(u32, u8); 4] = [(0, 4), (2, 9), (3, 7), (4, 1)];

// Fills an empty inbox of five ports, and reads it twice; whether it is read by ascending port.
fn is_read_by_ascending_port(inbox: &mut Inbox<u8>) -> bool
    requires five { inbox.old.slots ≡ nothing 5 }
{
    inbox.put(3, 7);
    inbox.put(0, 4);
    inbox.put(2, 9);
    let holds_three = inbox.is_empty(1) && !inbox.is_empty(2) && inbox.is_empty(4);
    let reads_three = reads(inbox, &THREE);
    inbox.rewind();
    inbox.put(4, 1);
    let reads_four = reads(inbox, &FOUR);
    inbox.clear();
    holds_three && reads_three && reads_four && !inbox.has_next() && inbox.is_empty(3)
}

#[test]
fn an_inbox_is_read_by_ascending_port(rt: HostRuntime) {
    let mut inbox: Inbox<u8> = Inbox::new(rt.alloc(), 5).expect(&rt, "memory");
    assert!(rt; is_read_by_ascending_port(&mut inbox));
}

// The ports that are listed, or none if a payload goes everywhere.
fn listed(out: &Outbox<u8>) -> Option<&[u32]> {
    match out.sent() {
        Sent::Everywhere(_) => None,
        Sent::At(ports) => Some(ports),
    }
}

fn sends_nothing(out: &Outbox<u8>) -> bool {
    out.is_quiet() && listed(out) == Some([].as_slice())
}

// Whether an outbox of four ports sends 7 at port 2.
fn sends_at_port_2(out: &Outbox<u8>) -> bool
    requires four { length out.now ≡ 4 }
{
    !out.is_quiet()
        && listed(out) == Some([2].as_slice())
        && out.get(2) == Some(7)
        && !out.is_free(2)
        && out.is_free(1)
}

// Whether it sends 9 everywhere.
fn sends_everywhere(out: &Outbox<u8>) -> bool
    requires four { length out.now ≡ 4 }
{
    !out.is_quiet() && listed(out).is_none() && out.get(3) == Some(9)
}

// Sends in turn from an empty outbox of four ports; whether each is listed.
fn lists_what_it_sends(out: &mut Outbox<u8>) -> bool
    requires four { out.old ≡ nothing 4 }
{
    let nothing = sends_nothing(out);
    out.send(2, 7);
    let one = sends_at_port_2(out);
    out.clear();
    let freed = out.is_quiet() && out.is_free(2);
    out.broadcast(9);
    let all = sends_everywhere(out);
    out.clear();
    nothing && one && freed && all && sends_nothing(out) && out.is_free(3)
}

// Whether nothing is broadcast where there are no ports.
fn broadcasts_nothing(alone: &mut Outbox<u8>) -> bool
    requires none { alone.old ≡ nothing 0 }
{
    alone.broadcast(9);
    sends_nothing(alone)
}

#[test]
fn an_outbox_lists_what_it_sends(rt: HostRuntime) {
    let mut out: Outbox<u8> = Outbox::new(rt.alloc(), 4).expect(&rt, "memory");
    assert!(rt; lists_what_it_sends(&mut out));
    let mut alone: Outbox<u8> = Outbox::new(rt.alloc(), 0).expect(&rt, "memory");
    assert!(rt; broadcasts_nothing(&mut alone));
}
