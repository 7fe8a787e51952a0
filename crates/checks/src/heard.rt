//! A program that writes down what comes to it.
ghost use Rattle.std.specs.Prelude.{◌≡◌};

use interference::{Memory, Network};
use node_api::{Inbox, NodeProgram, Outbox, Refused};
use std::alloc::Global;
use std::marker::Model;

/// A payload and the port by which it came, or none.
pub type Came<T> = Option<(u32, T)>;

/// The program `P`, and the first two payloads of its last inbox.
#[derive(Drop)]
pub struct Heard<P: NodeProgram> {
    program: P,
    // Working space, which contracts don't see.
    first: Came<P::Payload>,
    second: Came<P::Payload>,
}

impl<P: NodeProgram> Model for Heard<P> {
    ghost Value = { P };

    ghost view = { λ a. a.program };
}

// Reads the next payload, if there is one more.
fn read_next<T: Copy>(inbox: &mut Inbox<T>) -> Came<T>
    ensures same { inbox.new.slots ≡ inbox.old.slots }
{
    if !inbox.has_next() {
        return None;
    }
    let payload = inbox.next();
    Some((inbox.sender(), payload))
}

// Reads the first two payloads of an inbox, and rewinds it.
fn read_two<T: Copy>(inbox: &mut Inbox<T>) -> (Came<T>, Came<T>)
    ensures same { inbox.new.slots ≡ inbox.old.slots }
    ensures rewound { inbox.new.cursor ≡ 0 }
{
    let first = read_next(inbox);
    let second = read_next(inbox);
    inbox.rewind();
    (first, second)
}

impl<P: NodeProgram> Heard<P> {
    /// The first two payloads of the last inbox, each with its port.
    pub fn heard(&self) -> (Came<P::Payload>, Came<P::Payload>) {
        (self.first, self.second)
    }
}

impl<P: NodeProgram> NodeProgram for Heard<P> {
    type Payload = P::Payload;

    ghost program = { P.program };

    ghost laws = { P.laws };

    fn last_pulse(net: &Network) -> u32 {
        P::last_pulse(net)
    }

    fn make(alloc: Global, net: &Network, v: u32) -> Result<Self, Memory> {
        let program = P::make(alloc, net, v)?;
        Ok(Heard {
            program,
            first: None,
            second: None,
        })
    }

    fn init(&mut self, out: &mut Outbox<P::Payload>) {
        self.program.init(out);
    }

    fn pre_step(&mut self, pulse: u32) {
        self.program.pre_step(pulse);
    }

    fn handle_messages(
        &mut self,
        pulse: u32,
        inbox: &mut Inbox<P::Payload>,
        out: &mut Outbox<P::Payload>,
    ) -> Result<(), Refused> {
        (self.first, self.second) = read_two(inbox);
        self.program.handle_messages(pulse, inbox, out)
    }

    fn post_step(&mut self, pulse: u32) {
        self.program.post_step(pulse);
    }
}
