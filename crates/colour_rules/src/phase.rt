//! The phase of a pulse: the one place where the number of a pulse means something.
ghost use Rattle.std.specs.Prelude.{◌≡◌, ◌≤◌, ◌+◌, ◌/◌, ◌%◌};
ghost use Rattle.node_api.specs.Program.{sizes_of, span};
ghost use Rattle.colour_rules.specs.Node.{IsPhase, phase_of, steps};
ghost use Rattle.colour_rules.specs.Program.{is_last};

use crate::node::ColourNode;
use interference::Network;
use std::marker::Model;

/// The pulse of the first step of the merging.
pub const FIRST_MERGE: u32 = 13;

/// What a node makes of its colour in each forest at a pulse.
#[derive(Debug, Clone, Copy, PartialEq, Eq)]
pub enum Reduction {
    /// This bit step, 0 to 3.
    Step(u8),
    /// The shift before this class, 5 to 3, is dropped.
    Shift(u8),
    /// The drop of this class.
    Drop(u8),
}

impl Reduction {
    // Whether no work on the colours is left: the last is the drop of 3.
    pub(crate) fn is_last(self) -> bool
        ensures { result ≡ is_last self }
    {
        matches!(self, Reduction::Drop(3))
    }
}

/// The phases of the rounds, in their order.
#[derive(Debug, Clone, Copy, PartialEq, Eq)]
pub enum Phase {
    Greet,
    Orient,
    Seed,
    Work(Reduction),
    /// The merging of this forest, at this step of it.
    Merge(u16, u32),
    Halted,
}

/// What the phases depend on. Contracts see the sizes of the network, as `node_api` has them.
#[derive(Drop)]
pub struct Schedule {
    pub(crate) nodes: u32,
    pub(crate) greatest_degree: u16,
    pub(crate) greatest_bars: u16,
    pub(crate) forests: u16,
}

impl Model for Schedule {
    ghost use Rattle.node_api.specs.Program.{Sizes};
    ghost use Rattle.colour_rules.specs.Node.{IsSchedule};

    ghost Value = { Sizes };

    ghost view = { λ a. record {
      nodes = a.nodes;
      greatest_degree = a.greatest_degree;
      greatest_bars = a.greatest_bars;
      forests = a.forests;
    } };

    ghost invariant = { λ a. IsSchedule a.greatest_degree a.greatest_bars a.forests };
}

impl Schedule {
    /// The schedule of the rounds on a network.
    pub fn of(net: &Network) -> Schedule
        ensures { result ≡ sizes_of net.now }
    {
        Schedule {
            nodes: net.nodes(),
            greatest_degree: net.greatest_degree() as u16,
            greatest_bars: net.greatest_bars() as u16,
            forests: net.forest_count() as u16,
        }
    }

    // The greatest colour.
    fn span(&self) -> u16
        ensures { result ≡ span self.now }
    {
        self.greatest_degree + self.greatest_bars
    }

    // How many steps the merging of a forest takes.
    fn steps(&self) -> u32
        ensures { result ≡ steps self.now }
    {
        3 * (u32::from(self.span()) + 1)
    }

    /// The phase of a pulse: greeting, orienting, seeding, ten pulses of work on the colours of the
    /// forests, the merging of one forest after another, and after the last pulse `Halted`.
    pub fn phase(&self, pulse: u32) -> Phase
        ensures phase { result ≡ phase_of self.now pulse }
        ensures real { IsPhase self.now result }
    {
        match pulse {
            0 => Phase::Greet,
            1 => Phase::Orient,
            2 => Phase::Seed,
            3..=6 => Phase::Work(Reduction::Step((pulse - 3) as u8)),
            7 => Phase::Work(Reduction::Shift(5)),
            8 => Phase::Work(Reduction::Drop(5)),
            9 => Phase::Work(Reduction::Shift(4)),
            10 => Phase::Work(Reduction::Drop(4)),
            11 => Phase::Work(Reduction::Shift(3)),
            12 => Phase::Work(Reduction::Drop(3)),
            _ => self.merge_phase(pulse),
        }
    }

    // The phase of a pulse after the work on the colours.
    fn merge_phase(&self, pulse: u32) -> Phase
        requires { FIRST_MERGE ≤ pulse }
        ensures { result ≡ phase_of self.now pulse }
    {
        let steps = self.steps();
        let done = pulse - FIRST_MERGE;
        if done < u32::from(self.forests) * steps {
            Phase::Merge((done / steps) as u16, done % steps)
        } else {
            Phase::Halted
        }
    }

    /// The three-colour and the old colour of the nodes that choose at a step of the merging of a forest.
    pub fn pair(&self, step: u32) -> (u32, u32)
        ensures three { result.0 ≡ step / (span self.now + 1) }
        ensures old { result.1 ≡ step % (span self.now + 1) }
    {
        let colours = u32::from(self.span()) + 1;
        (step / colours, step % colours)
    }
}

impl ColourNode {
    // The schedule of the node's network.
    pub(crate) fn schedule(&self) -> Schedule
        ensures { result ≡ self.now.sizes }
    {
        Schedule {
            nodes: self.nodes,
            greatest_degree: self.greatest_degree,
            greatest_bars: self.greatest_bars,
            forests: self.forests,
        }
    }

    // The greatest colour.
    pub(crate) fn span(&self) -> u16
        ensures { result ≡ span self.now.sizes }
    {
        self.schedule().span()
    }

    // How many steps the merging of a forest takes.
    pub(crate) fn steps(&self) -> u32
        ensures { result ≡ steps self.now.sizes }
    {
        self.schedule().steps()
    }

    /// The phase of a pulse.
    pub fn phase(&self, pulse: u32) -> Phase
        ensures phase { result ≡ phase_of self.now.sizes pulse }
        ensures real { IsPhase self.now.sizes result }
    {
        self.schedule().phase(pulse)
    }
}
