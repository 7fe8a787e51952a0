//! The pulses of the merging in which a node does nothing by itself, and only takes in what comes.
ghost use Rattle.std.specs.Prelude.{◌≡◌, ◌<◌, ◌≤◌, ◌↔◌, ℕ, IsTrue, false};
ghost use Rattle.colour_rules.specs.Choice.{chooses};
ghost use Rattle.colour_rules.specs.Idle.{IsWaiting, no_pulses};
ghost use Rattle.colour_rules.specs.Node.{phase_of, steps};

use crate::node::ColourNode;
use crate::phase::Phase;

/// Pulses in which a node does nothing if nothing comes: those from `from` on and before `to`, in the merging
/// of the forest `forest`.
#[derive(Debug, Clone, Copy, PartialEq, Eq)]
pub struct IdlePulses {
    pub from: u32,
    pub to: u32,
    pub forest: u16,
}

impl IdlePulses {
    /// No pulse.
    pub fn none() -> Self
        ensures { result ≡ no_pulses }
    {
        Self {
            from: 0,
            to: 0,
            forest: 0,
        }
    }

    /// Whether a pulse is among them.
    pub fn contains(self, pulse: u32) -> bool
        ensures { IsTrue result ↔ ((self.from ≤ pulse) × (pulse < self.to)) }
    {
        self.from <= pulse && pulse < self.to
    }
}

impl ColourNode {
    // The pulses right after one of the merging in which the node has nothing to do unless something
    // comes: up to its turn in the forest, or after it up to the next forest. None at other pulses.
    pub(crate) fn idle_after(&self, pulse: u32, phase: Phase) -> IdlePulses
        requires { phase ≡ phase_of self.now.sizes pulse }
        ensures { IsWaiting self.now result }
    {
        match phase {
            Phase::Merge(forest, step) => {
                let end = self.next_due(forest, step);
                IdlePulses {
                    from: pulse.saturating_add(1),
                    to: pulse.saturating_add(end - step),
                    forest,
                }
            }
            _ => IdlePulses::none(),
        }
    }

    // The step of a forest at which the node next has something to do: its turn, or the end.
    fn next_due(&self, forest: u16, step: u32) -> u32
        requires forest { forest < self.now.sizes.forests }
        requires step { step < steps self.now.sizes }
        ensures later { step < result }
        ensures within { result ≤ steps self.now.sizes }
        ensures idle { (s : ℕ) → step < s → s < result → chooses self.now forest s ≡ false }
    {
        let three = self.colours.own(self.id, forest);
        let width = u32::from(self.span()) + 1;
        if three <= 2 {
            let turn = three as u32 * width + u32::from(self.colour_before);
            if step < turn {
                return turn;
            }
        }
        self.steps()
    }
}
