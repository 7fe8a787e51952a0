//! A sequel that sends nothing, of a program whose working space counts the engine's calls.

ghost use Rattle.std.specs.Prelude.{◌≡◌};

use crate::counted::Counted;
use followed::{Followed, Said, Sequel, WordsBeside};
use interference::{Memory, Network};
use node_api::{Inbox, Outbox, PayloadText, Refused};
use std::alloc::Global;
use std::marker::Model;
use sync_rounds::Best;

/// What the sequel would send; it never does.
#[derive(Debug, Clone, Copy, PartialEq, Eq)]
pub struct Paused(pub u32);

impl PayloadText for Paused {
    ghost use Rattle.std.specs.Prelude.{codes, ◌<◌, ◌^◌};
    ghost use Rattle.checks.specs.Pausing.{paused_from};
    ghost use Rattle.checks.specs.PausingLaws.{paused_letters, paused_reads_back};

    ghost is_payload = { λ x. x.0 < 2 ^ 32 };

    ghost word_of = { λ x. codes "paused" };

    ghost number_of = { λ x. x.0 };

    ghost payload_of = { paused_from (λ n. record { 0 = n }) };

    ghost letters = { λ x. paused_letters };

    ghost reads_back = { λ x h. paused_reads_back (λ n. record { 0 = n }) x.0 h };

    fn words(self) -> (&'static str, u128) {
        ("paused", u128::from(self.0))
    }

    fn from_words(word: &str, number: u128) -> Option<Self> {
        if word == "paused" && number <= u128::from(u32::MAX) {
            Some(Paused(number as u32))
        } else {
            None
        }
    }
}

impl WordsBeside<Best> for Paused {
    ghost use Rattle.checks.specs.PausingLaws.{paused_apart};

    ghost apart = { λ x. paused_apart x.0 };
}

/// What a node has beside the first program: the number of the pulse that it made last after it.
#[derive(Drop)]
pub struct Pauses {
    made: u32,
}

/// Two pulses of `Counted<3>`, which is then cut off, and two of the sequel.
pub type Pausing = Followed<Counted<3>, Pauses>;

impl Model for Pauses {
    ghost use Rattle.std.specs.Prelude.{ℕ};

    ghost Value = { ℕ };

    ghost view = { λ a. a.made };
}

impl Pauses {
    /// The number of the pulse that it made last.
    pub fn made(&self) -> u32
        ensures { result ≡ self.now }
    {
        self.made
    }
}

impl Sequel<Counted<3>> for Pauses {
    ghost use Rattle.std.proofs.Common.{refl};
    ghost use Rattle.sync_rounds.specs.Spread.{spread};
    ghost use Rattle.sync_rounds.specs.SpreadLaws.{spread_laws};
    ghost use Rattle.checks.specs.Pausing.{pauses};
    ghost use Rattle.checks.specs.PausingLaws.{pauses_laws};

    type Payload = Paused;

    ghost before = { spread 3 };

    ghost before_laws = { spread_laws 3 };

    ghost sequel = { pauses };

    ghost laws = { pauses_laws };

    fn until(&self) -> u32 {
        2
    }

    fn last_pulse(_net: &Network) -> u32 {
        4
    }

    fn begin(_alloc: Global, _net: &Network, _v: u32) -> Result<Pauses, Memory> {
        Ok(Pauses { made: 0 })
    }

    fn pulse(
        &mut self,
        _first: &Counted<3>,
        pulse: u32,
        _inbox: &Inbox<Said<Best, Paused>>,
        _out: &mut Outbox<Said<Best, Paused>>,
    ) -> Result<(), Refused> {
        self.made = pulse;
        Ok(())
    }

    ghost same = { refl };
}
