//! The words of the election in texts.

use crate::laws::rounds_end_with_the_leader;
use crate::node::Leader;
use interference::Network;
use number_rows::push_numbered;
use program_texts::NamedText;
use std::alloc::AllocError;

impl NamedText for Leader {
    ghost use Rattle.leader.specs.Texts.{leader_words};
    ghost use Rattle.leader.specs.TextsLaws.{leader_named};

    ghost words = { leader_words };

    ghost are_named = { leader_named };

    fn rounds_end() {
        rounds_end_with_the_leader();
    }

    fn program_name() -> &'static str {
        "leader"
    }

    fn push_found(&self, text: &mut Vec<u8>) -> Result<(), AllocError> {
        push_numbered(text, b" leader ", self.best())
    }

    fn push_more(&self, text: &mut Vec<u8>, net: &Network, v: u32) -> Result<(), AllocError> {
        if net.id(v) == self.best() {
            text.extend_from_slice(b" elected")?;
        }
        Ok(())
    }
}
