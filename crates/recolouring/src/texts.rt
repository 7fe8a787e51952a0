//! The words of the colours that are chosen anew in texts.

use crate::laws::rounds_end_with_a_plan_that_none_can_lower;
use crate::node::Recolours;
use colour_program::Colouring;
use followed::SequelText;
use interference::Network;
use number_rows::push_numbered;
use std::alloc::AllocError;

impl SequelText<Colouring> for Recolours {
    ghost use Rattle.recolouring.specs.Texts.{recolouring_words};
    ghost use Rattle.recolouring.specs.TextsLaws.{recolouring_named};

    ghost words = { recolouring_words };

    ghost are_named = { recolouring_named };

    fn rounds_end() {
        rounds_end_with_a_plan_that_none_can_lower();
    }

    fn program_name() -> &'static str {
        "recolouring"
    }

    fn push_found(&self, _first: &Colouring, text: &mut Vec<u8>) -> Result<(), AllocError> {
        push_numbered(text, b" channel ", u128::from(self.colour()) + 1)
    }

    fn push_more(
        &self,
        _first: &Colouring,
        _text: &mut Vec<u8>,
        _net: &Network,
        _v: u32,
    ) -> Result<(), AllocError> {
        Ok(())
    }
}
