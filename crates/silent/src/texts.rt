//! The words of the program in texts.

use crate::laws::rounds_end_with_the_numbers;
use crate::node::Silent;
use interference::Network;
use number_rows::push_numbered;
use program_texts::NamedText;
use std::alloc::AllocError;

impl NamedText for Silent {
    ghost use Rattle.silent.specs.Texts.{silent_words};
    ghost use Rattle.silent.specs.TextsLaws.{silent_named};

    ghost words = { silent_words };

    ghost are_named = { silent_named };

    fn rounds_end() {
        rounds_end_with_the_numbers();
    }

    fn program_name() -> &'static str {
        "silent"
    }

    // Place 5: what a node has found, in words, with a space before each.
    fn push_found(&self, text: &mut Vec<u8>) -> Result<(), AllocError> {
        push_numbered(text, b" silent ", u128::from(self.number()))
    }

    fn push_more(&self, _text: &mut Vec<u8>, _net: &Network, _v: u32) -> Result<(), AllocError> {
        Ok(())
    }
}
