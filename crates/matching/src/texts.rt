//! The words of the matching in texts.

ghost use Rattle.std.specs.Prelude.{◌≡◌, ◌++◌, IfOk, Some};
ghost use Rattle.interference.specs.Net.{IsVertex};
ghost use Rattle.matching.specs.Texts.{partner_text, towards_text};

use crate::laws::rounds_end_with_a_maximal_matching;
use crate::node::Turns;
use colour_program::Colouring;
use followed::SequelText;
use interference::Network;
use number_rows::push_numbered;
use std::alloc::AllocError;

// Appends the port that leads to a partner.
fn push_partner(text: &mut Vec<u8>, partner: Option<u32>) -> Result<(), AllocError>
    ensures { IfOk result (λ _. text.new.items ≡ text.old.items ++ partner_text partner) }
{
    match partner {
        None => text.extend_from_slice(b" partner none"),
        Some(port) => push_numbered(text, b" partner ", u128::from(port)),
    }
}

// Appends the neighbour at the port of a partner.
fn push_to(text: &mut Vec<u8>, net: &Network, v: u32, port: u32) -> Result<(), AllocError>
    requires vertex { IsVertex net.now v }
    ensures { IfOk result (λ _. text.new.items ≡ text.old.items ++ towards_text net.now v (Some port)) }
{
    if port < net.degree(v) {
        push_numbered(text, b" to ", u128::from(net.neighbour(v, port)))?;
    }
    Ok(())
}

impl SequelText<Colouring> for Turns {
    ghost use Rattle.matching.specs.Texts.{matching_words};
    ghost use Rattle.matching.specs.TextsLaws.{matching_named};

    ghost words = { matching_words };

    ghost are_named = { matching_named };

    fn rounds_end() {
        rounds_end_with_a_maximal_matching();
    }

    fn program_name() -> &'static str {
        "matching"
    }

    fn push_found(&self, _first: &Colouring, text: &mut Vec<u8>) -> Result<(), AllocError> {
        push_partner(text, self.partner())
    }

    fn push_more(
        &self,
        _first: &Colouring,
        text: &mut Vec<u8>,
        net: &Network,
        v: u32,
    ) -> Result<(), AllocError> {
        match self.partner() {
            Some(port) => push_to(text, net, v, port),
            None => Ok(()),
        }
    }
}
