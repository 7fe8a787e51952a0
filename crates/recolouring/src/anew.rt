//! What the nodes send one another once the colouring is over, and its text.

use colour_rules::Payload;
use followed::WordsBeside;
use node_api::PayloadText;

/// The colour that the sender has chosen anew. Its word is `anew`.
#[derive(Debug, Clone, Copy, PartialEq, Eq)]
pub struct Anew(pub u16);

impl PayloadText for Anew {
    ghost use Rattle.std.specs.Prelude.{codes, ◌<◌, ◌^◌};
    ghost use Rattle.recolouring.specs.Words.{anew_from};
    ghost use Rattle.recolouring.specs.WordsLaws.{anew_letters, anew_reads_back};

    ghost is_payload = { λ x. x.0 < 2 ^ 16 };

    ghost word_of = { λ x. codes "anew" };

    ghost number_of = { λ x. x.0 };

    ghost payload_of = { anew_from };

    ghost letters = { anew_letters };

    ghost reads_back = { anew_reads_back };

    fn words(self) -> (&'static str, u128) {
        ("anew", u128::from(self.0))
    }

    fn from_words(word: &str, number: u128) -> Option<Self> {
        if word == "anew" && number <= u128::from(u16::MAX) {
            Some(Anew(number as u16))
        } else {
            None
        }
    }
}

impl WordsBeside<Payload> for Anew {
    ghost use Rattle.recolouring.specs.WordsLaws.{anew_apart};

    ghost apart = { anew_apart };
}
