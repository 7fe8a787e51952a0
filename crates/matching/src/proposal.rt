//! What the nodes of the matching send one another once their forests are coloured, and its text.

use colour_rules::Payload;
use followed::WordsBeside;
use node_api::PayloadText;

/// What a node says to its parent, or to a child, in a forest. Its words are `free` and `take`.
#[derive(Debug, Clone, Copy, PartialEq, Eq)]
pub enum Proposal {
    /// The sender, a child of the receiver in this forest, has no partner.
    Free(u16),
    /// The sender takes the receiver, its child in this forest, as its partner.
    Take(u16),
}

impl PayloadText for Proposal {
    ghost use Rattle.matching.specs.Words.{IsProposal, number_in, proposal_from, word_in};
    ghost use Rattle.matching.specs.WordsLaws.{words_are_letters};
    ghost use Rattle.matching.specs.WordsLaws.{words_read_back};

    ghost is_payload = { IsProposal };

    ghost word_of = { word_in };

    ghost number_of = { number_in };

    ghost payload_of = { proposal_from };

    fn words(self) -> (&'static str, u128) {
        match self {
            Proposal::Free(forest) => ("free", u128::from(forest)),
            Proposal::Take(forest) => ("take", u128::from(forest)),
        }
    }

    fn from_words(word: &str, number: u128) -> Option<Self> {
        let is_short = number <= u128::from(u16::MAX);
        if word == "free" && is_short {
            Some(Proposal::Free(number as u16))
        } else if word == "take" && is_short {
            Some(Proposal::Take(number as u16))
        } else {
            None
        }
    }

    ghost letters = { words_are_letters };

    ghost reads_back = { words_read_back };
}

impl WordsBeside<Payload> for Proposal {
    ghost use Rattle.matching.specs.WordsLaws.{words_apart};

    ghost apart = { words_apart };
}
