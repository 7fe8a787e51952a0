//! What the nodes send one another, and its text.

use node_api::PayloadText;

/// The greatest identifier that its sender knows. Its word is `leader`.
#[derive(Debug, Clone, Copy, PartialEq, Eq)]
pub struct Candidate(pub u128);

impl PayloadText for Candidate {
    ghost use Rattle.std.specs.Prelude.{codes, ◌<◌};
    ghost use Rattle.interference.specs.Net.{id_bound};
    ghost use Rattle.leader.specs.Words.{candidate_from};
    ghost use Rattle.leader.specs.WordsLaws.{candidate_letters, candidate_reads_back};

    ghost is_payload = { λ x. x.0 < id_bound };

    ghost word_of = { λ x. codes "leader" };

    ghost number_of = { λ x. x.0 };

    ghost payload_of = { candidate_from };

    ghost letters = { candidate_letters };

    ghost reads_back = { candidate_reads_back };

    fn words(self) -> (&'static str, u128) {
        ("leader", self.0)
    }

    fn from_words(word: &str, number: u128) -> Option<Self> {
        if word == "leader" {
            Some(Candidate(number))
        } else {
            None
        }
    }
}
