//! What the nodes send one another, and its text.

use node_api::PayloadText;

/// How many links its sender is away from the root. Its word is `hops`.
#[derive(Debug, Clone, Copy, PartialEq, Eq)]
pub struct Hops(pub u32);

impl PayloadText for Hops {
    ghost use Rattle.std.specs.Prelude.{codes, ◌<◌, ◌^◌};
    ghost use Rattle.layers.specs.Words.{hops_from};
    ghost use Rattle.layers.specs.WordsLaws.{hops_letters, hops_reads_back};

    ghost is_payload = { λ x. x.0 < 2 ^ 32 };

    ghost word_of = { λ x. codes "hops" };

    ghost number_of = { λ x. x.0 };

    ghost payload_of = { hops_from };

    ghost letters = { hops_letters };

    ghost reads_back = { hops_reads_back };

    fn words(self) -> (&'static str, u128) {
        ("hops", u128::from(self.0))
    }

    fn from_words(word: &str, number: u128) -> Option<Self> {
        if word == "hops" && number <= u128::from(u32::MAX) {
            Some(Hops(number as u32))
        } else {
            None
        }
    }
}
