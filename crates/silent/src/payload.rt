//! What the nodes send one another, and its text.

use node_api::PayloadText;

/// A number. Its word is `silent`.
#[derive(Debug, Clone, Copy, PartialEq, Eq)]
pub struct Word(pub u32);

impl PayloadText for Word {
    ghost use Rattle.std.specs.Prelude.{codes, ◌<◌, ◌^◌};
    ghost use Rattle.silent.specs.Words.{word_from};
    ghost use Rattle.silent.specs.WordsLaws.{word_letters, word_reads_back};

    ghost is_payload = { λ x. x.0 < 2 ^ 32 };

    ghost word_of = { λ x. codes "silent" };

    ghost number_of = { λ x. x.0 };

    ghost payload_of = { word_from };

    ghost letters = { word_letters };

    ghost reads_back = { word_reads_back };

    fn words(self) -> (&'static str, u128) {
        ("silent", u128::from(self.0))
    }

    fn from_words(word: &str, number: u128) -> Option<Self> {
        if word == "silent" && number <= u128::from(u32::MAX) {
            Some(Word(number as u32))
        } else {
            None
        }
    }
}
