//! What nodes send that run one program after another.

ghost use Rattle.std.specs.Prelude.{◌≡◌, Option};

use node_api::PayloadText;

/// A payload of the first program, or of the one that follows it.
#[derive(Debug, Clone, Copy, PartialEq, Eq)]
pub enum Said<A, B> {
    First(A),
    Then(B),
}

/// Payloads whose texts aren't those of `A`, so that both can be sent by one program.
pub trait WordsBeside<A: PayloadText>: PayloadText {
    /// No payload of `A` has the word and the number of one of these.
    ghost apart: { (x : Self) → A.payload_of (Self.word_of x) (Self.number_of x) ≡ Option.None };
}

impl<A: PayloadText, B: WordsBeside<A>> PayloadText for Said<A, B> {
    ghost use Rattle.followed.specs.Said.{is_apart, of_either, read_first};
    ghost use Rattle.followed.specs.SaidLaws.{letters_beside, read_back_beside};

    ghost is_payload = { is_apart A.is_payload B.is_payload A.payload_of B.word_of B.number_of };

    ghost word_of = { of_either A.word_of B.word_of };

    ghost number_of = { of_either A.number_of B.number_of };

    ghost payload_of = { read_first A.payload_of B.payload_of };

    ghost letters = { letters_beside A.word_of B.word_of A.letters B.letters };

    ghost reads_back = { read_back_beside A.is_payload B.is_payload A.word_of B.word_of A.number_of B.number_of
        A.payload_of B.payload_of A.reads_back B.reads_back };

    fn words(self) -> (&'static str, u128) {
        match self {
            Said::First(payload) => payload.words(),
            Said::Then(payload) => payload.words(),
        }
    }

    fn from_words(word: &str, number: u128) -> Option<Self> {
        match A::from_words(word, number) {
            Some(payload) => Some(Said::First(payload)),
            None => match B::from_words(word, number) {
                Some(payload) => Some(Said::Then(payload)),
                None => None,
            },
        }
    }

    fn by_words(self) -> Self {
        match self {
            Said::First(payload) => Said::First(payload.by_words()),
            Said::Then(payload) => Said::Then(payload.by_words()),
        }
    }
}
