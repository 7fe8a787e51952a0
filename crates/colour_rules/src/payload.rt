//! What the nodes of the colouring tell one another, and its text.

ghost use Rattle.std.specs.Prelude.{◌≡◌};
ghost use Rattle.colour_rules.specs.declared.payload.Payload.TheVariants.{Chosen, Colour, Hello, Label};

use crate::numbers::{Long, Short};
use node_api::PayloadText;

/// What the nodes of the colouring tell one another. Its words are `hello`, `label`, `colour` and
/// `chosen`.
#[derive(Debug, Clone, Copy, PartialEq, Eq)]
pub enum Payload {
    /// The sender's identifier.
    Hello(Long),
    /// The receiver is the sender's parent in this forest.
    Label(Short),
    /// The sender's colour in the forest in which it is the receiver's parent.
    Colour(Long),
    /// The colour that the sender chose in the merge.
    Chosen(Short),
}

impl Payload {
    /// `Hello` of an identifier.
    pub fn hello(id: u128) -> Payload
        ensures { result ≡ Hello id }
    {
        Payload::Hello(Long::new(id))
    }

    /// `Label` of a forest.
    pub fn label(forest: u16) -> Payload
        ensures { result ≡ Label forest }
    {
        Payload::Label(Short::new(forest))
    }

    /// `Colour` of a colour in a forest.
    pub fn colour(colour: u128) -> Payload
        ensures { result ≡ Colour colour }
    {
        Payload::Colour(Long::new(colour))
    }

    /// `Chosen` of a colour.
    pub fn chosen(colour: u16) -> Payload
        ensures { result ≡ Chosen colour }
    {
        Payload::Chosen(Short::new(colour))
    }
}

impl PayloadText for Payload {
    ghost use Rattle.colour_rules.specs.Words.{IsPayload, word_in, number_in, payload_from};
    ghost use Rattle.colour_rules.specs.WordsLaws.{words_are_letters, words_read_back};

    ghost is_payload = { IsPayload };

    ghost word_of = { word_in };

    ghost number_of = { number_in };

    ghost payload_of = { payload_from };

    ghost letters = { words_are_letters };

    ghost reads_back = { words_read_back };

    fn words(self) -> (&'static str, u128) {
        match self {
            Payload::Hello(id) => ("hello", id.get()),
            Payload::Label(forest) => ("label", u128::from(forest.get())),
            Payload::Colour(colour) => ("colour", colour.get()),
            Payload::Chosen(colour) => ("chosen", u128::from(colour.get())),
        }
    }

    fn from_words(word: &str, number: u128) -> Option<Self> {
        let is_short = number <= u128::from(u16::MAX);
        if word == "hello" {
            Some(Payload::hello(number))
        } else if word == "label" && is_short {
            Some(Payload::label(number as u16))
        } else if word == "colour" {
            Some(Payload::colour(number))
        } else if word == "chosen" && is_short {
            Some(Payload::chosen(number as u16))
        } else {
            None
        }
    }

    #[inline(always)]
    fn by_words(self) -> Self {
        match self {
            Payload::Hello(id) => Payload::Hello(id.by_words()),
            Payload::Label(forest) => Payload::Label(forest.by_words()),
            Payload::Colour(colour) => Payload::Colour(colour.by_words()),
            Payload::Chosen(colour) => Payload::Chosen(colour.by_words()),
        }
    }
}
