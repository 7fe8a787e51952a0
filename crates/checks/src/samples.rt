//! Payloads of the colouring as the tables of the tests have them: a static can't hold a payload, whose numbers have
//! a model.

use colour_rules::{Long, Payload, Short};

/// What a node sends.
#[derive(Clone, Copy)]
pub enum Sample {
    Hello(u128),
    Label(u16),
    Colour(u128),
    Chosen(u16),
}

impl Sample {
    /// Its payload.
    pub fn payload(self) -> Payload {
        match self {
            Sample::Hello(id) => Payload::Hello(Long::new(id)),
            Sample::Label(forest) => Payload::Label(Short::new(forest)),
            Sample::Colour(colour) => Payload::Colour(Long::new(colour)),
            Sample::Chosen(colour) => Payload::Chosen(Short::new(colour)),
        }
    }
}
