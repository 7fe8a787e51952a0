//! A node of the colouring, fed by hand: what it refuses, and that a refusal leaves it as it was.

mod asked;
mod cells;
mod fed;
mod refusals;
mod rests;
mod twins;
