//! The shift-down and the dropping of a colour, two steps of a node by which a rooted forest with
//! the colours 0 to 5 comes to the colours 0 to 2.
//!
//! A node program calls [`shift`] and then [`drop_class`], for the colours 5, 4 and 3 in turn, each
//! with the colour that its parent sent. After a shift all children of a node have the same colour,
//! which is the colour that the node had before. So a node that drops its colour has three colours
//! to choose from and at most two to avoid: `drop_class(5, 5, 0, Some(1))` is 2. [`laws`] says what
//! both steps do to the colours of a whole forest.
//!
//! Both steps take no memory and have no loop.
#![tactic(auto)]

pub mod laws;
mod step;

pub use step::{drop_class, shift};
