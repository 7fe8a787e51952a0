//! What a command sets about a network before nodes see it.

/// The vertex that is to be the root, whatever its identifier is, and the identifier by which a program knows its root.
#[derive(Clone, Copy, Debug, PartialEq, Eq)]
pub struct Root {
    /// The vertex, from 1.
    pub vertex: u32,
    /// The identifier that it gets; the vertex that has it, if there is one, gets the other's.
    pub id: u128,
}

/// What a command sets about a network before nodes see it.
#[derive(Clone, Copy, Debug, PartialEq, Eq)]
pub enum Setting {
    /// Nothing: the network is as it is read.
    AsRead,
    /// The vertex that is to be the root.
    Rooted(Root),
    /// How many times more a program that repeats itself does so.
    Repeating(u8),
}
