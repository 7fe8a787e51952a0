//! What an end of a link knows.

use link_rule::LinkName;
use std::collections::LinkedList;
use wires::Stamped;

/// What an end of a link knows: the link's name, whether it may put and may take, what it put and what it took, oldest
/// first, each wire with its stamp. Contracts speak of it; no value of it is made.
pub struct EndView<T> {
    pub name: Option<LinkName>,
    pub puts: bool,
    pub takes: bool,
    pub put: LinkedList<Stamped<T>>,
    pub taken: LinkedList<Stamped<T>>,
}

impl<T: Drop> Drop for EndView<T> {
    fn drop(self) {
        let EndView {
            name: _,
            puts: _,
            takes: _,
            put: _,
            taken: _,
        } = self;
    }
}
