//! Of which pulse a payload or a safe is.

ghost use Rattle.std.specs.Prelude.{◌≡◌};
ghost use Rattle.alpha_core.specs.When.{in_odd};

/// This pulse of a node, or its next. A node takes no payload and no safe of another pulse.
#[derive(Clone, Copy)]
pub(crate) enum When {
    Now,
    Next,
}

impl When {
    /// Whether what is of this pulse is in the odd inbox, as the node's pulse is odd or even.
    pub(crate) fn is_in_odd(self, at_odd: bool) -> bool
        ensures odd { result ≡ in_odd self at_odd }
    {
        match self {
            When::Now => at_odd,
            When::Next => !at_odd,
        }
    }
}
