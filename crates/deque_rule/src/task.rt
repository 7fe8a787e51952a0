//! What lies in the deques.

/// A task: a thing with a number.
pub trait Task: Drop {
    ghost use Rattle.std.specs.Prelude.{ℕ, ◌≡◌};

    ghost number_of: { Self → ℕ };

    fn number(&self) -> usize
        ensures number { result ≡ number_of self.now };
}
