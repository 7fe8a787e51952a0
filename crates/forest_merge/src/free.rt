//! The choice of a colour: the least that is neither chosen nor barred.

ghost use Rattle.std.specs.Prelude.{◌≡◌, ◌↔◌, ◌||◌, IsTrue};
ghost use Rattle.std.specs.FinSet.{contains};
ghost use Rattle.forest_merge.specs.Free.{HasFree, least_free_colour};

use crate::chosen::ColourSet;

/// Whether some colour of 0 to `span` is in neither set. A colour that a set has no room for is
/// never in it.
pub fn has_free<const N: usize>(chosen: &ColourSet<N>, barred: &ColourSet<N>, span: u16) -> bool
    ensures { IsTrue result ↔ HasFree span (λ c. contains chosen.now c || contains barred.now c) }
{
    chosen.joined(barred).first_free() <= span
}

/// The least colour of 0 to `span` that is in neither set, looked for 64 colours at a time. There has
/// to be one.
pub fn least_free<const N: usize>(chosen: &ColourSet<N>, barred: &ColourSet<N>, span: u16) -> u16
    requires { HasFree span (λ c. contains chosen.now c || contains barred.now c) }
    ensures { result ≡ least_free_colour span (λ c. contains chosen.now c || contains barred.now c) }
{
    chosen.joined(barred).first_free()
}
