//! Shift and drop at one node.

ghost use Rattle.shift_down.specs.Steps.{drop_by, other, other_of_two, shift_by};
ghost use Rattle.std.specs.Prelude.{◌≡◌, ◌≢◌, ◌<◌, ◌≤◌, IfSome};

/// A node's colour after the shift: its parent's colour, and at a root the least of 0, 1, 2 other
/// than its own.
///
/// Colours are 0 to 5. A. V. Goldberg, S. A. Plotkin and G. E. Shannon, Parallel symmetry-breaking
/// in sparse graphs, 1988; the least choice is ours.
pub fn shift(own: u8, parent: Option<u8>) -> u8
    requires own_of_six { own < 6 }
    requires parent_of_six { IfSome parent (λ colour. colour < 6) }
    requires apart { parent ≢ Some own }
    ensures { result ≡ shift_by own parent }
{
    match parent {
        Some(parent) => parent,
        None => other(own),
    }
}

/// A node's colour after the drop of colour `x`, 3 to 5: its own if that is not `x`, and else the
/// least of 0, 1, 2 other than `before`, its colour before the shift, and than its parent's.
///
/// Colours are 0 to 5, and `own` and `parent` are those after the shift. The source is that of
/// [`shift`].
pub fn drop_class(x: u8, own: u8, before: u8, parent: Option<u8>) -> u8
    requires dropped_low { 3 ≤ x }
    requires dropped_high { x ≤ 5 }
    requires own_of_six { own < 6 }
    requires before_of_six { before < 6 }
    requires parent_of_six { IfSome parent (λ colour. colour < 6) }
    requires apart { parent ≢ Some own }
    ensures { result ≡ drop_by x own before parent }
{
    if own != x {
        return own;
    }
    match parent {
        Some(parent) => other_of_two(before, parent),
        None => other(before),
    }
}

// The least of 0, 1, 2 other than a colour.
fn other(colour: u8) -> u8
    ensures { result ≡ other colour }
{
    if colour == 0 { 1 } else { 0 }
}

// The least of 0, 1, 2 other than two colours.
fn other_of_two(one: u8, two: u8) -> u8
    ensures { result ≡ other_of_two one two }
{
    if one != 0 && two != 0 {
        0
    } else if one != 1 && two != 1 {
        1
    } else {
        2
    }
}
