//! The two vertices of an edge.

ghost use Rattle.std.specs.Prelude.{◌≡◌, min, max};

/// The edge of two vertices, the smaller one first.
pub fn ordered(v: u32, w: u32) -> (u32, u32)
    ensures { result ≡ (min v w, max v w) }
{
    (v.min(w), v.max(w))
}
