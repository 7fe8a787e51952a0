//! Whether stamps rise.

ghost use Rattle.std.specs.Prelude.{◌↔◌, All, IsTrue};
ghost use Rattle.stamps.specs.Stamps.{Rises};

use entries::StampedEntry;

// Whether the stamps of one list rise.
fn list_rises<T: Copy>(entries: &[StampedEntry<T>]) -> bool
    ensures { IsTrue result ↔ Rises entries.now }
{
    for i in 1..entries.len() {
        if entries[i].stamp <= entries[i - 1].stamp {
            return false;
        }
    }
    true
}

/// Whether the stamps of each list rise, as `order` asks. Those of an empty list do.
pub fn rising<T: Copy>(lists: &[Vec<StampedEntry<T>>]) -> bool
    ensures rising { IsTrue result ↔ All (λ list. Rises list.items) lists.now }
{
    for list in lists {
        if !list_rises(list) {
            return false;
        }
    }
    true
}
