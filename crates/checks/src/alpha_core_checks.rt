//! One node under the synchroniser, whose calls are made by hand.

mod alone;
mod cells;
mod hostile;
mod runs;
