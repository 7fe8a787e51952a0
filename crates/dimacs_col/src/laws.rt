//! What the definition of a reading says of itself.

ghost use Rattle.std.specs.Prelude.{◌≡◌, ◌≢◌, List};
ghost use Rattle.dimacs_col.specs.Lines.{Line};
ghost use Rattle.dimacs_col.specs.Reading.{Graph, IsFault, IsGraph};
ghost use Rattle.dimacs_col.specs.declared.fault.ColFault.{ColFault};
ghost use Rattle.dimacs_col.specs.declared.fault.ColFault.TheVariants.{Memory};

/// A text has one reading: at most one graph, at most one fault, and not both. `Memory` is apart,
/// since it says nothing of the text.
pub fn reading_is_one()
    ensures graph { (lines : List Line) (graph other : Graph) →
        IsGraph lines graph → IsGraph lines other → graph ≡ other }
    ensures graph_or_fault { (lines : List Line) (graph : Graph) (fault : ColFault) →
        IsGraph lines graph → IsFault lines fault → fault ≡ Memory }
    ensures fault { (lines : List Line) (fault other : ColFault) →
        IsFault lines fault → IsFault lines other → fault ≢ Memory → other ≢ Memory → fault ≡ other }
{}
