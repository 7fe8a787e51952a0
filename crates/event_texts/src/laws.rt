//! What holds of events in texts. Each law is a function that does nothing: its contract is the law.

ghost use Rattle.std.specs.Prelude.{◌≡◌, ◌↔◌, List, Ok};
ghost use Rattle.dimacs_col.specs.Lines.{Line};
ghost use Rattle.event_texts.specs.Reading.{IsScript, Script, script_of};

/// A text is read as events exactly if its event lines are these events: the lines from the first one on that
/// begins an event, without empty ones and comments.
pub fn scripts_are_the_event_lines()
    ensures law { (lines : List Line) (script : Script) → (script_of lines ≡ Ok script) ↔ IsScript lines script }
{}
