//! What holds of the commands together. The law is the contract of a function that does nothing.

ghost use Rattle.std.specs.Prelude.{◌≡◌, false};
ghost use Rattle.command_line.specs.declared.play_request.Play.TheVariants.{Alone, Ends, Events, Replay, Rounds};
ghost use Rattle.command_line.specs.declared.programs.Shown.{Shown};
ghost use Rattle.play_commands.specs.Plays.{starts_threads};

/// These commands start no threads, whatever their options are: so `serve_alone` of `serving` serves them, and returns.
pub fn commands_without_threads()
    ensures events { starts_threads Events ≡ false }
    ensures replay { starts_threads Replay ≡ false }
    ensures rounds { starts_threads Rounds ≡ false }
    ensures alone { (show : Shown) → starts_threads (Alone show) ≡ false }
    ensures ends { starts_threads Ends ≡ false }
{}
