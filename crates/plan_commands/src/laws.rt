//! What holds of the commands together. The law is the contract of a function that does nothing.

ghost use Rattle.std.specs.Prelude.{◌≡◌, false};
ghost use Rattle.command_line.specs.declared.request.Request.TheVariants.{Check, Forests, Plain};
ghost use Rattle.plan_commands.specs.Commands.{starts_threads};

/// These commands start no threads: so `serve_alone` of `serving` serves them, and returns.
pub fn commands_without_threads()
    ensures forests { starts_threads Forests ≡ false }
    ensures plain { starts_threads Plain ≡ false }
    ensures check { starts_threads Check ≡ false }
{}
