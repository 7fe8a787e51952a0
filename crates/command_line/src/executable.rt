//! The executables whose command lines are read here.

ghost use Rattle.std.specs.Prelude.{◌≡◌};
ghost use Rattle.command_line.specs.Line.{name_of};

/// An executable.
#[derive(Clone, Copy, Debug, PartialEq, Eq)]
pub enum Executable {
    /// Plans channels.
    Forestplan,
    /// Plays what nodes do, for lessons.
    Forestplay,
}

impl Executable {
    /// Its name, which its lines on standard error begin with.
    pub fn name(self) -> &'static str
        ensures { result.now ≡ name_of self }
    {
        match self {
            Executable::Forestplan => "forestplan",
            Executable::Forestplay => "forestplay",
        }
    }
}
