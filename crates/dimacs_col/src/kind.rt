//! The kind of a line, by its first field.

ghost use Rattle.std.specs.Prelude.{◌≡◌};
ghost use Rattle.dimacs_col.specs.Kinds.{kind_of_word, is_format};

/// What a line is.
#[derive(Clone, Copy, Debug, PartialEq, Eq)]
pub enum Kind {
    Skipped,
    Problem,
    Edge,
    Identifier,
    Bar,
    Unknown,
}

impl Kind {
    /// The kind of a line with this first field.
    #[tactic(auto, unfolding(crate::specs::Kinds::kind_of_word))]
    pub fn of(first: &[u8]) -> Kind
        ensures { result ≡ kind_of_word first.now }
    {
        match first {
            [b'c', ..] | b"n" | b"d" | b"v" | b"x" => Kind::Skipped,
            b"p" => Kind::Problem,
            b"e" => Kind::Edge,
            b"i" => Kind::Identifier,
            b"b" => Kind::Bar,
            _ => Kind::Unknown,
        }
    }
}

/// Whether a word is a FORMAT of a problem line.
#[tactic(auto, unfolding(crate::specs::Kinds::is_format))]
pub fn is_format(word: &[u8]) -> bool
    ensures { result ≡ is_format word.now }
{
    word == b"edge".as_slice() || word == b"edges".as_slice() || word == b"col".as_slice()
}
