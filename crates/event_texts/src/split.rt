//! Where the events begin that follow a network text.

ghost use Rattle.dimacs_col.specs.Lines.{lines_of};
ghost use Rattle.event_texts.specs.EventLines.{AreNetworkLines};

use dimacs_col::text_before;

/// The network text that an input begins with: all before the first line whose first field is `pulse`, `put`
/// or `take`.
pub fn network_text(input: &[u8]) -> &[u8]
    ensures network { AreNetworkLines (lines_of input.now) (lines_of result.now) }
{
    text_before(input, &[b"pulse", b"put", b"take"])
}
