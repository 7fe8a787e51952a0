//! Programs have texts.

ghost use Rattle.std.specs.Prelude.{◌≡◌, ◌++◌, IfOk};
ghost use Rattle.interference.specs.Net.{IsNetwork, IsVertex, Net};
ghost use Rattle.node_api.specs.Run.{last_state, state_at};
ghost use Rattle.program_texts.specs.Texts.{AreTexts, ProgramTexts};

use interference::Network;
use node_api::NodeProgram;
use std::alloc::AllocError;

/// A program of nodes that has texts. Each call appends to `text`; if a growth is refused, `text` may end in a
/// beginning of what was to be appended.
///
/// A program whose texts begin with its name says only what its nodes find: `NamedText`.
pub trait ProgramText: NodeProgram {
    /// All texts of the program, and what its last states are for.
    ghost texts: { ProgramTexts Self };

    /// The name is a word, its lines are whole, and no phase and no result has a line feed.
    ghost lined: { AreTexts texts };

    /// On every network the synchronous run ends with what the program is for. It does nothing: its contract is the
    /// law, and the answers of `events`, `replay`, `rounds` and `run` rest on it.
    fn rounds_solve()
        ensures law { (net : Net) → IsNetwork net → texts.Solves net (last_state Self.program net) };

    /// The program's name, as a transcript of edition 3 has it in its first line.
    fn name() -> &'static str
        ensures name { result.now ≡ texts.name };

    /// Whether its rounds and its transcripts begin with the name, in edition 3.
    fn is_named() -> bool
        ensures named { result ≡ texts.is_named };

    /// Appends the first line of the rounds on a network, its end included.
    ///
    /// # Errors
    ///
    /// If a growth is refused.
    fn push_head(text: &mut Vec<u8>, net: &Network) -> Result<(), AllocError>
        ensures { IfOk result (λ _. text.new.items ≡ text.old.items ++ texts.head net.now) };

    /// Appends the words for what nodes do at a pulse, with a space before each. There may be none.
    ///
    /// # Errors
    ///
    /// If a growth is refused.
    fn push_phase(text: &mut Vec<u8>, net: &Network, pulse: u32) -> Result<(), AllocError>
        ensures { IfOk result (λ _. text.new.items ≡ text.old.items ++ texts.phase net.now pulse) };

    /// Appends what is said of a vertex's node after a pulse of the synchronous run: whole lines. There may be none.
    ///
    /// # Errors
    ///
    /// If a growth is refused.
    fn push_lines(
        &self,
        text: &mut Vec<u8>,
        net: &Network,
        pulse: u32,
        v: u32,
    ) -> Result<(), AllocError>
        requires vertex { IsVertex net.now v }
        requires run { self.now ≡ state_at Self.program net.now pulse v }
        ensures { IfOk result (λ _. text.new.items ≡ text.old.items ++ texts.lines net.now pulse v self.now) };

    /// Appends the words for the result of a vertex's node that has made its last pulse, with a space before each.
    ///
    /// # Errors
    ///
    /// If a growth is refused.
    fn push_result(&self, text: &mut Vec<u8>, net: &Network, v: u32) -> Result<(), AllocError>
        requires vertex { IsVertex net.now v }
        ensures { IfOk result (λ _. text.new.items ≡ text.old.items ++ texts.result net.now v self.now) };
}
