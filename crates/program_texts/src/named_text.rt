//! Programs whose texts begin with their name.

ghost use Rattle.std.specs.Prelude.{◌≡◌, ◌∷◌, ◌++◌, [], IfOk};
ghost use Rattle.interference.specs.Net.{IsNetwork, IsVertex, Net, count_of, greatest_degree_of};
ghost use Rattle.node_api.specs.Run.{last_state};
ghost use Rattle.number_rows.specs.Row.{row};
ghost use Rattle.program_texts.specs.Named.{AreNamed, NamedTexts};

use crate::program_text::ProgramText;
use interference::Network;
use node_api::NodeProgram;
use number_rows::{push_numbered, push_row};
use std::alloc::AllocError;

/// A program whose rounds and transcripts begin with its name, in edition 3. It says its name and what its nodes find,
/// and has all of `ProgramText` from that.
pub trait NamedText: NodeProgram {
    /// The name, the words of a result, and what the last states are for.
    ghost words: { NamedTexts Self };

    /// The name is small ASCII letters and hyphens, with a letter first and last, and no word has a line feed.
    ghost are_named: { AreNamed words };

    /// On every network the synchronous run ends with what the program is for: the law that `rounds_solve` of
    /// `ProgramText` passes on. It does nothing.
    fn rounds_end()
        ensures law { (net : Net) → IsNetwork net → words.Solves net (last_state Self.program net) };

    /// The program's name.
    fn program_name() -> &'static str
        ensures name { result.now ≡ words.name };

    /// Appends what the node has found, with a space before each word: its line of the rounds has this behind the
    /// vertex, and its result begins with it.
    ///
    /// # Errors
    ///
    /// If a growth is refused.
    fn push_found(&self, text: &mut Vec<u8>) -> Result<(), AllocError>
        ensures { IfOk result (λ _. text.new.items ≡ text.old.items ++ words.found self.now) };

    /// Appends what the result of a vertex's node has behind that, with a space before each word. There may be none.
    ///
    /// # Errors
    ///
    /// If a growth is refused.
    fn push_more(&self, text: &mut Vec<u8>, net: &Network, v: u32) -> Result<(), AllocError>
        requires vertex { IsVertex net.now v }
        ensures { IfOk result (λ _. text.new.items ≡ text.old.items ++ words.more net.now v self.now) };
}

// Appends the sizes that a first line has, with the last pulse, and its end.
fn push_sizes(text: &mut Vec<u8>, net: &Network, last: u32) -> Result<(), AllocError>
    ensures { IfOk result (λ _. text.new.items ≡ text.old.items
        ++ row (count_of net.now ∷ greatest_degree_of net.now ∷ last ∷ [])) }
{
    let nodes = u64::from(net.nodes());
    let degree = u64::from(net.greatest_degree());
    push_row(text, &[nodes, degree, u64::from(last)])
}

impl<P: NamedText> ProgramText for P {
    ghost use Rattle.program_texts.specs.Named.{texts_of};
    ghost use Rattle.program_texts.specs.NamedLaws.{named_are_texts};

    ghost texts = { texts_of P.program P.words };

    ghost lined = { named_are_texts P.program P.words P.are_named };

    fn rounds_solve() {
        P::rounds_end();
    }

    fn name() -> &'static str {
        P::program_name()
    }

    fn is_named() -> bool {
        true
    }

    fn push_head(text: &mut Vec<u8>, net: &Network) -> Result<(), AllocError> {
        text.extend_from_slice(b"rounds 3 ")?;
        text.extend_from_slice(P::program_name().as_bytes())?;
        text.extend_from_slice(b" ")?;
        push_sizes(text, net, P::last_pulse(net))
    }

    fn push_phase(_text: &mut Vec<u8>, _net: &Network, _pulse: u32) -> Result<(), AllocError> {
        Ok(())
    }

    fn push_lines(
        &self,
        text: &mut Vec<u8>,
        net: &Network,
        pulse: u32,
        v: u32,
    ) -> Result<(), AllocError> {
        if pulse != P::last_pulse(net) {
            return Ok(());
        }
        push_numbered(text, b"", u128::from(v))?;
        self.push_found(text)?;
        text.push(b'\n')?;
        Ok(())
    }

    fn push_result(&self, text: &mut Vec<u8>, net: &Network, v: u32) -> Result<(), AllocError> {
        self.push_found(text)?;
        self.push_more(text, net, v)
    }
}
