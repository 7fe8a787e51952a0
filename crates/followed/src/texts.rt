//! The words of a sequel in texts.

ghost use Rattle.std.specs.Prelude.{◌≡◌, ◌++◌, IfOk};
ghost use Rattle.interference.specs.Net.{IsNetwork, IsVertex, Net};
ghost use Rattle.node_api.specs.Run.{last_state};
ghost use Rattle.program_texts.specs.Named.{AreNamed, NamedTexts};
ghost use Rattle.followed.specs.Followed.{Both, both_of, followed};

use crate::sequel::Sequel;
use interference::Network;
use node_api::NodeProgram;
use std::alloc::AllocError;

/// A sequel that says the name of the program that it makes, and what its nodes find: `NamedText` of
/// `Followed<P, R>`.
pub trait SequelText<P: NodeProgram>: Sequel<P> {
    /// The name, the words of a result, and what the last states are for.
    ghost words: { NamedTexts (Both P Self) };

    /// The name is a name, and no word has a line feed.
    ghost are_named: { AreNamed words };

    /// On every network the synchronous run ends with what the program is for. It does nothing: its contract is the
    /// law.
    fn rounds_end()
        ensures law { (net : Net) → IsNetwork net
            → words.Solves net (last_state (followed Self.before Self.sequel) net) };

    /// The program's name.
    fn program_name() -> &'static str
        ensures name { result.now ≡ words.name };

    /// Appends what the node has found, with a space before each word.
    ///
    /// # Errors
    ///
    /// If a growth is refused.
    fn push_found(&self, first: &P, text: &mut Vec<u8>) -> Result<(), AllocError>
        ensures { IfOk result (λ _. text.new.items ≡ text.old.items
            ++ words.found (both_of first.now self.now)) };

    /// Appends what the result of a vertex's node has behind that, with a space before each word. There may be none.
    ///
    /// # Errors
    ///
    /// If a growth is refused.
    fn push_more(
        &self,
        first: &P,
        text: &mut Vec<u8>,
        net: &Network,
        v: u32,
    ) -> Result<(), AllocError>
        requires vertex { IsVertex net.now v }
        ensures { IfOk result (λ _. text.new.items ≡ text.old.items
            ++ words.more net.now v (both_of first.now self.now)) };
}
