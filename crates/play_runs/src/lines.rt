//! The line of a vertex's last state.

ghost use Rattle.std.specs.Prelude.{◌≡◌, ◌++◌, IfOk};
ghost use Rattle.interference.specs.Net.{IsVertex};
ghost use Rattle.play_runs.specs.Ends.{end_line};

use interference::Network;
use number_rows::push_numbered;
use program_texts::ProgramText;
use std::alloc::AllocError;

/// Appends the line of a vertex, from its node and the pulse that this has made.
///
/// # Errors
/// If memory ran out.
pub(crate) fn push_end<P: ProgramText>(
    text: &mut Vec<u8>,
    net: &Network,
    v: u32,
    pulse: u32,
    node: &P,
) -> Result<(), AllocError>
    requires vertex { IsVertex net.now v }
    ensures { IfOk result (λ _. text.new.items ≡ text.old.items ++ end_line P.texts net.now v pulse node.now) }
{
    push_numbered(text, b"node ", u128::from(v))?;
    push_numbered(text, b" pulse ", u128::from(pulse))?;
    node.push_result(text, net, v)?;
    text.push(b'\n')?;
    Ok(())
}
