//! A number behind words.

ghost use Rattle.std.specs.Prelude.{◌≡◌, ◌++◌, IfOk};
ghost use Rattle.number_rows.specs.Row.{numbered};

use itoa::Buffer;
use std::alloc::AllocError;

/// Appends words and a number.
///
/// # Errors
///
/// If a growth is refused; `text` may then end in a beginning of them.
pub fn push_numbered(text: &mut Vec<u8>, words: &[u8], number: u128) -> Result<(), AllocError>
    ensures { IfOk result (λ _. text.new.items ≡ text.old.items ++ numbered words.now number) }
{
    text.extend_from_slice(words)?;
    text.extend_from_slice(Buffer::new().format(number).as_bytes())
}
