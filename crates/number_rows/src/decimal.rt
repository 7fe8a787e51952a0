//! One number.

ghost use Rattle.std.specs.Prelude.{◌≡◌, ◌++◌, if◌then◌else◌, is_ok};
ghost use Rattle.std.specs.Fmt.{decimal};

use itoa::Buffer;
use std::alloc::AllocError;

/// Appends `number` in decimal, without leading zeros.
///
/// # Errors
/// If the growth is refused; `text` is then as it was.
pub fn push_decimal(text: &mut Vec<u8>, number: u64) -> Result<(), AllocError>
    ensures items { text.new.items ≡ (if is_ok result then text.old.items ++ decimal number else text.old.items) }
{
    text.extend_from_slice(Buffer::new().format(number).as_bytes())
}
