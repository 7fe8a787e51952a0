//! A row of numbers.

ghost use Rattle.std.specs.Prelude.{◌≡◌, ◌++◌, IfOk, length, map, take};
ghost use Rattle.std.specs.List.{join_with_byte};
ghost use Rattle.std.specs.Fmt.{decimal};
ghost use Rattle.number_rows.specs.Row.{row, spaced};

use crate::decimal::push_decimal;
use std::alloc::AllocError;

// Appends the numbers, a space behind each.
fn push_spaced(text: &mut Vec<u8>, numbers: &[u64]) -> Result<(), AllocError>
    ensures spaced { IfOk result (λ _. text.new.items ≡ text.old.items ++ spaced numbers.now) }
    ensures kept { take (length text.old.items) text.new.items ≡ text.old.items }
{
    for number in numbers {
        push_decimal(text, *number)?;
        text.push(b' ')?;
    }
    Ok(())
}

// Appends the numbers, parted by one space.
fn push_joined(text: &mut Vec<u8>, numbers: &[u64]) -> Result<(), AllocError>
    ensures joined { IfOk result (λ _. text.new.items ≡ text.old.items ++ join_with_byte 32 (map decimal numbers.now)) }
    ensures kept { take (length text.old.items) text.new.items ≡ text.old.items }
{
    let Some((last, others)) = numbers.split_last() else {
        return Ok(());
    };
    push_spaced(text, others)?;
    push_decimal(text, *last)?;
    Ok(())
}

/// Appends the numbers in decimal, parted by one space, and a line feed.
///
/// # Errors
/// If a growth is refused; `text` may then end in a beginning of the row.
pub fn push_row(text: &mut Vec<u8>, numbers: &[u64]) -> Result<(), AllocError>
    ensures row { IfOk result (λ _. text.new.items ≡ text.old.items ++ row numbers.now) }
    ensures kept { take (length text.old.items) text.new.items ≡ text.old.items }
{
    push_joined(text, numbers)?;
    text.push(b'\n')?;
    Ok(())
}
