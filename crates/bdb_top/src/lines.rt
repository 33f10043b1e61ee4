// Lines of what is told and a number.
ghost use Rattle.std.specs.Prelude.{◌≡◌, ◌++◌, OnOk};
ghost use Rattle.bdb_top.specs.Lines.{line_with};

use bdb_base::append_decimal;
use std::alloc::AllocError;

/// Appends a line: what is told, and a number.
#[tactic(auto, unfolding(crate::specs::Lines::line_with))]
pub fn append_line(text: &mut Vec<u8>, told: &[u8], number: u64) -> Result<(), AllocError>
    ensures { OnOk result (text.new.items ≡ text.old.items ++ line_with told.now number) }
{
    text.extend_from_slice(told)?;
    append_decimal(text, number)?;
    text.push(b'\n')?;
    Ok(())
}
