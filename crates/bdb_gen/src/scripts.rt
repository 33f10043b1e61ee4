// Scripts made from a number.
ghost use Rattle.std.specs.Prelude.{◌≡◌, ◌≤◌, IfOk};
ghost use Rattle.bdb_base.specs.Limits.{most_generated};
ghost use Rattle.bdb_gen.specs.Scripts.{script};

use crate::draws::Draws;
use crate::lines::{append_first_lines, append_line};
use std::alloc::{AllocError, Global};

/// The script of a seed and a size: it makes eight users and a relation, and then as many inserts, deletes and queries as the
/// size says. The only error is running out of memory.
pub fn generate(alloc: Global, seed: u64, size: u32) -> Result<Vec<u8>, AllocError>
    requires size { size ≤ most_generated }
    ensures { IfOk result (λ text. text.items ≡ script seed size) }
{
    let mut out = Vec::new(alloc);
    append_first_lines(&mut out)?;
    let mut draws = Draws::new(seed);
    for _line in 0..size {
        append_line(&mut draws, &mut out)?;
    }
    Ok(out)
}
