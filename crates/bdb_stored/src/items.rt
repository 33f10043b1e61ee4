// Lists to which items are added where there are any.
ghost use Rattle.std.specs.Prelude.{◌≡◌, ◌++◌, [], OnOk};
ghost use Rattle.bdb_stored.specs.Items.{with_item};

use std::alloc::AllocError;

/// Adds an item at the end of a list, if there is one.
pub fn push_item<X: Drop>(list: &mut Vec<X>, item: Option<X>) -> Result<(), AllocError>
    ensures { OnOk result (list.new.items ≡ list.old.items ++ with_item item []) }
{
    match item {
        Some(item) => {
            list.push(item)?;
            Ok(())
        }
        None => Ok(()),
    }
}
