//! What a caller tests so that a base stays valid after an update or a delete, and the laws that say so.
ghost use Rattle.bdb_base.specs.UpdateLaws.{UpdateIsValid, DeleteIsValid};

/// A valid base stays valid after an update: one whose changes leave each tuple of the relation fit for it and after which
/// no two statements of the path clash, where the limits leave room.
pub fn update_is_valid()
    ensures { UpdateIsValid }
{}

/// A valid base stays valid after a delete.
pub fn delete_is_valid()
    ensures { DeleteIsValid }
{}
