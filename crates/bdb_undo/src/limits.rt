//! The limit of a history.
ghost use Rattle.std.specs.Prelude.{◌≡◌};
ghost use Rattle.bdb_undo.specs.Limits.{most_changes};

/// Changes of a history.
pub const MOST_CHANGES: usize = 64;

/// The constant is the number that the definitions name.
pub fn limits_agree()
    ensures { MOST_CHANGES ≡ most_changes }
{}
