// Where tables differ.
ghost use Rattle.bdb_tables.specs.Differences.{DifferencesAdd, DifferencesAreCounted, DifferencesAreListed};

/// Tables that differ at some places from others, which differ from third ones at other places, differ from those at all of
/// them.
pub fn differences_add()
    ensures { DifferencesAdd }
{}

/// The places where tables differ have one number.
pub fn differences_are_counted()
    ensures { DifferencesAreCounted }
{}

/// Every two tables have a list of the places where they differ.
pub fn differences_are_listed()
    ensures { DifferencesAreListed }
{}
