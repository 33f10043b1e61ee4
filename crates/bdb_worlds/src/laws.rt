//! What holds of the tables of worlds, each law as the contract of a function that does nothing.
ghost use Rattle.bdb_tables.specs.States.{TablesHaveNames, NamesAreOne};
ghost use Rattle.bdb_worlds.specs.Root.{RootIsWorld};
ghost use Rattle.bdb_worlds.specs.Dropping.{DropTakesState};

/// The tables alone tell which path a number stands for.
pub fn tables_have_names()
    ensures { TablesHaveNames }
{}

/// Tables hold states under one naming alone.
pub fn names_are_one()
    ensures { NamesAreOne }
{}

/// Tables of worlds without rows, with the depth 0 of world 0, hold the one state of the empty path.
pub fn root_is_world()
    ensures { RootIsWorld }
{}

/// Where a state beyond which no other goes is taken away by its rows, the tables hold the states without it.
pub fn drop_takes_state()
    ensures { DropTakesState }
{}
