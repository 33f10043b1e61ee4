// What holds of the worlds of tables of any bytes, as the contract of a function that does nothing.
ghost use Rattle.bdb_graph.specs.Laws.{WorldsAreHeld};

/// Whichever states tables hold, they hold those of their worlds.
pub fn worlds_are_held()
    ensures { WorldsAreHeld }
{}
