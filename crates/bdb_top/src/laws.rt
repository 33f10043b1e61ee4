// What the events that count tell of a run, and what tables without rows stand for.
ghost use Rattle.bdb_top.specs.Laws.{CountTellsTheState, NoRowsStandForABase};

/// Where the first events of a script are done and k of them count, the state is the one after the first k that count.
pub fn count_tells_the_state()
    ensures { CountTellsTheState }
{}

/// Tables without rows stand for the empty base.
pub fn no_rows_stand_for_a_base()
    ensures { NoRowsStandForABase }
{}
