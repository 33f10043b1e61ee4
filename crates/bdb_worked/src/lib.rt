//! Worked sessions. The belief machine is a definition that computes: here it is computed, from the bytes of a script to the
//! bytes of the replies, on short scripts whose replies were worked out by hand. So a reader can see that the definitions say
//! what was meant, and not only that the program says what they do.
#![tactic(auto)]

ghost use Rattle.bdb_worked.specs.Beliefs as beliefs;
ghost use Rattle.bdb_worked.specs.Changes as changes;
ghost use Rattle.bdb_worked.specs.Keys as keys;
ghost use Rattle.bdb_worked.specs.Leaving as leaving;
ghost use Rattle.bdb_worked.specs.Refusals as refusals;
ghost use Rattle.bdb_worked.specs.Structure as structure;
ghost use Rattle.bdb_worked.specs.Undoing as undoing;
ghost use Rattle.bdb_worked.specs.Worked.{IsAnswered};

/// A sighting and a denial of it: what each user believes, and believes that the other does. Queries, and their plans.
pub fn beliefs_are_told()
    ensures { IsAnswered beliefs.script beliefs.told }
{}

/// The states of two statements, their links, edges and rows.
pub fn structure_is_told()
    ensures { IsAnswered structure.script structure.told }
{}

/// An update that would join two tuples of one key is refused whole; a query of denials has to bind its columns.
pub fn changes_are_told()
    ensures { IsAnswered changes.script changes.told }
{}

/// A key of two columns tells tuples apart that agree in the first alone; a key has a column, and no more than there are.
pub fn keys_are_told()
    ensures { IsAnswered keys.script keys.told }
{}

/// A user leaves with all statements that name her; her name is free, and her number isn't given again.
pub fn leaving_is_told()
    ensures { IsAnswered leaving.script leaving.told }
{}

/// Relations, users, columns and aliases that aren't there, or there already, and values that don't fit.
pub fn refusals_are_told()
    ensures { IsAnswered refusals.script refusals.told }
{}

/// A user who leaves comes back with what he said; a redo is open until something changes the base.
pub fn undoing_is_told()
    ensures { IsAnswered undoing.script undoing.told }
{}
