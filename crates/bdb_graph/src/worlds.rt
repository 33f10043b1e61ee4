// The worlds of tables of any bytes.
ghost use Rattle.std.specs.Prelude.{IfOk, MatchOption};
ghost use Rattle.bdb_tables.specs.Grammar.{InGrammar};
ghost use Rattle.bdb_tables.specs.Reading.{OnlyReads};
ghost use Rattle.bdb_graph.specs.Naming.{AreWorlds};
ghost use Rattle.bdb_graph.specs.Ups.{HoldNoStates};

use crate::leading::led_ups;
use crate::naming::named_ups;
use bdb_keep::Keeper;
use bdb_names::NamedWorld;
use bdb_tables::TabError;
use std::alloc::Global;

/// The worlds, by number, with the paths that they have in whichever states the tables hold: they are names, and the
/// depths in the tables are those of the paths. None only where the tables hold no states. That links and edges are those
/// of these names is for a test. Two reads at most for each edge, and three for each world.
pub fn raw_worlds<K: Keeper>(
    alloc: Global,
    keeper: &mut K,
) -> Result<Option<Vec<NamedWorld>>, TabError>
    requires grammar { InGrammar (K.seen keeper.old).kept }
    ensures worlds { IfOk result (λ r. MatchOption r (HoldNoStates (K.seen keeper.old).kept)
        (λ worlds. AreWorlds (K.seen keeper.old).kept worlds.items)) }
    ensures reading { OnlyReads (K.seen keeper.old) (K.seen keeper.new) result TabError.Fault }
{
    let ups = match led_ups(alloc, keeper) {
        Ok(Some(ups)) => ups,
        Ok(None) => return Ok(None),
        Err(error) => return Err(error),
    };
    match named_ups(alloc, &ups) {
        Ok(Some(worlds)) => Ok(Some(worlds)),
        Ok(None) => Ok(None),
        Err(_) => {
            keeper.undo();
            Err(TabError::Memory)
        }
    }
}
