// The stages of answering a query: the users are chosen first, then the tuples of plus items from the worlds of their
// paths, then the one tuple of each minus item that its sources leave.
ghost use Rattle.bdb_model.specs.Answering.{last_rows, rows_of_tuples, rows_of_users};

use crate::choosing::{Stage, choose};
use crate::pools::{minus_pools, plus_pools, worlds_of};
use bdb_base::{Base, Catalog, Cond, Held, List, Query, Tuple};
use bdb_queries::{Found, known_row, must_all_hold};
use std::alloc::{AllocError, Global};

/// All users are chosen.
#[derive(Drop)]
pub struct UsersChosen<'a> {
    pub base: &'a Base,
    pub query: &'a Query,
    pub sources: &'a [Cond],
}

/// All users and all tuples of plus items are chosen.
#[derive(Drop)]
struct TuplesChosen<'a> {
    catalog: &'a Catalog,
    query: &'a Query,
    sources: &'a [Cond],
    worlds: &'a [List<Held>],
}

/// All is chosen.
#[derive(Drop)]
struct AllChosen<'a> {
    query: &'a Query,
}

impl Stage for UsersChosen<'_> {
    ghost use Rattle.bdb_model.specs.Answering.{rows_of_users};

    ghost rows = { λ s slots. rows_of_users s.base.now s.query.now s.sources.now slots };

    fn add_rows(
        &self,
        alloc: Global,
        slots: &[Option<Tuple>],
        found: &mut Found,
    ) -> Result<(), AllocError> {
        let items = self.query.items.as_slice();
        let rels = self.base.catalog().rels.as_slice();
        let worlds = worlds_of(alloc, rels, self.base.stmts(), slots, items)?;
        let pools = plus_pools(alloc, items, worlds.as_slice())?;
        let stage = TuplesChosen {
            catalog: self.base.catalog(),
            query: self.query,
            sources: self.sources,
            worlds: worlds.as_slice(),
        };
        let conds = self.query.conds.as_slice();
        choose(alloc, &stage, conds, 0, pools.as_slice(), slots, found)?;
        Ok(())
    }
}

impl Stage for TuplesChosen<'_> {
    ghost use Rattle.bdb_model.specs.Answering.{rows_of_tuples};

    ghost rows = { λ s slots. rows_of_tuples s.catalog.now.rels s.query.now s.sources.now
        s.worlds.now slots };

    fn add_rows(
        &self,
        alloc: Global,
        slots: &[Option<Tuple>],
        found: &mut Found,
    ) -> Result<(), AllocError> {
        let rels = self.catalog.rels.as_slice();
        let items = self.query.items.as_slice();
        let pools = minus_pools(alloc, rels, self.sources, slots, items, self.worlds)?;
        let stage = AllChosen { query: self.query };
        let conds = self.query.conds.as_slice();
        choose(alloc, &stage, conds, 0, pools.as_slice(), slots, found)?;
        Ok(())
    }
}

impl Stage for AllChosen<'_> {
    ghost use Rattle.bdb_model.specs.Answering.{last_rows};

    ghost rows = { λ s slots. last_rows s.query.now slots };

    fn add_rows(
        &self,
        alloc: Global,
        slots: &[Option<Tuple>],
        found: &mut Found,
    ) -> Result<(), AllocError> {
        if !must_all_hold(slots, self.query.conds.as_slice()) {
            return Ok(());
        }
        match known_row(alloc, slots, self.query.take.as_slice())? {
            Some(row) => found.add(row),
            None => Ok(()),
        }
    }
}
