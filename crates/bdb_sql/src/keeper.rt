// The keeper whose rows are in an SQLite file.
ghost use Rattle.std.specs.Prelude.{◌≡◌, ◌+◌, ◌≤◌, length, [], ◌∷◌, true, false, None, Some, IfOk, IfSome, IsSome, OnOk, OnErr, MatchBool, is_some, if◌then◌else◌};
ghost use Rattle.std.specs.FinMap as map;
ghost use Rattle.bdb_base.specs.Causes.{RoseBy};
ghost use Rattle.bdb_keep.specs.Calls.{IsBegin, IsRead, IsWrite, IsCommit, IsUndo};
ghost use Rattle.bdb_keep.specs.Marked.{IsMarkedCount};
ghost use Rattle.bdb_keep.specs.Spans.{AreRowsUnder, with_rows, without_rows};
ghost use Rattle.bdb_keep.specs.Tables.{IsLeastFrom, LieInTables, NoneFrom};
ghost use Rattle.bdb_sql.specs.Filed.{works, Answers, Commits, Begins};
ghost use Rattle.bdb_sql.specs.Kept.{IsBareOrKept};
ghost use Rattle.bdb_sql.specs.Rows.{StoresTables};
ghost use Rattle.bdb_sql.specs.Stays.{StaysAs};
ghost use Rattle.bdb_sql.specs.Tied.{MatchesFile, MayStore, StandsWhole, StoresRows};
ghost use Rattle.sqlite.specs.State.{HasCleanDisk, Survives};
ghost use Rattle.sqlite.specs.Held.{state};

use crate::keeper_error::keeper_error;
use crate::load::load;
use crate::write::write_changes;
use bdb_keep::{KeepError, Keeper, KeyEnd, Span};
use bdb_memory::{Ledger, Store};
use sqlite::{Alter, Connection};
use std::alloc::Global;
use std::marker::Model;

/// A keeper whose rows are in an SQLite file. It holds a copy of them in memory, and answers from that. A commit writes
/// what the transaction changed to the file, in one transaction there. A keeper that can't load the file, or whose
/// commit was refused, doesn't work: it refuses every call.
///
/// While it works its file has exactly the rows last committed, and a crash leaves them and no others. Where a commit is
/// refused a crash leaves the rows from before it, or those that it was to make. So the clauses say of every store below that is
/// clean, as one in memory always is; a file is, as long as nobody else writes it and the disk returns what was written.
#[derive(Drop)]
pub struct SqlKeeper<S: Alter> {
    alloc: Global,
    ledger: Ledger,
    conn: Option<Connection<S>>,
    refusal: Option<KeepError>,
}

impl<S: Alter> Model for SqlKeeper<S> {
    ghost use Rattle.bdb_sql.specs.Filed.{Filed, coded_filed};

    ghost Value = { Filed S };

    ghost coded = { coded_filed S.code };

    ghost view = { λ k. record { seen = k.ledger.seen; refusal = k.refusal; conn = k.conn } };
}

impl<S: Alter> SqlKeeper<S> {
    /// Takes an open connection and loads its rows. Where it has anything but the one table as the keeper makes it, or
    /// a row that doesn't fit, the keeper doesn't work. It writes nothing: the first commit makes the table where there is
    /// none. It has the connection in either case.
    ///
    /// A keeper that works matches its file from the start where the store below stands whole: where, if its disk is clean,
    /// it isn't broken, or is open with nothing in it or with the rows of its first table by rising numbers. That may be said
    /// of the connection that the keeper has (`tied`), or of the one that it was given (`adopted`). Then every call but a
    /// commit leaves the keeper so, and a commit that is accepted does.
    #[tactic(auto, using(bdb_keep::proofs::TableLemmas::none_lie))]
    pub fn over(alloc: Global, mut conn: Connection<S>) -> Self
        ensures begins { Begins result }
        ensures conn { IsSome result.conn }
        ensures found { works result ≡ true → IsBareOrKept (state S.Store conn) }
        ensures rows { works result ≡ true → IfSome result.conn (λ c. HasCleanDisk (state S.Store c)
            → StoresTables (state S.Store conn).now result.seen.kept) }
        ensures same { works result ≡ true → IfSome result.conn (λ c. HasCleanDisk (state S.Store c)
            → StaysAs (state S.Store conn) (state S.Store c)) }
        ensures found_still { works result ≡ true
            → IfSome result.conn (λ c. HasCleanDisk (state S.Store c)
            → IsBareOrKept (state S.Store c)) }
        ensures rows_still { works result ≡ true
            → IfSome result.conn (λ c. HasCleanDisk (state S.Store c)
            → StoresTables (state S.Store c).now result.seen.kept) }
        ensures survives { IfSome result.conn (λ c. Survives (state S.Store conn) (state S.Store c)
            (λ _. ⊥)) }
        ensures tied { works result ≡ true → StandsWhole S.Store result.conn
            → MatchesFile S.Store result }
        ensures adopted { works result ≡ true → StandsWhole S.Store (Some conn)
            → MatchesFile S.Store result }
    {
        match load(alloc, &mut conn) {
            Ok(store) => SqlKeeper::begun(alloc, store, Some(conn), None),
            Err(error) => SqlKeeper::begun(alloc, Store::new(alloc), Some(conn), Some(error)),
        }
    }

    /// A keeper with no file. It doesn't work.
    #[tactic(auto, using(bdb_keep::proofs::TableLemmas::none_lie))]
    pub(crate) fn closed(alloc: Global, error: KeepError) -> Self
        ensures begins { Begins result }
        ensures refused { result.refusal ≡ Some error }
        ensures conn { result.conn ≡ None }
    {
        SqlKeeper::begun(alloc, Store::new(alloc), None, Some(error))
    }

    /// A keeper with these rows, where nothing runs yet.
    fn begun(
        alloc: Global,
        store: Store,
        conn: Option<Connection<S>>,
        refusal: Option<KeepError>,
    ) -> Self
        requires committed { store.kept ≡ store.last }
        requires fits { LieInTables store.kept }
        requires empty { IsSome refusal → store.kept ≡ map.empty }
        ensures begins { Begins result }
        ensures conn { result.conn ≡ conn }
        ensures refusal { result.refusal ≡ refusal }
        ensures rows { result.seen.kept ≡ store.kept }
        ensures last { result.seen.last ≡ store.kept }
    {
        let faults = u64::from(refusal == Some(KeepError::Fault));
        SqlKeeper {
            alloc,
            ledger: Ledger::over(store, faults),
            conn,
            refusal,
        }
    }

    /// Whether the file was loaded, and no commit was refused. Else the keeper refuses every call.
    pub fn works(&self) -> bool
        ensures { result ≡ works self.now }
    {
        self.refusal.is_none()
    }

    /// Takes the keeper apart. A transaction that runs is forgotten.
    pub fn into_connection(self) -> Option<Connection<S>>
        ensures { result ≡ self.conn }
    {
        let SqlKeeper {
            alloc: _,
            ledger: _,
            conn,
            refusal: _,
        } = self;
        conn
    }
}

impl<S: Alter> Keeper for SqlKeeper<S> {
    ghost seen = { λ k. k.seen };

    fn begin(&mut self) -> Result<(), KeepError>
        requires { self.old.seen.running ≡ false }
        ensures begins { IsBegin self.old.seen self.new.seen result KeepError.Fault }

        ensures answers { Answers self.old self.new result }
        ensures filed { MatchesFile S.Store self.old → MatchesFile S.Store self.new }
    {
        if let Some(error) = self.refusal {
            self.ledger.refuse(error);
            return Err(error);
        }
        self.ledger.begin();
        Ok(())
    }

    fn get(&mut self, tab: u8, key: &[u8], row: &mut Vec<u8>) -> Result<bool, KeepError>
        requires table { (1 ≤ tab) × (tab ≤ 15) }
        ensures found { IfOk result (λ found. map.get self.old.seen.kept (tab ∷ key.now)
            ≡ (if found then Some row.new.items else None)) }
        ensures empty { IfOk result (λ found. found ≡ false → row.new.items ≡ []) }
        ensures reads { RoseBy 1 self.old.seen.reads self.new.seen.reads }
        ensures read { IsRead self.old.seen self.new.seen result KeepError.Fault }

        ensures answers { Answers self.old self.new result }
        ensures filed { MatchesFile S.Store self.old → MatchesFile S.Store self.new }
    {
        if let Some(error) = self.refusal {
            self.ledger.refuse_read(error);
            return Err(error);
        }
        match self.ledger.get(tab, key, row) {
            Ok(found) => Ok(found),
            Err(error) => Err(error),
        }
    }

    fn next(
        &mut self,
        tab: u8,
        low: &[u8],
        key: &mut Vec<u8>,
        row: &mut Vec<u8>,
    ) -> Result<bool, KeepError>
        requires table { (1 ≤ tab) × (tab ≤ 15) }
        ensures found { IfOk result (λ found. MatchBool found
            (IsLeastFrom self.old.seen.kept tab low.now key.new.items row.new.items)
            (NoneFrom self.old.seen.kept tab low.now)) }
        ensures tables { LieInTables self.old.seen.kept }
        ensures empty { IfOk result (λ found. found ≡ false → (key.new.items ≡ [])
            × (row.new.items ≡ [])) }
        ensures reads { RoseBy 1 self.old.seen.reads self.new.seen.reads }
        ensures read { IsRead self.old.seen self.new.seen result KeepError.Fault }

        ensures answers { Answers self.old self.new result }
        ensures filed { MatchesFile S.Store self.old → MatchesFile S.Store self.new }
    {
        if let Some(error) = self.refusal {
            self.ledger.refuse_read(error);
            return Err(error);
        }
        match self.ledger.next(tab, low, key, row) {
            Ok(found) => Ok(found),
            Err(error) => Err(error),
        }
    }

    fn under(&mut self, tab: u8, prefix: &[u8], span: &mut Span) -> Result<(), KeepError>
        requires table { (1 ≤ tab) × (tab ≤ 15) }
        ensures rows { OnOk result (AreRowsUnder self.old.seen.kept tab prefix.now span.new) }
        ensures reads { OnOk result
            (RoseBy (length span.new + 1) self.old.seen.reads self.new.seen.reads) }
        ensures read { IsRead self.old.seen self.new.seen result KeepError.Fault }

        ensures answers { Answers self.old self.new result }
        ensures filed { MatchesFile S.Store self.old → MatchesFile S.Store self.new }
    {
        if let Some(error) = self.refusal {
            self.ledger.refuse_read(error);
            return Err(error);
        }
        match self.ledger.under(tab, prefix, span) {
            Ok(()) => Ok(()),
            Err(error) => Err(error),
        }
    }

    fn count_marked(&mut self, tab: u8, end: KeyEnd, word: u32) -> Result<usize, KeepError>
        requires table { (1 ≤ tab) × (tab ≤ 15) }
        ensures counted { IfOk result (λ n. IsMarkedCount self.old.seen.kept tab end word n) }
        ensures reads { RoseBy 1 self.old.seen.reads self.new.seen.reads }
        ensures read { IsRead self.old.seen self.new.seen result KeepError.Fault }

        ensures answers { Answers self.old self.new result }
        ensures filed { MatchesFile S.Store self.old → MatchesFile S.Store self.new }
    {
        if let Some(error) = self.refusal {
            self.ledger.refuse_read(error);
            return Err(error);
        }
        match self.ledger.count_marked(tab, end, word) {
            Ok(count) => Ok(count),
            Err(error) => Err(error),
        }
    }

    fn put(&mut self, tab: u8, key: &[u8], row: &[u8]) -> Result<(), KeepError>
        requires table { (1 ≤ tab) × (tab ≤ 15) }
        requires running { self.old.seen.running ≡ true }
        ensures kept { OnOk result
            (self.new.seen.kept ≡ map.insert self.old.seen.kept (tab ∷ key.now) row.now) }
        ensures writes { RoseBy 1 self.old.seen.writes self.new.seen.writes }
        ensures write { IsWrite self.old.seen self.new.seen result KeepError.Fault }

        ensures answers { Answers self.old self.new result }
        ensures filed { MatchesFile S.Store self.old → MatchesFile S.Store self.new }
    {
        if let Some(error) = self.refusal {
            self.ledger.refuse_write(error);
            return Err(error);
        }
        match self.ledger.put(tab, key, row) {
            Ok(()) => Ok(()),
            Err(error) => Err(error),
        }
    }

    fn remove(&mut self, tab: u8, key: &[u8]) -> Result<bool, KeepError>
        requires table { (1 ≤ tab) × (tab ≤ 15) }
        requires running { self.old.seen.running ≡ true }
        ensures found { IfOk result
            (λ found. found ≡ is_some (map.get self.old.seen.kept (tab ∷ key.now))) }
        ensures kept { OnOk result
            (self.new.seen.kept ≡ map.remove self.old.seen.kept (tab ∷ key.now)) }
        ensures writes { RoseBy 1 self.old.seen.writes self.new.seen.writes }
        ensures write { IsWrite self.old.seen self.new.seen result KeepError.Fault }

        ensures answers { Answers self.old self.new result }
        ensures filed { MatchesFile S.Store self.old → MatchesFile S.Store self.new }
    {
        if let Some(error) = self.refusal {
            self.ledger.refuse_write(error);
            return Err(error);
        }
        match self.ledger.remove(tab, key) {
            Ok(found) => Ok(found),
            Err(error) => Err(error),
        }
    }

    fn put_all(&mut self, tab: u8, span: &Span) -> Result<(), KeepError>
        requires table { (1 ≤ tab) × (tab ≤ 15) }
        requires running { self.old.seen.running ≡ true }
        ensures kept { OnOk result
            (self.new.seen.kept ≡ with_rows tab self.old.seen.kept span.now) }
        ensures writes { OnOk result
            (RoseBy (length span.now) self.old.seen.writes self.new.seen.writes) }
        ensures write { IsWrite self.old.seen self.new.seen result KeepError.Fault }

        ensures answers { Answers self.old self.new result }
        ensures filed { MatchesFile S.Store self.old → MatchesFile S.Store self.new }
    {
        if let Some(error) = self.refusal {
            self.ledger.refuse_write(error);
            return Err(error);
        }
        match self.ledger.put_all(tab, span) {
            Ok(()) => Ok(()),
            Err(error) => Err(error),
        }
    }

    fn remove_all(&mut self, tab: u8, span: &Span) -> Result<(), KeepError>
        requires table { (1 ≤ tab) × (tab ≤ 15) }
        requires running { self.old.seen.running ≡ true }
        ensures kept { OnOk result
            (self.new.seen.kept ≡ without_rows tab self.old.seen.kept span.now) }
        ensures writes { OnOk result
            (RoseBy (length span.now) self.old.seen.writes self.new.seen.writes) }
        ensures write { IsWrite self.old.seen self.new.seen result KeepError.Fault }

        ensures answers { Answers self.old self.new result }
        ensures filed { MatchesFile S.Store self.old → MatchesFile S.Store self.new }
    {
        if let Some(error) = self.refusal {
            self.ledger.refuse_write(error);
            return Err(error);
        }
        match self.ledger.remove_all(tab, span) {
            Ok(()) => Ok(()),
            Err(error) => Err(error),
        }
    }

    fn commit(&mut self) -> Result<(), KeepError>
        requires { self.old.seen.running ≡ true }
        ensures commit { IsCommit self.old.seen self.new.seen result KeepError.Fault }

        ensures ends { Commits self.old self.new result }
        ensures conn { MatchesFile S.Store self.old → OnErr result (IsSome self.new.conn) }
        ensures crash { MatchesFile S.Store self.old
            → OnErr result
            (MayStore S.Store self.new.conn self.old.seen.last self.old.seen.kept) }
        ensures tied { MatchesFile S.Store self.old → OnOk result (MatchesFile S.Store self.new) }
    {
        if let Some(error) = self.refusal {
            self.ledger.refuse(error);
            return Err(error);
        }
        match write_to(self.alloc, &mut self.conn, self.ledger.store()) {
            Ok(()) => {
                self.ledger.commit();
                Ok(())
            }
            Err(error) => {
                self.ledger.refuse(error);
                self.refusal = Some(KeepError::Fault);
                Err(error)
            }
        }
    }

    fn undo(&mut self)
        ensures undone { IsUndo self.old.seen self.new.seen }

        ensures refusal { self.new.refusal ≡ self.old.refusal }
        ensures conn { self.new.conn ≡ self.old.conn }
        ensures filed { MatchesFile S.Store self.old → MatchesFile S.Store self.new }
    {
        self.ledger.undo();
    }
}

/// Writes the changes of a store to a file, if there is one.
fn write_to<S: Alter>(
    alloc: Global,
    conn: &mut Option<Connection<S>>,
    store: &Store,
) -> Result<(), KeepError>
    ensures file { OnOk result (IsSome conn.old) }
    ensures conn { OnOk result (IsSome conn.new) }
    ensures stays { IsSome conn.old → IsSome conn.new }
    ensures tied { StoresRows S.Store conn.old store.now.last
        → OnOk result (StoresRows S.Store conn.new store.now.kept) }
    ensures crash { StoresRows S.Store conn.old store.now.last
        → OnErr result (MayStore S.Store conn.new store.now.last store.now.kept) }
{
    let Some(conn) = conn else {
        return Err(KeepError::Fault);
    };
    match write_changes(alloc, conn, store) {
        Ok(()) => Ok(()),
        Err(error) => Err(keeper_error(error)),
    }
}
