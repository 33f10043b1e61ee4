// Bases.
ghost use Rattle.std.specs.Prelude.{◌≡◌, ◌<◌, not, true, length, IfOk, OnOk, OnErr};
ghost use Rattle.bdb_base.specs.Bases.{IsValid, empty_contents, is_gone, is_user, stands, with_statement, without_last_relation, without_last_user, without_statement, without_user, with_user, with_user_back, with_relation};
ghost use Rattle.bdb_base.specs.Changes.{statements_naming, without_statements_of};

use crate::kinds::{Catalog, RelDef, Stmt, UserSlot};
use crate::leaving::{count_naming, drop_naming};
use crate::list::{Exact, List};
use crate::ordered::{contains, put, take};
use crate::text::Txt;
use crate::users::set_slot;
use std::alloc::{AllocError, Global};
use std::marker::Model;

/// A base: the catalog, and the standing statements in order. It is valid at all times: no two statements of one path
/// clash, all names and tuples fit, and no limit is passed.
#[derive(Drop)]
pub struct Base {
    catalog: Catalog,
    stmts: List<Stmt>,
}

impl Model for Base {
    ghost use Rattle.bdb_base.specs.Bases.{Contents, IsValid};

    ghost Value = { Contents };

    ghost view = { λ b. record { catalog = b.catalog; stmts = b.stmts } };

    ghost invariant = { λ b. IsValid b.catalog b.stmts };
}

impl Base {
    /// The base with no relations, users or statements.
    pub fn empty(alloc: Global) -> Self
        ensures { result ≡ empty_contents }
    {
        let catalog = Catalog {
            rels: List::new(alloc),
            users: List::new(alloc),
        };
        Base {
            catalog,
            stmts: List::new(alloc),
        }
    }

    /// The base with this catalog and these statements.
    pub fn from_parts(catalog: Catalog, stmts: List<Stmt>) -> Self
        requires { IsValid catalog stmts }
        ensures { result ≡ record { catalog = catalog; stmts = stmts } }
    {
        Base { catalog, stmts }
    }

    /// The relations and users.
    pub fn catalog(&self) -> &Catalog
        ensures value { result.now ≡ self.now.catalog }
        ensures valid { IsValid self.now.catalog self.now.stmts }
    {
        &self.catalog
    }

    /// The standing statements, in order.
    pub fn stmts(&self) -> &[Stmt]
        ensures value { result.now ≡ self.now.stmts }
        ensures valid { IsValid self.now.catalog self.now.stmts }
    {
        self.stmts.as_slice()
    }

    /// Adds a user, whose number is the count of places then. After a refusal the base is unchanged.
    pub fn add_user(&mut self, name: Txt) -> Result<(), AllocError>
        requires { IsValid (with_user self.old.catalog name) self.old.stmts }
        ensures ok { OnOk result
            (self.new ≡ record self.old { catalog = with_user self.old.catalog name }) }
        ensures err { OnErr result (self.new ≡ self.old) }
    {
        self.catalog.users.push(UserSlot::Live(name))
    }

    /// Adds a relation after the others. After a refusal the base is unchanged.
    pub fn add_relation(&mut self, def: RelDef) -> Result<(), AllocError>
        requires { IsValid (with_relation self.old.catalog def) self.old.stmts }
        ensures ok { OnOk result
            (self.new ≡ record self.old { catalog = with_relation self.old.catalog def }) }
        ensures err { OnErr result (self.new ≡ self.old) }
    {
        self.catalog.rels.push(def)
    }

    /// Takes the place of the user added last away, which no statement may name: so that an addition can be taken back.
    pub fn pop_user(&mut self)
        requires some { 0 < length self.old.catalog.users }
        requires valid { IsValid (without_last_user self.old.catalog) self.old.stmts }
        ensures { self.new ≡ record self.old { catalog = without_last_user self.old.catalog } }
    {
        let last = self.catalog.users.len() - 1;
        self.catalog.users.truncate(last);
    }

    /// Lets a user leave: he is gone from his place, and each statement whose path names him is taken away; the others stay, in
    /// order. Gives the number of statements that were taken away. It takes no memory.
    pub fn drop_user(&mut self, uid: u32) -> u32
        requires { is_user self.old.catalog.users uid ≡ true }
        ensures count { result ≡ length (statements_naming uid self.old.stmts) }
        ensures left { self.new ≡ record {
          catalog = without_user self.old.catalog uid;
          stmts = without_statements_of uid self.old.stmts;
        } }
    {
        let count = count_naming(self.stmts.as_slice(), uid);
        drop_naming(&mut self.stmts, uid);
        set_slot(&mut self.catalog.users, uid, UserSlot::Gone);
        count as u32
    }

    /// Lets a live user of this name stand at the place of one who is gone: so that his leaving can be taken back. It takes no
    /// memory.
    pub fn revive_user(&mut self, uid: u32, name: Txt)
        requires gone { is_gone self.old.catalog.users uid ≡ true }
        requires valid { IsValid (with_user_back self.old.catalog uid name) self.old.stmts }
        ensures { self.new
            ≡ record self.old { catalog = with_user_back self.old.catalog uid name } }
    {
        set_slot(&mut self.catalog.users, uid, UserSlot::Live(name));
    }

    /// Takes the relation added last away, of which no tuple may stand: so that an addition can be taken back.
    pub fn pop_relation(&mut self)
        requires some { 0 < length self.old.catalog.rels }
        requires valid { IsValid (without_last_relation self.old.catalog) self.old.stmts }
        ensures { self.new ≡ record self.old { catalog = without_last_relation self.old.catalog } }
    {
        let last = self.catalog.rels.len() - 1;
        self.catalog.rels.truncate(last);
    }

    /// Lets a statement stand. True where it was added, false where it stood. After a refusal the base is unchanged.
    pub fn put(&mut self, s: Stmt) -> Result<bool, AllocError>
        requires { IsValid self.old.catalog (with_statement self.old.stmts s) }
        ensures added { IfOk result (λ added. added ≡ not (stands self.old.stmts s)) }
        ensures ok { OnOk result
            (self.new ≡ record self.old { stmts = with_statement self.old.stmts s }) }
        ensures err { OnErr result (self.new ≡ self.old) }
    {
        put(&mut self.stmts, s)
    }

    /// Takes a statement away. True where it stood.
    pub fn take(&mut self, s: &Stmt) -> bool
        ensures stood { result ≡ stands self.old.stmts s.now }
        ensures taken { self.new
            ≡ record self.old { stmts = without_statement self.old.stmts s.now } }
    {
        take(&mut self.stmts, s)
    }

    /// Whether a statement stands.
    pub fn stands(&self, s: &Stmt) -> bool
        ensures { result ≡ stands self.now.stmts s.now }
    {
        contains(self.stmts.as_slice(), s)
    }

    /// Lets these relations and users stand in place of those that stood.
    pub fn set_catalog(&mut self, catalog: Catalog)
        requires { IsValid catalog self.old.stmts }
        ensures { self.new ≡ record self.old { catalog = catalog } }
    {
        self.catalog = catalog;
    }

    /// Lets these statements stand in place of those that stood.
    pub fn set_statements(&mut self, stmts: List<Stmt>)
        requires { IsValid self.old.catalog stmts }
        ensures { self.new ≡ record self.old { stmts = stmts } }
    {
        self.stmts = stmts;
    }
}

impl Exact for Base {
    fn try_clone(&self, alloc: Global) -> Result<Self, AllocError> {
        let catalog = self.catalog.try_clone(alloc)?;
        let stmts = self.stmts.try_clone(alloc)?;
        Ok(Base { catalog, stmts })
    }
}
