// What a session learns from a step.
use bdb_base::Catalog;
use bdb_bind::NameIndex;
use bdb_canon::Counts;
use bdb_undo::Change;

/// What a session learns from a step, once it is committed: how large the base then is, its names where they changed, and the change
/// that led to it, where it is another base.
#[derive(Drop)]
pub(crate) struct News {
    pub counts: Counts,
    pub names: Option<Names>,
    pub change: Option<Change>,
}

/// The relations and users of a base, with an index of their names.
#[derive(Drop)]
pub(crate) struct Names {
    pub catalog: Catalog,
    pub index: NameIndex,
}
