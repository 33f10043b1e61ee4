// What a caller tests so that a base stays valid, and the laws that say so.
ghost use Rattle.bdb_base.specs.BaseLaws.{PutIsValid, TakeIsValid, AddUserIsValid, AddRelationIsValid, PutCountsTuple, PutCountsStatement};

/// A valid base stays valid with one more statement: one that belongs to its catalog and clashes with none of its path,
/// where the limits leave room.
pub fn put_is_valid()
    ensures { PutIsValid }
{}

/// A valid base stays valid without a statement.
pub fn take_is_valid()
    ensures { TakeIsValid }
{}

/// A valid base stays valid with one more user, of a plain name that no live user has, where there is room.
pub fn add_user_is_valid()
    ensures { AddUserIsValid }
{}

/// A valid base stays valid with one more valid relation, of a name that none has, where there is room.
pub fn add_relation_is_valid()
    ensures { AddRelationIsValid }
{}

/// A put adds a tuple exactly where no statement has it.
pub fn put_counts_tuple()
    ensures { PutCountsTuple }
{}

/// A put to a valid base adds a statement exactly where it did not stand.
pub fn put_counts_statement()
    ensures { PutCountsStatement }
{}
