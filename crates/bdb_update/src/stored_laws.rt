// What holds of tables that store a base with its worlds, each law as the contract of a function that does nothing.
ghost use Rattle.bdb_update.specs.StoredLaws.{StoredIsInGrammar, StoredBaseIsOne, TwoRowsStoreEmpty, PutStoresRelation, EdgesStoreUser, EdgesStoreWithoutUser, GonePlaceStored};

/// Tables that store a base are in the grammar.
pub fn stored_is_in_grammar()
    ensures { StoredIsInGrammar }
{}

/// Two valid bases that the same tables store are one.
pub fn stored_base_is_one()
    ensures { StoredBaseIsOne }
{}

/// The row of the format and the depth of world 0 store the empty base.
pub fn two_rows_store_empty()
    ensures { TwoRowsStoreEmpty }
{}

/// The row of a relation whose number is the next adds the relation, where no statement is of a relation that there isn't.
pub fn put_stores_relation()
    ensures { PutStoresRelation }
{}

/// The row of a user whose number is the next, with an edge for this user at each world, adds the user.
pub fn edges_store_user()
    ensures { EdgesStoreUser }
{}

/// The row of one who is gone in place of a user's, with no edge for this user at any world, takes the user away.
pub fn edges_store_without_user()
    ensures { EdgesStoreWithoutUser }
{}

/// The row of one who is gone, whose number is the next, adds a place without a user.
pub fn gone_place_stored()
    ensures { GonePlaceStored }
{}
