// The keys of tuples, by the relations of a catalog.
ghost use Rattle.std.specs.Prelude.{◌≡◌};
ghost use Rattle.bdb_base.specs.Bases.{key_lengths};
ghost use Rattle.bdb_base.specs.Clash.{key_of};

use bdb_base::{Catalog, Tuple, Value, key_length, key_of};

/// The length of the key of a tuple's relation.
pub fn key_length_in(catalog: &Catalog, tuple: &Tuple) -> u32
    ensures { result ≡ key_lengths catalog.now.rels tuple.now.rel }
{
    key_length(catalog.rels.as_slice(), tuple.rel)
}

/// The key of a tuple.
pub fn key_in<'a>(catalog: &Catalog, tuple: &'a Tuple) -> &'a [Value]
    ensures { result.now ≡ key_of (key_lengths catalog.now.rels) tuple.now }
{
    key_of(tuple, key_length_in(catalog, tuple))
}
