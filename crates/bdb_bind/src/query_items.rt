// The items of a query, found by alias.
ghost use Rattle.std.specs.Prelude.{◌≡◌, ◌<◌, [], length, IfOk, IfSome};
ghost use Rattle.std.specs.Option.{option_copied};
ghost use Rattle.bdb_bind.specs.Firsts.{Checks};
ghost use Rattle.bdb_bind.specs.QueryLines.{alias_twice};
ghost use Rattle.bdb_bind.specs.Scope.{item_place, item_of};

use crate::bound::BindError;
use crate::refusals::repeated_alias;
use bdb_base::Txt;
use bdb_syntax::RawItem;
use indexmap::IndexMap;
use std::alloc::Global;
use std::marker::Model;

/// The items of a query, with the place of each alias. Contracts see the list of the items.
#[derive(Drop)]
pub struct QueryItems<'a> {
    items: &'a [RawItem],
    places: IndexMap<&'a str, usize>,
}

impl<'a> Model for QueryItems<'a> {
    ghost use Rattle.std.specs.Prelude.{List};
    ghost use Rattle.bdb_syntax.specs.declared.command.RawItem.{RawItem};
    ghost use Rattle.bdb_bind.specs.Scope.{TellsItems};

    ghost Value = { List RawItem };

    ghost view = { λ q. q.items.now };

    ghost invariant = { λ q. TellsItems q.places q.items.now };
}

impl<'a> QueryItems<'a> {
    /// Items, each to be found by its alias. The first whose alias stands at an earlier item is refused.
    pub fn of(alloc: Global, items: &'a [RawItem]) -> Result<Self, BindError>
        ensures checks { Checks result (alias_twice [] items.now) }
        ensures items { IfOk result (λ q. q ≡ items.now) }
    {
        let mut places = IndexMap::new(alloc);
        for (at, item) in items.iter().enumerate() {
            match places.insert(item.alias.as_str(), at) {
                Ok(None) => {}
                Ok(Some(_)) => return Err(repeated_alias(alloc, &item.alias)),
                Err(_) => return Err(BindError::Memory),
            }
        }
        Ok(QueryItems { items, places })
    }

    /// The items, in order.
    pub fn as_slice(&self) -> &'a [RawItem]
        ensures { result.now ≡ self.now }
    {
        self.items
    }

    /// The place of the first item of an alias.
    pub fn place(&self, alias: &Option<Txt>) -> Option<usize>
        ensures place { result ≡ item_place self.now alias.now }
        ensures within { IfSome result (λ place. place < length self.now) }
    {
        match alias {
            Some(alias) => self.places.get(alias.as_str()).copied(),
            None => None,
        }
    }

    /// The first item of an alias.
    pub fn item(&self, alias: &Option<Txt>) -> Option<&'a RawItem>
        ensures { option_copied result ≡ item_of self.now alias.now }
    {
        match self.place(alias) {
            Some(at) => Some(&self.items[at]),
            None => None,
        }
    }
}
