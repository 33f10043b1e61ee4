// One list type for all lists of the project.
ghost use Rattle.std.specs.Prelude.{◌≡◌, ◌==◌, [], ◌∷◌, ◌++◌, ◌≤◌, ◌<◌, length, insert, remove, take, IfOk, OnOk, OnErr, slice_get, slice_set, Some};
ghost use Rattle.std.specs.Fn.{CalledAt};
ghost use Rattle.std.specs.List.Retain.{IsFiltered};
ghost use Rattle.std.specs.Option.{option_copied};

use std::alloc::{AllocError, Global};
use std::marker::Model;

/// A value that can be copied exactly.
pub trait Exact: Drop {
    /// An equal value. The only error is running out of memory.
    fn try_clone(&self, alloc: Global) -> Result<Self, AllocError>
        ensures { IfOk result (λ copy. copy ≡ self.now) };
}

/// A list of items, which contracts see as the list itself.
#[derive(Debug, Drop)]
pub struct List<X> {
    items: Vec<X>,
}

impl<X> Model for List<X> {
    ghost use Rattle.std.specs.Prelude.{List};

    ghost Value = { List X };

    ghost view = { λ s. s.items.items };
}

impl<X: Exact> List<X> {
    /// The empty list, which takes no memory.
    pub fn new(alloc: Global) -> Self
        ensures { result ≡ [] }
    {
        List {
            items: Vec::new(alloc),
        }
    }

    /// The list of a vector's items.
    pub fn from_vec(items: Vec<X>) -> Self
        ensures { result ≡ items.items }
    {
        List { items }
    }

    /// The items as a vector.
    pub fn into_vec(self) -> Vec<X>
        ensures { result.items ≡ self }
    {
        let List { items } = self;
        items
    }

    /// How many items there are.
    pub fn len(&self) -> usize
        ensures { result ≡ length self.now }
    {
        self.items.len()
    }

    /// Whether there is no item.
    pub fn is_empty(&self) -> bool
        ensures { result ≡ (length self.now == 0) }
    {
        self.items.is_empty()
    }

    /// The items.
    pub fn as_slice(&self) -> &[X]
        ensures { result.now ≡ self.now }
    {
        self.items.as_slice()
    }

    /// The item at a place; none past the end.
    pub fn get(&self, at: usize) -> Option<&X>
        ensures { option_copied result ≡ slice_get self.now at }
    {
        self.items.get(at)
    }

    /// Adds an item at the end. After a refusal the list is unchanged.
    pub fn push(&mut self, item: X) -> Result<(), AllocError>
        ensures ok { OnOk result (self.new ≡ self.old ++ item ∷ []) }
        ensures err { OnErr result (self.new ≡ self.old) }
    {
        self.items.push(item)?;
        Ok(())
    }

    /// Puts an item at a place. After a refusal the list is unchanged.
    pub fn insert(&mut self, at: usize, item: X) -> Result<(), AllocError>
        requires { at ≤ length self.old }
        ensures ok { OnOk result (self.new ≡ insert self.old at item) }
        ensures err { OnErr result (self.new ≡ self.old) }
    {
        self.items.insert(at, item)?;
        Ok(())
    }

    /// Takes the item at a place away.
    pub fn remove(&mut self, at: usize) -> X
        requires { at < length self.old }
        ensures value { slice_get self.old at ≡ Some result }
        ensures rest { self.new ≡ remove self.old at }
    {
        self.items.remove(at)
    }

    /// Lets an item stand at a place, instead of the one that stood there.
    pub fn set(&mut self, at: usize, item: X)
        requires { at < length self.old }
        ensures { self.new ≡ slice_set self.old at item }
    {
        self.items[at] = item;
    }

    /// Keeps the items that pass a test, in order.
    pub fn retain<F: FnMut(&X) -> bool>(&mut self, keep: F)
        requires { F.IsAlwaysCallable keep }
        ensures { IsFiltered (CalledAt F.FnMut) keep self.old self.new }
    {
        self.items.retain(keep);
    }

    /// Keeps the first items, as many as `len`.
    pub fn truncate(&mut self, len: usize)
        ensures { self.new ≡ take len self.old }
    {
        self.items.truncate(len);
    }
}

impl<X: Exact> Exact for List<X> {
    fn try_clone(&self, alloc: Global) -> Result<Self, AllocError> {
        let mut items = Vec::new(alloc);
        for item in &self.items {
            items.push(item.try_clone(alloc)?)?;
        }
        Ok(List { items })
    }
}

/// Commands of a session, in order, each without its semicolon.
pub type Lines = List<List<u8>>;

impl Exact for u32 {
    fn try_clone(&self, alloc: Global) -> Result<Self, AllocError> {
        Ok(*self)
    }
}

impl Exact for u8 {
    fn try_clone(&self, alloc: Global) -> Result<Self, AllocError> {
        Ok(*self)
    }
}
