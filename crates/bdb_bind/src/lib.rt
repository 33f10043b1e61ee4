//! Binding: a command's names are looked up in a catalog, or it is refused with the first reason of a fixed order.
#![tactic(auto)]

mod aliases;
mod binding;
mod bound;
mod columns;
mod found;
mod index;
mod kinds;
mod laws;
mod lookup;
mod making;
mod names;
mod parts;
mod queries;
mod query_items;
mod query_making;
mod refusals;
mod safety;
mod scope;
mod shape;
mod unsafes;

pub use binding::{bind, bind_by};
pub use bound::{BindError, Bound};
pub use index::NameIndex;
pub use laws::{test_tells_bound, test_tells_safe, what_is_bound_fits, who_leaves_is_forgotten};
pub use safety::safe;
