//! What changes of statements make of tables that store a base with its worlds. A change goes in steps: worlds and numbers
//! come, a row becomes explicit or no longer is, its group is settled, worlds and numbers go. Each step has a law that says
//! what the tables store after it.
#![tactic(auto)]

mod adding;
mod answer;
mod change_laws;
mod changing;
mod clashing;
mod dropping;
mod elsewhere;
mod filling;
mod groups;
mod holding;
mod inserting;
mod joining;
mod keys;
mod leaving;
mod looking;
mod numbers;
mod parting;
mod reached;
mod reading;
mod replacing;
mod standing;
mod stored_laws;
mod trying;
mod weighing;

pub use adding::add_statement;
pub use answer::{Added, UpdateError};
pub use change_laws::{
    drop_differs_at, drop_is_within, drop_leaves_states, drop_leaves_tuples, drop_says_none,
    number_put_stores, number_taken_stores, other_worlds_store, plain_world_inherits,
    put_differs_at, put_is_within, put_says_sign, same_reach_stores, settled_group_stores,
    world_comes_with_rows, world_goes_with_rows,
};
pub use changing::change_statements;
pub use dropping::drop_statement;
pub use keys::stored_relations;
pub use looking::size_passed;
pub use replacing::{add_statements, drop_statements};
pub use standing::stands;
pub use stored_laws::{
    edges_store_user, put_stores_relation, stored_base_is_one, stored_is_in_grammar,
    two_rows_store_empty,
};
