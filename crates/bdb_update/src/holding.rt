// Whether statements of one path have a tuple.
ghost use Rattle.std.specs.Prelude.{◌≡◌, ◌≤◌, length, drop};
ghost use Rattle.std.specs.Ordering.{is_lt};
ghost use Rattle.bdb_base.specs.Bases.{has_tuple};
ghost use Rattle.bdb_base.specs.Order.{tuple_cmp};
ghost use Rattle.bdb_update.specs.Holding.{AreOfOnePath, begins_with};

use bdb_base::{Stmt, Tuple, cmp_tuple, same_tuple};

/// Whether one of these statements, which are in order and all of one path, has a tuple. It is a binary search.
pub fn holds_tuple(stmts: &[Stmt], tuple: &Tuple) -> bool
    requires { AreOfOnePath stmts.now }
    ensures { result ≡ has_tuple stmts.now tuple.now }
{
    let at = place_from(stmts, tuple);
    begins_with(&stmts[at..], tuple)
}

// The place of the first of these statements whose tuple is not below another one.
fn place_from(stmts: &[Stmt], tuple: &Tuple) -> usize
    requires { AreOfOnePath stmts.now }
    ensures within { result ≤ length stmts.now }
    ensures found { begins_with (drop result stmts.now) tuple.now ≡ has_tuple stmts.now tuple.now }
{
    stmts.partition_point(
        |stmt: &Stmt| -> bool
            ensures { result ≡ is_lt (tuple_cmp stmt.now.tuple tuple.entry.now) }
        { cmp_tuple(&stmt.tuple, tuple).is_lt() },
    )
}

// Whether the first of some statements, if there is one, has a tuple.
fn begins_with(stmts: &[Stmt], tuple: &Tuple) -> bool
    ensures { result ≡ begins_with stmts.now tuple.now }
{
    match stmts {
        [] => false,
        [first, _others @ ..] => same_tuple(tuple, &first.tuple),
    }
}
