// The lines of a script, appended to a buffer.
ghost use Rattle.std.specs.Prelude.{◌≡◌, ◌<◌, ◌++◌, OnOk};
ghost use Rattle.std.specs.List.{flat_map};
ghost use Rattle.bdb_gen.specs.Draws.{next_state, state_after, drawn};
ghost use Rattle.bdb_gen.specs.Draws.{draws as draws_of};
ghost use Rattle.bdb_gen.specs.Scripts.{user_line, relation_line, first_lines, path_text, after_path, belief_text, not_text, values_text, with_key, insert_line, delete_line, believers_line, deniers_line, line_of, after_line_of, line, after_line, followers, sevens};

use crate::draws::Draws;
use bdb_base::append_decimal;
use std::alloc::AllocError;

/// The users, by number.
const USERS: [u64; 8] = [0, 1, 2, 3, 4, 5, 6, 7];

/// Appends what a script begins with: its users, and its relation.
pub fn append_first_lines(out: &mut Vec<u8>) -> Result<(), AllocError>
    ensures { OnOk result (out.new.items ≡ out.old.items ++ first_lines) }
{
    append_users(out, &USERS)?;
    append_relation_line(out)?;
    Ok(())
}

/// Appends the line that makes the relation.
#[tactic(auto, unfolding(crate::specs::Scripts::relation_line))]
fn append_relation_line(out: &mut Vec<u8>) -> Result<(), AllocError>
    ensures { OnOk result (out.new.items ≡ out.old.items ++ relation_line) }
{
    out.extend_from_slice(b"create relation R(k int, v int);\n")
}

/// Appends the lines that make users.
fn append_users(out: &mut Vec<u8>, users: &[u64]) -> Result<(), AllocError>
    ensures { OnOk result (out.new.items ≡ out.old.items ++ flat_map user_line users.now) }
{
    for user in users {
        append_user_line(out, *user)?;
    }
    Ok(())
}

/// Appends the line that makes a user.
#[tactic(auto, unfolding(crate::specs::Scripts::user_line))]
fn append_user_line(out: &mut Vec<u8>, user: u64) -> Result<(), AllocError>
    ensures { OnOk result (out.new.items ≡ out.old.items ++ user_line user) }
{
    out.extend_from_slice(b"create user 'u")?;
    append_decimal(out, user)?;
    out.extend_from_slice(b"';\n")
}

/// Draws a line, and appends it.
pub fn append_line(draws: &mut Draws, out: &mut Vec<u8>) -> Result<(), AllocError>
    ensures text { OnOk result (out.new.items ≡ out.old.items ++ line draws.old) }
    ensures state { OnOk result (draws.new ≡ after_line draws.old) }
{
    let kind = draws.draw(10);
    let key = draws.draw(50);
    append_line_of(draws, out, kind, key)?;
    Ok(())
}

/// Appends the line of a kind and a key, and draws what it needs.
fn append_line_of(
    draws: &mut Draws,
    out: &mut Vec<u8>,
    kind: u64,
    key: u64,
) -> Result<(), AllocError>
    ensures text { OnOk result (out.new.items ≡ out.old.items ++ line_of kind key draws.old) }
    ensures state { OnOk result (draws.new ≡ after_line_of kind draws.old) }
{
    if kind < 6 {
        append_insert(draws, out, key)
    } else if kind < 8 {
        append_delete(draws, out, key)
    } else if kind == 8 {
        append_believers(out, key)
    } else {
        append_deniers(out, key)
    }
}

/// Appends the insert of a key, and draws its path, its sign and its value.
fn append_insert(draws: &mut Draws, out: &mut Vec<u8>, key: u64) -> Result<(), AllocError>
    ensures text { OnOk result (out.new.items ≡ out.old.items ++ insert_line draws.old key) }
    ensures state { OnOk result (draws.new ≡ next_state (next_state (after_path draws.old))) }
{
    out.extend_from_slice(b"insert into ")?;
    append_path(draws, out)?;
    let sign = draws.draw(4);
    append_not(out, sign)?;
    let value = draws.draw(3);
    append_values(out, key, value)?;
    Ok(())
}

/// Appends `not`, where 0 was drawn.
#[tactic(auto, unfolding(crate::specs::Scripts::not_text))]
fn append_not(out: &mut Vec<u8>, drawn: u64) -> Result<(), AllocError>
    ensures { OnOk result (out.new.items ≡ out.old.items ++ not_text drawn) }
{
    if drawn == 0 {
        out.extend_from_slice(b"not ")?;
    }
    Ok(())
}

/// Appends the relation and the values of an insert.
#[tactic(auto, unfolding(crate::specs::Scripts::values_text))]
fn append_values(out: &mut Vec<u8>, key: u64, value: u64) -> Result<(), AllocError>
    ensures { OnOk result (out.new.items ≡ out.old.items ++ values_text key value) }
{
    out.extend_from_slice(b"R values(")?;
    append_decimal(out, key)?;
    out.push(b',')?;
    append_decimal(out, value)?;
    out.extend_from_slice(b");\n")
}

/// Appends the delete of a key, and draws its path.
fn append_delete(draws: &mut Draws, out: &mut Vec<u8>, key: u64) -> Result<(), AllocError>
    ensures text { OnOk result (out.new.items ≡ out.old.items ++ delete_line draws.old key) }
    ensures state { OnOk result (draws.new ≡ after_path draws.old) }
{
    out.extend_from_slice(b"delete from ")?;
    append_path(draws, out)?;
    append_with_key(out, b"R where k = ", key)?;
    Ok(())
}

/// Appends the query who believes what of a key.
fn append_believers(out: &mut Vec<u8>, key: u64) -> Result<(), AllocError>
    ensures { OnOk result (out.new.items ≡ out.old.items ++ believers_line key) }
{
    let query: &[u8] = b"select U.name, X.v from Users U, BELIEF U.uid R X where X.k = ";
    append_with_key(out, query, key)
}

/// Appends the query who denies what is believed of a key.
fn append_deniers(out: &mut Vec<u8>, key: u64) -> Result<(), AllocError>
    ensures { OnOk result (out.new.items ≡ out.old.items ++ deniers_line key) }
{
    let query: &[u8] =
        b"select U.name, X.v from Users U, R X, BELIEF U.uid not R Y where Y.k = X.k and Y.v = X.v and X.k = ";
    append_with_key(out, query, key)
}

/// Appends a text, a key, and the end of a command.
#[tactic(auto, unfolding(crate::specs::Scripts::with_key))]
fn append_with_key(out: &mut Vec<u8>, text: &[u8], key: u64) -> Result<(), AllocError>
    ensures { OnOk result (out.new.items ≡ out.old.items ++ with_key text.now key) }
{
    out.extend_from_slice(text)?;
    append_decimal(out, key)?;
    out.extend_from_slice(b";\n")?;
    Ok(())
}

/// Draws a path, and appends it: first how many users it has, and then each, with no user twice in a row.
#[tactic(auto, using(crate::proofs::PathLemmas::no_path_state, crate::proofs::PathLemmas::path_state_of))]
fn append_path(draws: &mut Draws, out: &mut Vec<u8>) -> Result<(), AllocError>
    ensures text { OnOk result (out.new.items ≡ out.old.items ++ path_text draws.old) }
    ensures state { OnOk result (draws.new ≡ after_path draws.old) }
{
    let count = draws.draw(4);
    if count == 0 {
        return Ok(());
    }
    let first = draws.draw(8);
    append_belief(out, first)?;
    append_followers(draws, out, first, count - 1)?;
    Ok(())
}

/// Draws so many users behind a user, and appends them.
fn append_followers(
    draws: &mut Draws,
    out: &mut Vec<u8>,
    first: u64,
    count: u64,
) -> Result<(), AllocError>
    requires { first < 8 }
    ensures text { OnOk result
        (out.new.items ≡ out.old.items ++ flat_map belief_text
        (followers first (draws_of draws.old (sevens count)))) }
    ensures state { OnOk result (draws.new ≡ state_after draws.old count) }
{
    let mut user = first;
    for _further in 0..count {
        user = (user + 1 + draws.draw(7)) % 8;
        append_belief(out, user)?;
    }
    Ok(())
}

/// Appends a user of a path.
#[tactic(auto, unfolding(crate::specs::Scripts::belief_text))]
fn append_belief(out: &mut Vec<u8>, user: u64) -> Result<(), AllocError>
    ensures { OnOk result (out.new.items ≡ out.old.items ++ belief_text user) }
{
    out.extend_from_slice(b"BELIEF 'u")?;
    append_decimal(out, user)?;
    out.extend_from_slice(b"' ")
}
