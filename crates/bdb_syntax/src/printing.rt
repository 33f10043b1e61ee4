// The printed form of commands.
ghost use Rattle.std.specs.Prelude.{◌≡◌, ◌++◌, IfOk, OnOk};
ghost use Rattle.std.specs.List.{flat_map};
ghost use Rattle.bdb_syntax.specs.Printed.{belief_text, col_text, columns_text, cond_text, item_text, key_text, not_text, printed, query_text, set_text, side_text, signed_text, target_text, values_text, where_text, who_text};

use crate::command::{Command, RawCol, RawCond, RawItem, RawQuery, RawSet, RawSide, RawWho};
use bdb_base::{
    ColDef, List, Printed, Sign, Txt, Value, append_cmp, append_dotted, append_int, append_quoted,
    append_separated, append_value,
};
use std::alloc::{AllocError, Global};

/// The printed form of a command, without a semicolon. Where its names are words that aren't reserved, and its texts clean,
/// it reads back as the same command.
pub fn print(alloc: Global, command: &Command) -> Result<List<u8>, AllocError>
    ensures { IfOk result (λ bytes. bytes ≡ printed command.now) }
{
    let mut out = Vec::new(alloc);
    append_command(&mut out, command)?;
    Ok(List::from_vec(out))
}

fn append_command(out: &mut Vec<u8>, command: &Command) -> Result<(), AllocError>
    ensures { OnOk result (out.new.items ≡ out.old.items ++ printed command.now) }
{
    match command {
        Command::CreateUser { name } => append_create_user(out, name),
        Command::DropUser { name } => append_drop_user(out, name),
        Command::CreateRelation { name, cols, key } => {
            append_create_relation(out, name, cols, *key)
        }
        Command::Insert {
            users,
            sign,
            rel,
            vals,
        } => append_insert(out, users, *sign, rel, vals),
        Command::Delete {
            users,
            sign,
            rel,
            conds,
        } => append_delete(out, users, *sign, rel, conds),
        Command::Update {
            users,
            sign,
            rel,
            sets,
            conds,
        } => append_update(out, users, *sign, rel, sets, conds),
        Command::Select { query } => append_query(out, query),
        Command::Explain { query } => append_explain(out, query),
        Command::ShowWorld { users } => append_show_world(out, users),
        Command::Why {
            users,
            sign,
            rel,
            vals,
        } => append_why(out, users, *sign, rel, vals),
        Command::ShowTables => out.extend_from_slice(b"show tables"),
        Command::Undo => out.extend_from_slice(b"undo"),
        Command::Redo => out.extend_from_slice(b"redo"),
    }
}

fn append_create_user(out: &mut Vec<u8>, name: &Txt) -> Result<(), AllocError>
    ensures { OnOk result (out.new.items ≡ out.old.items ++ printed (Command.CreateUser name.now)) }
{
    out.extend_from_slice(b"create user ")?;
    append_quoted(out, name.as_bytes())
}

fn append_drop_user(out: &mut Vec<u8>, name: &Txt) -> Result<(), AllocError>
    ensures { OnOk result (out.new.items ≡ out.old.items ++ printed (Command.DropUser name.now)) }
{
    out.extend_from_slice(b"drop user ")?;
    append_quoted(out, name.as_bytes())
}

fn append_create_relation(
    out: &mut Vec<u8>,
    name: &Txt,
    cols: &List<ColDef>,
    key: Option<i64>,
) -> Result<(), AllocError>
    ensures { OnOk result
        (out.new.items ≡ out.old.items ++ printed (Command.CreateRelation name.now cols.now key)) }
{
    append_columns(out, name, cols)?;
    append_key(out, key)
}

/// Appends a new relation's name and columns, and the words before them.
fn append_columns(out: &mut Vec<u8>, name: &Txt, cols: &List<ColDef>) -> Result<(), AllocError>
    ensures { OnOk result (out.new.items ≡ out.old.items ++ columns_text name.now cols.now) }
{
    out.extend_from_slice(b"create relation ")?;
    out.extend_from_slice(name.as_bytes())?;
    out.push(b'(')?;
    append_separated(out, b", ", cols.as_slice())?;
    out.push(b')')?;
    Ok(())
}

/// Appends the length of a key where it is said, with the space before the word.
fn append_key(out: &mut Vec<u8>, key: Option<i64>) -> Result<(), AllocError>
    ensures { OnOk result (out.new.items ≡ out.old.items ++ key_text key) }
{
    match key {
        Some(length) => {
            out.extend_from_slice(b" key ")?;
            append_int(out, length)
        }
        None => Ok(()),
    }
}

fn append_insert(
    out: &mut Vec<u8>,
    users: &List<Txt>,
    sign: Sign,
    rel: &Txt,
    vals: &List<Value>,
) -> Result<(), AllocError>
    ensures { OnOk result
        (out.new.items ≡ out.old.items ++ printed
        (Command.Insert users.now sign rel.now vals.now)) }
{
    out.extend_from_slice(b"insert into")?;
    append_signed(out, users, sign, rel, vals)
}

fn append_why(
    out: &mut Vec<u8>,
    users: &List<Txt>,
    sign: Sign,
    rel: &Txt,
    vals: &List<Value>,
) -> Result<(), AllocError>
    ensures { OnOk result
        (out.new.items ≡ out.old.items ++ printed (Command.Why users.now sign rel.now vals.now)) }
{
    out.extend_from_slice(b"why")?;
    append_signed(out, users, sign, rel, vals)
}

/// Appends a path, a sign and a tuple, with the space before them.
fn append_signed(
    out: &mut Vec<u8>,
    users: &List<Txt>,
    sign: Sign,
    rel: &Txt,
    vals: &List<Value>,
) -> Result<(), AllocError>
    ensures { OnOk result
        (out.new.items ≡ out.old.items ++ signed_text users.now sign rel.now vals.now) }
{
    append_target(out, users, sign, rel)?;
    append_values(out, vals)
}

/// Appends the values of a tuple, with the space before them.
fn append_values(out: &mut Vec<u8>, vals: &List<Value>) -> Result<(), AllocError>
    ensures { OnOk result (out.new.items ≡ out.old.items ++ values_text vals.now) }
{
    out.extend_from_slice(b" values(")?;
    append_separated(out, b", ", vals.as_slice())?;
    out.push(b')')?;
    Ok(())
}

fn append_delete(
    out: &mut Vec<u8>,
    users: &List<Txt>,
    sign: Sign,
    rel: &Txt,
    conds: &List<RawCond>,
) -> Result<(), AllocError>
    ensures { OnOk result
        (out.new.items ≡ out.old.items ++ printed
        (Command.Delete users.now sign rel.now conds.now)) }
{
    out.extend_from_slice(b"delete from")?;
    append_target(out, users, sign, rel)?;
    append_where(out, conds)
}

fn append_update(
    out: &mut Vec<u8>,
    users: &List<Txt>,
    sign: Sign,
    rel: &Txt,
    sets: &List<RawSet>,
    conds: &List<RawCond>,
) -> Result<(), AllocError>
    ensures { OnOk result
        (out.new.items ≡ out.old.items ++ printed
        (Command.Update users.now sign rel.now sets.now conds.now)) }
{
    out.extend_from_slice(b"update")?;
    append_target(out, users, sign, rel)?;
    out.extend_from_slice(b" set ")?;
    append_separated(out, b", ", sets.as_slice())?;
    append_where(out, conds)
}

fn append_explain(out: &mut Vec<u8>, query: &RawQuery) -> Result<(), AllocError>
    ensures { OnOk result (out.new.items ≡ out.old.items ++ printed (Command.Explain query.now)) }
{
    out.extend_from_slice(b"explain ")?;
    append_query(out, query)
}

fn append_show_world(out: &mut Vec<u8>, users: &List<Txt>) -> Result<(), AllocError>
    ensures { OnOk result (out.new.items ≡ out.old.items ++ printed (Command.ShowWorld users.now)) }
{
    out.extend_from_slice(b"show world")?;
    append_beliefs(out, users)
}

fn append_query(out: &mut Vec<u8>, query: &RawQuery) -> Result<(), AllocError>
    ensures { OnOk result (out.new.items ≡ out.old.items ++ query_text query.now) }
{
    out.extend_from_slice(b"select ")?;
    append_separated(out, b", ", query.take.as_slice())?;
    out.extend_from_slice(b" from")?;
    append_separated(out, b",", query.items.as_slice())?;
    append_where(out, &query.conds)
}

/// Appends the path, the sign and the relation that a command names, with the space before them.
fn append_target(
    out: &mut Vec<u8>,
    users: &List<Txt>,
    sign: Sign,
    rel: &Txt,
) -> Result<(), AllocError>
    ensures { OnOk result (out.new.items ≡ out.old.items ++ target_text users.now sign rel.now) }
{
    append_beliefs(out, users)?;
    append_not(out, sign)?;
    out.push(b' ')?;
    out.extend_from_slice(rel.as_bytes())
}

/// Appends the users of a path, with the space before each.
fn append_beliefs(out: &mut Vec<u8>, users: &List<Txt>) -> Result<(), AllocError>
    ensures { OnOk result (out.new.items ≡ out.old.items ++ flat_map belief_text users.now) }
{
    for user in users.as_slice() {
        append_belief(out, user)?;
    }
    Ok(())
}

/// Appends a user of a path, with the space before it.
fn append_belief(out: &mut Vec<u8>, user: &Txt) -> Result<(), AllocError>
    ensures { OnOk result (out.new.items ≡ out.old.items ++ belief_text user.now) }
{
    out.extend_from_slice(b" BELIEF ")?;
    append_quoted(out, user.as_bytes())
}

/// Appends the users of a query's path, with the space before each.
fn append_whos(out: &mut Vec<u8>, path: &List<RawWho>) -> Result<(), AllocError>
    ensures { OnOk result (out.new.items ≡ out.old.items ++ flat_map who_text path.now) }
{
    for who in path.as_slice() {
        append_who(out, who)?;
    }
    Ok(())
}

/// Appends a user of a query's path, with the space before it.
fn append_who(out: &mut Vec<u8>, who: &RawWho) -> Result<(), AllocError>
    ensures { OnOk result (out.new.items ≡ out.old.items ++ who_text who.now) }
{
    match who {
        RawWho::Name(user) => append_belief(out, user),
        RawWho::Col(col) => {
            out.extend_from_slice(b" BELIEF ")?;
            col.append_to(out)
        }
    }
}

/// Appends `not` for a minus, with the space before it.
fn append_not(out: &mut Vec<u8>, sign: Sign) -> Result<(), AllocError>
    ensures { OnOk result (out.new.items ≡ out.old.items ++ not_text sign) }
{
    match sign {
        Sign::Plus => Ok(()),
        Sign::Minus => out.extend_from_slice(b" not"),
    }
}

/// Appends the conditions behind `where`; nothing where there are none.
fn append_where(out: &mut Vec<u8>, conds: &List<RawCond>) -> Result<(), AllocError>
    ensures { OnOk result (out.new.items ≡ out.old.items ++ where_text conds.now) }
{
    match conds.as_slice() {
        [] => Ok(()),
        conds => {
            out.extend_from_slice(b" where ")?;
            append_separated(out, b" and ", conds)
        }
    }
}

impl Printed for RawCol {
    ghost text = { col_text };

    fn append_to(&self, out: &mut Vec<u8>) -> Result<(), AllocError> {
        match &self.alias {
            Some(alias) => append_dotted(out, alias.as_bytes(), self.col.as_bytes()),
            None => out.extend_from_slice(self.col.as_bytes()),
        }
    }
}

impl Printed for RawSide {
    ghost text = { side_text };

    fn append_to(&self, out: &mut Vec<u8>) -> Result<(), AllocError> {
        match self {
            RawSide::Col(col) => col.append_to(out),
            RawSide::Lit(value) => append_value(out, value),
        }
    }
}

impl Printed for RawCond {
    ghost text = { cond_text };

    fn append_to(&self, out: &mut Vec<u8>) -> Result<(), AllocError> {
        self.left.append_to(out)?;
        out.push(b' ')?;
        append_cmp(out, self.cmp)?;
        out.push(b' ')?;
        self.right.append_to(out)
    }
}

impl Printed for RawSet {
    ghost text = { set_text };

    fn append_to(&self, out: &mut Vec<u8>) -> Result<(), AllocError> {
        out.extend_from_slice(self.col.as_bytes())?;
        out.extend_from_slice(b" = ")?;
        append_value(out, &self.to)
    }
}

impl Printed for RawItem {
    ghost text = { item_text };

    fn append_to(&self, out: &mut Vec<u8>) -> Result<(), AllocError> {
        append_whos(out, &self.path)?;
        append_not(out, self.sign)?;
        out.push(b' ')?;
        out.extend_from_slice(self.rel.as_bytes())?;
        out.push(b' ')?;
        out.extend_from_slice(self.alias.as_bytes())
    }
}
