// What worked bases are made of.
ghost use Rattle.std.specs.Prelude.{◌≡◌, [], ◌∷◌, IfOk};
ghost use Rattle.bdb_base.specs.declared.kinds.UserSlot.TheVariants.{Live};
ghost use Rattle.bdb_base.specs.declared.kinds.Value.TheVariants.{Text};
ghost use Rattle.bdb_canon.specs.Samples.{sightings, stated_at};

use bdb_base::{ColDef, Kind, List, Path, RelDef, Sign, Stmt, Tuple, Txt, UserSlot, Value};
use std::alloc::{AllocError, Global};
use std::test::Fail;

/// The relation S, with a key k and a value v.
pub fn sightings(alloc: Global) -> Result<RelDef, AllocError>
    ensures { IfOk result (λ def. def ≡ sightings) }
{
    let mut cols = List::new(alloc);
    let name = Txt::try_new(alloc, "k")?;
    let kind = Kind::Text;
    cols.push(ColDef { name, kind })?;
    let name = Txt::try_new(alloc, "v")?;
    cols.push(ColDef { name, kind })?;
    let name = Txt::try_new(alloc, "S")?;
    let key = 1;
    Ok(RelDef { name, cols, key })
}

/// A live user of a name.
pub fn live(alloc: Global, name: &str) -> Result<UserSlot, AllocError>
    ensures { IfOk result (λ user. user ≡ Live name.now) }
{
    let name = Txt::try_new(alloc, name)?;
    Ok(UserSlot::Live(name))
}

/// A tuple of S.
pub fn tuple_of(alloc: Global, key: &str, value: &str) -> Result<Tuple, AllocError>
    ensures { IfOk result
        (λ t. t ≡ record { rel = 0; vals = Text key.now ∷ Text value.now ∷ [] }) }
{
    let mut vals = List::new(alloc);
    let key = Txt::try_new(alloc, key)?;
    vals.push(Value::Text(key))?;
    let value = Txt::try_new(alloc, value)?;
    vals.push(Value::Text(value))?;
    Ok(Tuple { rel: 0, vals })
}

/// What the path of these users states of a tuple of S.
pub fn statement(
    alloc: Global,
    users: &[u32],
    sign: Sign,
    key: &str,
    value: &str,
) -> Result<Stmt, Fail>
    ensures { IfOk result (λ s. s ≡ stated_at users.now sign key.now value.now) }
{
    let path = Path::try_new(alloc, users)?;
    let tuple = tuple_of(alloc, key, value)?;
    Ok(Stmt { path, sign, tuple })
}
