// Texts of values, appended to a buffer.
ghost use Rattle.std.specs.Prelude.{◌≡◌, ◌++◌, ℕ, List, map, OnOk};
ghost use Rattle.std.specs.Fmt.{decimal};
ghost use Rattle.std.specs.List.{flat_map};
ghost use Rattle.bdb_base.specs.Texts.{cmp_text, column_text, dotted, int_text, kind_text, quoted, quoted_byte, separated, value_text};

use crate::kinds::{Cmp, ColDef, Kind, Value};
use std::alloc::AllocError;

/// What has a text of its own in commands and replies.
pub trait Printed {
    ghost text: { Self → List ℕ };

    /// Appends the text to a buffer.
    fn append_to(&self, out: &mut Vec<u8>) -> Result<(), AllocError>
        ensures { OnOk result (out.new.items ≡ out.old.items ++ text self.now) };
}

impl Printed for Value {
    ghost text = { value_text };

    fn append_to(&self, out: &mut Vec<u8>) -> Result<(), AllocError> {
        append_value(out, self)
    }
}

impl Printed for ColDef {
    ghost text = { column_text };

    fn append_to(&self, out: &mut Vec<u8>) -> Result<(), AllocError> {
        out.extend_from_slice(self.name.as_bytes())?;
        out.push(b' ')?;
        append_kind(out, self.kind)
    }
}

/// Appends the texts of items, with a separator between each two.
pub fn append_separated<X: Printed>(
    out: &mut Vec<u8>,
    between: &[u8],
    items: &[X],
) -> Result<(), AllocError>
    ensures { OnOk result
        (out.new.items ≡ out.old.items ++ separated between.now (map X.text items.now)) }
{
    match items {
        [] => Ok(()),
        [first, rest @ ..] => {
            first.append_to(out)?;
            for item in rest {
                out.extend_from_slice(between)?;
                item.append_to(out)?;
            }
            Ok(())
        }
    }
}

/// Appends a value as replies and commands write it: an integer in decimal, a text in quotes.
pub fn append_value(out: &mut Vec<u8>, value: &Value) -> Result<(), AllocError>
    ensures { OnOk result (out.new.items ≡ out.old.items ++ value_text value.now) }
{
    match value {
        Value::Int(n) => append_int(out, *n),
        Value::Text(text) => append_quoted(out, text.as_bytes()),
    }
}

/// Appends a text in quotes, each quote in it doubled.
pub fn append_quoted(out: &mut Vec<u8>, text: &[u8]) -> Result<(), AllocError>
    ensures { OnOk result (out.new.items ≡ out.old.items ++ quoted text.now) }
{
    out.push(b'\'')?;
    append_doubled(out, text)?;
    out.push(b'\'')?;
    Ok(())
}

/// Appends a text with each quote doubled.
fn append_doubled(out: &mut Vec<u8>, text: &[u8]) -> Result<(), AllocError>
    ensures { OnOk result (out.new.items ≡ out.old.items ++ flat_map quoted_byte text.now) }
{
    for byte in text {
        if *byte == b'\'' {
            out.push(b'\'')?;
        }
        out.push(*byte)?;
    }
    Ok(())
}

/// Appends an integer: its decimal digits, with a dash in front where it is negative.
pub fn append_int(out: &mut Vec<u8>, n: i64) -> Result<(), AllocError>
    ensures { OnOk result (out.new.items ≡ out.old.items ++ int_text n) }
{
    if n < 0 {
        out.push(b'-')?;
    }
    append_decimal(out, n.unsigned_abs())
}

/// Appends the decimal digits of a number.
#[tactic(auto, using(std::proofs::lemmas::Fmt::decimal_digit, std::proofs::lemmas::Fmt::decimal_step, std::proofs::lemmas::List::append_assoc))]
pub fn append_decimal(out: &mut Vec<u8>, n: u64) -> Result<(), AllocError>
    ensures { OnOk result (out.new.items ≡ out.old.items ++ decimal n) }
{
    if n < 10 {
        out.push(b'0' + n as u8)?;
        return Ok(());
    }
    append_decimal(out, n / 10)?;
    out.push(b'0' + (n % 10) as u8)?;
    Ok(())
}

/// Appends a column behind the alias of its item, with a dot between them.
pub fn append_dotted(out: &mut Vec<u8>, alias: &[u8], col: &[u8]) -> Result<(), AllocError>
    ensures { OnOk result (out.new.items ≡ out.old.items ++ dotted alias.now col.now) }
{
    out.extend_from_slice(alias)?;
    out.push(b'.')?;
    out.extend_from_slice(col)
}

/// Appends the name of a kind.
fn append_kind(out: &mut Vec<u8>, kind: Kind) -> Result<(), AllocError>
    ensures { OnOk result (out.new.items ≡ out.old.items ++ kind_text kind) }
{
    match kind {
        Kind::Int => out.extend_from_slice(b"int"),
        Kind::Text => out.extend_from_slice(b"text"),
    }
}

/// Appends the sign of a comparison.
pub fn append_cmp(out: &mut Vec<u8>, cmp: Cmp) -> Result<(), AllocError>
    ensures { OnOk result (out.new.items ≡ out.old.items ++ cmp_text cmp) }
{
    match cmp {
        Cmp::Eq => out.extend_from_slice(b"="),
        Cmp::Ne => out.extend_from_slice(b"<>"),
        Cmp::Lt => out.extend_from_slice(b"<"),
        Cmp::Le => out.extend_from_slice(b"<="),
        Cmp::Gt => out.extend_from_slice(b">"),
        Cmp::Ge => out.extend_from_slice(b">="),
    }
}
