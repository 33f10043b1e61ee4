// Worked keys and rows, both ways.
ghost use Rattle.std.specs.Prelude.{length, IfOk};
ghost use Rattle.bdb_key.specs.Grammar.{IsNum};

use bdb_base::{Exact, Kind, List, Path, RelDef, Sign, Tuple, Txt, UserSlot, Value};
use bdb_key::{KeyError, Part, RowError, Slot, TabRow, put_key, put_row, take_key, take_row};
use std::alloc::{AllocError, Global};
use std::test::Fail;

/// The parts of a key in one line: numbers, integers, texts, lists of values and paths with a letter before them.
fn shown(alloc: Global, bytes: &[u8], shape: &[Slot]) -> Result<String, AllocError> {
    let mut line = String::new(alloc);
    match take_key(alloc, bytes, shape) {
        Ok(parts) => {
            for part in parts.as_slice() {
                push_part(alloc, &mut line, part)?;
            }
        }
        Err(KeyError::NotAKey) => line.push_str("none")?,
        Err(KeyError::Memory) => line.push_str("memory")?,
    }
    Ok(line)
}

fn push_part(alloc: Global, line: &mut String, part: &Part) -> Result<(), AllocError> {
    let text = match part {
        Part::Num(n) => format!(in alloc; "n:{n} ")?,
        Part::Val(value) => value_words(alloc, value)?,
        Part::Vals(values) => list_words(alloc, values.as_slice())?,
        Part::Path(path) => {
            let len = path.len();
            format!(in alloc; "p:{len} ")?
        }
    };
    line.push_str(text.as_str())
}

fn value_words(alloc: Global, value: &Value) -> Result<String, AllocError> {
    match value {
        Value::Int(n) => format!(in alloc; "i:{n} "),
        Value::Text(text) => {
            let text = text.as_str();
            format!(in alloc; "t:{text} ")
        }
    }
}

fn list_words(alloc: Global, values: &[Value]) -> Result<String, AllocError> {
    let len = values.len();
    let mut line = format!(in alloc; "v:{len} ")?;
    for value in values {
        let words = value_words(alloc, value)?;
        line.push_str(words.as_str())?;
    }
    Ok(line)
}

#[test]
fn reads_worked_keys(rt: HostRuntime) -> Result<(), Fail> {
    let vals: [Slot; 4] = [Slot::Num, Slot::Num, Slot::Val, Slot::Num];
    let cases: [(&[u8], &[Slot], &str); 17] = [
        (b"\x01\x80\0\0\0\0\0\0\x01", &[Slot::Val], "i:1 "),
        (
            b"\x01\x7f\xff\xff\xff\xff\xff\xff\xff",
            &[Slot::Val],
            "i:-1 ",
        ),
        (b"\x02s1\0", &[Slot::Val], "t:s1 "),
        (
            b"\0\0\0\0\0\0\0\0\x02s1\0\0\0\0\0",
            &vals,
            "n:0 n:0 t:s1 n:0 ",
        ),
        (b"\0\0\0\x01\x02s1\0", &[Slot::Vals], "v:1 t:s1 "),
        (b"\0\0\0\0", &[Slot::Vals], "v:0 "),
        (
            b"\0\0\0\x02\x02a\0\x02b\0\0\0\0\x07",
            &[Slot::Vals, Slot::Num],
            "v:2 t:a t:b n:7 ",
        ),
        (b"\0\0\0\x02\x02a\0", &[Slot::Vals], "none"),
        (b"\0\0\0\0\x02a\0", &[Slot::Vals], "none"),
        (b"\x02a\0\x02b\0", &[Slot::Rest], "t:a t:b "),
        (b"", &[Slot::Rest], ""),
        (b"\0\0\0\x02\0\0\0\x03\0\0\0\x01", &[Slot::Path], "p:2 "),
        (b"\0\0\0\x02\0\0\0\x03\0\0\0\x03", &[Slot::Path], "none"),
        (b"\x02s1", &[Slot::Val], "none"),
        (b"\x02s\x1f\0", &[Slot::Val], "none"),
        (b"\0\0\0\x01\0", &[Slot::Num], "none"),
        (b"\x02\xff\0", &[Slot::Val], "none"),
    ];
    for (bytes, shape, want) in cases {
        let line = shown(rt.alloc(), bytes, shape)?;
        assert_eq!(rt; line.as_str(), want);
    }
    Ok(())
}

#[test]
fn writes_worked_keys(rt: HostRuntime) -> Result<(), Fail> {
    let alloc = rt.alloc();
    let mut out = Vec::new(alloc);
    let text = Txt::try_new(alloc, "s1")?;
    put_key(
        &mut out,
        &[
            Part::Num(0),
            Part::Num(0),
            Part::Val(Value::Text(text)),
            Part::Num(0),
        ],
    )?;
    let want: &[u8] = b"\0\0\0\0\0\0\0\0\x02s1\0\0\0\0\0";
    assert_eq!(rt; out.as_slice(), want);
    out.clear();
    put_key(
        &mut out,
        &[Part::Val(Value::Int(1)), Part::Val(Value::Int(-1))],
    )?;
    let want: &[u8] = b"\x01\x80\0\0\0\0\0\0\x01\x01\x7f\xff\xff\xff\xff\xff\xff\xff";
    assert_eq!(rt; out.as_slice(), want);
    Ok(())
}

/// A list of the values 's1' and 1.
fn text_and_number(alloc: Global) -> Result<List<Value>, AllocError>
    ensures { IfOk result (λ values. IsNum (length values)) }
{
    let mut values = List::new(alloc);
    values.push(Value::Text(Txt::try_new(alloc, "s1")?))?;
    values.push(Value::Int(1))?;
    Ok(values)
}

#[test]
fn writes_and_copies_lists_of_values(rt: HostRuntime) -> Result<(), Fail> {
    let alloc = rt.alloc();
    let mut out = Vec::new(alloc);
    let none = Part::Vals(List::new(alloc));
    let two = Part::Vals(text_and_number(alloc)?).try_clone(alloc)?;
    put_key(&mut out, &[none, two, Part::Num(7)])?;
    let want: &[u8] = b"\0\0\0\0\0\0\0\x02\x02s1\0\x01\x80\0\0\0\0\0\0\x01\0\0\0\x07";
    assert_eq!(rt; out.as_slice(), want);
    Ok(())
}

/// A table's row in one line.
fn row_line(alloc: Global, row: &TabRow) -> Result<String, AllocError> {
    match row {
        TabRow::Meta(n) => format!(in alloc; "meta {n}"),
        TabRow::User(slot) => slot_line(alloc, slot),
        TabRow::Rel(def) => rel_line(alloc, def),
        TabRow::Tuple(tuple) => tuple_line(alloc, tuple),
        TabRow::Tid(n) => format!(in alloc; "tid {n}"),
        TabRow::Depth(n) => format!(in alloc; "depth {n}"),
        TabRow::Link(n) => format!(in alloc; "link {n}"),
        TabRow::Empty => format!(in alloc; "empty"),
        TabRow::Val { sign, explicit } => {
            let sign = sign_word(*sign);
            let mark = if *explicit { "explicit" } else { "inherited" };
            format!(in alloc; "{sign} {mark}")
        }
        TabRow::Plain(sign) => {
            let sign = sign_word(*sign);
            format!(in alloc; "{sign}")
        }
    }
}

fn slot_line(alloc: Global, slot: &UserSlot) -> Result<String, AllocError> {
    match slot {
        UserSlot::Live(name) => {
            let name = name.as_str();
            format!(in alloc; "user {name}")
        }
        UserSlot::Gone => format!(in alloc; "gone"),
    }
}

fn sign_word(sign: Sign) -> &'static str {
    match sign {
        Sign::Plus => "plus",
        Sign::Minus => "minus",
    }
}

fn rel_line(alloc: Global, def: &RelDef) -> Result<String, AllocError> {
    let mut line = String::new(alloc);
    line.push_str("rel ")?;
    line.push_str(def.name.as_str())?;
    let key = def.key;
    line.push_str(format!(in alloc; " key {key}")?.as_str())?;
    for col in def.cols.as_slice() {
        let kind = match col.kind {
            Kind::Int => " int ",
            Kind::Text => " text ",
        };
        line.push_str(kind)?;
        line.push_str(col.name.as_str())?;
    }
    Ok(line)
}

fn tuple_line(alloc: Global, tuple: &Tuple) -> Result<String, AllocError> {
    let rel = tuple.rel;
    let mut line = format!(in alloc; "tuple {rel} ")?;
    for value in tuple.vals.as_slice() {
        let words = value_words(alloc, value)?;
        line.push_str(words.as_str())?;
    }
    Ok(line)
}

/// The row that these bytes are, in one line. The row's own bytes are appended.
fn read_and_written(
    alloc: Global,
    tab: u8,
    bytes: &[u8],
    out: &mut Vec<u8>,
) -> Result<String, AllocError> {
    if tab < 1 || tab > 12 {
        return format!(in alloc; "no table");
    }
    match take_row(alloc, tab, bytes) {
        Ok(row) => {
            put_row(out, &row)?;
            row_line(alloc, &row)
        }
        Err(RowError::NotARow) => format!(in alloc; "none"),
        Err(RowError::Memory) => format!(in alloc; "memory"),
    }
}

#[test]
fn reads_and_writes_worked_rows(rt: HostRuntime) -> Result<(), Fail> {
    let alloc = rt.alloc();
    let cases: [(u8, &[u8], &str); 19] = [
        (1, b"\0\0\0\x03", "meta 3"),
        (2, b"\x02s1\0", "user s1"),
        // a name of no characters, and no name
        (2, b"\x02\0", "user "),
        (2, b"", "gone"),
        (
            3,
            b"\x02s1\0\x01\x80\0\0\0\0\0\0\x01\x02a\0\x01\x80\0\0\0\0\0\0\x01\x02b\0\x01\x80\0\0\0\0\0\0\0",
            "rel s1 key 1 text a int b",
        ),
        (
            3,
            b"\x02s1\0\x01\x80\0\0\0\0\0\0\x02\x02a\0\x01\x80\0\0\0\0\0\0\x01\x02b\0\x01\x80\0\0\0\0\0\0\0",
            "rel s1 key 2 text a int b",
        ),
        (
            4,
            b"\0\0\0\x07\x02s1\0\x01\x7f\xff\xff\xff\xff\xff\xff\xff",
            "tuple 7 t:s1 i:-1 ",
        ),
        (5, b"\0\0\x01\0", "tid 256"),
        (6, b"\0\0\0\x10", "depth 16"),
        (7, b"\0\0\x07\xcf", "link 1999"),
        (8, b"", "empty"),
        (9, b"\0\0\0\0", "link 0"),
        (10, b"", "empty"),
        (11, b"\0\0\0\0", "plus inherited"),
        (11, b"\0\0\0\x01", "plus explicit"),
        (11, b"\0\0\0\x02", "minus inherited"),
        (11, b"\0\0\0\x03", "minus explicit"),
        (12, b"\0\0\0\0", "plus"),
        (12, b"\0\0\0\x01", "minus"),
    ];
    for (tab, bytes, want) in cases {
        let mut out = Vec::new(alloc);
        let line = read_and_written(alloc, tab, bytes, &mut out)?;
        assert_eq!(rt; line.as_str(), want);
        assert_eq!(rt; out.as_slice(), bytes);
    }
    Ok(())
}

#[test]
fn refuses_what_is_no_row(rt: HostRuntime) -> Result<(), Fail> {
    let alloc = rt.alloc();
    let cases: [(u8, &[u8]); 20] = [
        (1, b"\0\0\0"),
        (1, b"\0\0\0\x01\0"),
        // a name that is an integer, and no mark of a text
        (2, b"\x01\x80\0\0\0\0\0\0\x01"),
        (2, b"\0"),
        (
            3,
            b"\x01\x80\0\0\0\0\0\0\x01\x01\x80\0\0\0\0\0\0\x01\x02a\0\x01\x80\0\0\0\0\0\0\0",
        ),
        // no length of the key, no column, no kind, a kind that is none
        (3, b"\x02s1\0"),
        (3, b"\x02s1\0\x02a\0\x01\x80\0\0\0\0\0\0\x01"),
        (3, b"\x02s1\0\x01\x80\0\0\0\0\0\0\x01"),
        (3, b"\x02s1\0\x01\x80\0\0\0\0\0\0\x01\x02a\0"),
        (
            3,
            b"\x02s1\0\x01\x80\0\0\0\0\0\0\x01\x02a\0\x01\x80\0\0\0\0\0\0\x02",
        ),
        // keys of none of one column, of two, and of less than none
        (
            3,
            b"\x02s1\0\x01\x80\0\0\0\0\0\0\0\x02a\0\x01\x80\0\0\0\0\0\0\x01",
        ),
        (
            3,
            b"\x02s1\0\x01\x80\0\0\0\0\0\0\x02\x02a\0\x01\x80\0\0\0\0\0\0\x01",
        ),
        (
            3,
            b"\x02s1\0\x01\x7f\xff\xff\xff\xff\xff\xff\xff\x02a\0\x01\x80\0\0\0\0\0\0\x01",
        ),
        // no value
        (4, b"\0\0\0\x07"),
        (5, b"\0\0\x01"),
        (7, b""),
        (8, b"\0\0\0\0"),
        (10, b"\0"),
        // no sign and mark, no sign
        (11, b"\0\0\0\x04"),
        (12, b"\0\0\0\x02"),
    ];
    for (tab, bytes) in cases {
        let mut out = Vec::new(alloc);
        let line = read_and_written(alloc, tab, bytes, &mut out)?;
        assert_eq!(rt; line.as_str(), "none");
    }
    Ok(())
}

#[test]
fn copies_parts(rt: HostRuntime) -> Result<(), Fail> {
    let alloc = rt.alloc();
    let text = Txt::try_new(alloc, "s1")?;
    let path = Path::try_new(alloc, &[3, 1])?;
    let number = Part::Num(7).try_clone(alloc)?;
    let text = Part::Val(Value::Text(text)).try_clone(alloc)?;
    let path = Part::Path(path).try_clone(alloc)?;
    let mut out = Vec::new(alloc);
    put_key(&mut out, &[number, text, path])?;
    let want: &[u8] = b"\0\0\0\x07\x02s1\0\0\0\0\x02\0\0\0\x03\0\0\0\x01";
    assert_eq!(rt; out.as_slice(), want);
    Ok(())
}
