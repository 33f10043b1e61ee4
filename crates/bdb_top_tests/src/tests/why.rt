// Why deep paths believe something, and long texts of questions, over the tables of a base that commands made: all users believe
// an eagle, Alice sees a crow, and Bob denies the eagle.
use crate::tests::SETUP;
use crate::tests::made::Made;
use std::alloc::Global;
use std::test::Fail;

/// The statements of the base.
const STATED: &str =
    "insert into S values('s1','eagle'); insert into BELIEF 'Bob' not S values('s1','eagle'); insert into BELIEF 'Alice' S values('s1','crow');";

/// The base.
fn stated(alloc: Global) -> Result<Made, Fail> {
    let mut made = Made::new(alloc);
    made.add(SETUP, "ok\nok\nok\n")?;
    made.add(STATED, "ok 1\nok 1\nok 1\n")?;
    Ok(made)
}

/// How many users the deepest path has.
const DEEPEST: usize = 1_024;

/// Why the deepest path doesn't believe an eagle, or that there is no crow.
const BLOCKED: &str = "no\nblocked + S('s1', 'eagle') at /'Bob' by - S('s1', 'eagle')\nok 2\n";

const NOWHERE: &str =
    "no\nnowhere - S('s1', 'crow')\nblocked + S('s1', 'eagle') at /'Bob' by - S('s1', 'eagle')\nok 3\n";

/// Why it doesn't believe an owl.
const BY_THE_EAGLE: &str = "no\nblocked + S('s1', 'owl') at / by + S('s1', 'eagle')\nok 2\n";

/// Questions at the deepest path before, while and after an owl is believed at one that is nearer to it.
fn asked_at_the_deepest(alloc: Global) -> Result<Made, Fail> {
    let no_crow = ("why ", "not S values('s1','crow');");
    let no_eagle = ("why ", "not S values('s1','eagle');");
    let mut made = stated(alloc)?;
    made.add_with_path(("why ", "S values('s1','eagle');"), DEEPEST, BLOCKED)?;
    made.add_with_path(no_crow, DEEPEST, NOWHERE)?;
    made.add_with_path(("insert into ", "S values('s1','owl');"), 16, "ok 1\n")?;
    made.add_with_path(no_crow, DEEPEST, "yes other + S('s1', 'owl') at ")?;
    made.add_times("", "/'Alice'/'Bob'", 8)?;
    made.add("", "\nok 1\n")?;
    made.add_with_path(
        no_eagle,
        DEEPEST,
        "yes stated - S('s1', 'eagle') at /'Bob'\nok 1\n",
    )?;
    made.add_with_path(("delete from ", "S;"), 16, "ok 1\n")?;
    made.add_with_path(("why ", "S values('s1','owl');"), DEEPEST, BY_THE_EAGLE)?;
    Ok(made)
}

#[test]
fn reasons_come_down_the_deepest_path(rt: HostRuntime) -> Result<(), Fail> {
    assert!(rt; asked_at_the_deepest(rt.alloc())?.is_told(rt.alloc(), 0)?);
    Ok(())
}

/// Adds a question with a text of so many bytes between two parts, and the replies to it.
fn ask_with_text(
    made: &mut Made,
    parts: (&str, &str),
    bytes: u32,
    replies: &str,
) -> Result<(), Fail> {
    let (front, back) = parts;
    made.add(front, "")?;
    made.add_times("x", "", bytes)?;
    made.add(back, replies)
}

/// Questions with the longest text, and with longer ones.
fn asked_with_long_texts(alloc: Global) -> Result<Made, Fail> {
    let of_s = ("why S values('s2','", "');");
    let mut made = stated(alloc)?;
    ask_with_text(&mut made, of_s, 255, "no\nnowhere + S('s2', '")?;
    made.add_times("", "x", 255)?;
    made.add("", "')\nok 2\n")?;
    ask_with_text(&mut made, of_s, 256, "error text\n")?;
    ask_with_text(&mut made, ("why T values('", "');"), 256, "error text\n")?;
    let of_a_user = ("why BELIEF '", "' S values('s1','eagle');");
    ask_with_text(&mut made, of_a_user, 256, "error text\n")?;
    let of_a_number = ("why S values(9223372036854775808,'", "');");
    ask_with_text(&mut made, of_a_number, 256, "error number\n")?;
    made.add("why S values('s2','\t');", "error syntax\n")?;
    ask_with_text(
        &mut made,
        ("why S values('\t','", "');"),
        256,
        "error syntax\n",
    )?;
    Ok(made)
}

#[test]
fn texts_of_questions_have_a_limit(rt: HostRuntime) -> Result<(), Fail> {
    assert!(rt; asked_with_long_texts(rt.alloc())?.is_told(rt.alloc(), 1)?);
    Ok(())
}
