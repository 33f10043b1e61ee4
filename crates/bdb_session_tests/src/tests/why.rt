// Certificates over three statements: all users believe an eagle, user 1, Alice, a crow, and user 2, Bob, no eagle.
ghost use Rattle.std.specs.Prelude.{◌≡◌, true};
ghost use Rattle.bdb_base.specs.Order.{statement_cmp};
ghost use Rattle.bdb_base.specs.SortedSet.{ascending};

use bdb_base::{Base, List, Sign, Stmt, Tuple, Value};
use bdb_samples::{BOB_DENIES, CROW, EAGLE, disputed, stmts_of, tuple_of};
use bdb_why::{Ground, Ruled, Why, check_why, check_why_among, says, why_among};
use std::alloc::{AllocError, Global};
use std::test::Fail;

/// A case: a path, a sign and a bird of which is asked; whether it is believed, and the text of the certificate.
type Case<'a> = (&'a [u32], Sign, &'a str, bool, &'a str);

#[test]
fn certificates(rt: HostRuntime) -> Result<(), Fail> {
    let alloc = rt.alloc();
    let stmts = stmts_of(alloc, &[EAGLE, CROW, BOB_DENIES])?;
    let base = disputed(alloc)?;
    let cases: [Case; 5] = [
        (&[1], Sign::Minus, "eagle", true, "crow found 0 "),
        (&[1, 2], Sign::Plus, "eagle", false, "blocked 1 "),
        (&[2], Sign::Minus, "crow", false, "nowhere eagle blocked 0 "),
        (&[2, 1], Sign::Plus, "crow", true, "found 1 "),
        (&[3, 1, 2], Sign::Minus, "eagle", true, "found 2 "),
    ];
    for case in cases {
        assert!(rt; is_certified(alloc, stmts.as_slice(), &base, case)?);
    }
    Ok(())
}

/// Whether the certificate of a case is told so, says so and is accepted, and is refused with its levels raised.
fn is_certified(
    alloc: Global,
    stmts: &[Stmt],
    base: &Base,
    case: Case<'_>,
) -> Result<bool, AllocError>
    requires { ascending statement_cmp stmts.now ≡ true }
{
    let (path, sign, bird, yes, want) = case;
    let t = tuple_of(alloc, "s1", bird)?;
    let y = why_at(alloc, stmts, path, &t, sign)?;
    let told = is_told(alloc, &y, want)?;
    let said = says(&y) == yes;
    let right = is_accepted(stmts, path, &t, sign, &y) & is_right(base, path, &t, sign, &y);
    let deeper = raised(alloc, y)?;
    let refused = !is_accepted(stmts, path, &t, sign, &deeper)
        & !is_right(base, path, &t, sign, &deeper);
    Ok(told & said & right & refused)
}

/// Whether a certificate is told so.
fn is_told(alloc: Global, y: &Why, want: &str) -> Result<bool, AllocError> {
    let text = text_of(alloc, y)?;
    Ok(text.as_str() == want)
}

#[test]
fn nothing_stands(rt: HostRuntime) -> Result<(), Fail> {
    let alloc = rt.alloc();
    let base = Base::empty(alloc);
    let t = tuple_of(alloc, "s1", "eagle")?;
    let y = Why::Absent {
        own: Ground::Nowhere,
        others: List::new(alloc),
    };
    assert!(rt; check_why(&base, &[], &t, Sign::Minus, &y));
    let found = Why::Stated {
        reason: Ground::Found { level: 0 },
    };
    assert!(rt; !check_why(&base, &[], &t, Sign::Minus, &found));
    Ok(())
}

/// The certificate at a path of few users.
fn why_at(
    alloc: Global,
    stmts: &[Stmt],
    path: &[u32],
    t: &Tuple,
    s: Sign,
) -> Result<Why, AllocError>
    requires { ascending statement_cmp stmts.now ≡ true }
{
    if path.len() > 8 {
        return Err(AllocError);
    }
    let y = why_among(alloc, 1, stmts, path, t, s)?;
    Ok(y)
}

fn is_accepted(stmts: &[Stmt], path: &[u32], t: &Tuple, s: Sign, y: &Why) -> bool
    requires { ascending statement_cmp stmts.now ≡ true }
{
    if path.len() > 8 {
        return false;
    }
    check_why_among(1, stmts, path, t, s, y)
}

/// Whether a certificate is that of a base, at a path of few users.
fn is_right(base: &Base, path: &[u32], t: &Tuple, s: Sign, y: &Why) -> bool {
    if path.len() > 8 {
        return false;
    }
    check_why(base, path, t, s, y)
}

/// A certificate with each level raised by one.
fn raised(alloc: Global, y: Why) -> Result<Why, AllocError> {
    match y {
        Why::Stated { reason } => Ok(Why::Stated {
            reason: deeper(reason),
        }),
        Why::Other { found } => Ok(Why::Other {
            found: Ruled {
                tuple: found.tuple,
                reason: deeper(found.reason),
            },
        }),
        Why::Absent { own, others } => {
            let mut list = List::new(alloc);
            for r in others.into_vec() {
                list.push(Ruled {
                    tuple: r.tuple,
                    reason: deeper(r.reason),
                })?;
            }
            Ok(Why::Absent {
                own: deeper(own),
                others: list,
            })
        }
    }
}

fn deeper(reason: Ground) -> Ground {
    match reason {
        Ground::Found { level } => Ground::Found {
            level: level.saturating_add(1),
        },
        Ground::Blocked { level, by } => Ground::Blocked {
            level: level.saturating_add(1),
            by,
        },
        Ground::Nowhere => Ground::Nowhere,
    }
}

fn text_of(alloc: Global, y: &Why) -> Result<String, AllocError> {
    let mut text = String::new(alloc);
    match y {
        Why::Stated { reason } => push_ground(&mut text, reason)?,
        Why::Other { found } => push_ruled(&mut text, found)?,
        Why::Absent { own, others } => {
            push_ground(&mut text, own)?;
            for r in others.as_slice() {
                push_ruled(&mut text, r)?;
            }
        }
    }
    Ok(text)
}

fn push_ruled(text: &mut String, r: &Ruled) -> Result<(), AllocError> {
    if let [_, Value::Text(bird)] = r.tuple.vals.as_slice() {
        text.push_str(bird.as_str())?;
        text.push_str(" ")?;
    }
    push_ground(text, &r.reason)?;
    Ok(())
}

fn push_ground(text: &mut String, reason: &Ground) -> Result<(), AllocError> {
    match reason {
        Ground::Found { level } => {
            text.push_str("found ")?;
            push_level(text, *level)?;
        }
        Ground::Blocked { level, .. } => {
            text.push_str("blocked ")?;
            push_level(text, *level)?;
        }
        Ground::Nowhere => text.push_str("nowhere ")?,
    }
    Ok(())
}

fn push_level(text: &mut String, level: u32) -> Result<(), AllocError> {
    text.push_str(match level {
        0 => "0 ",
        1 => "1 ",
        2 => "2 ",
        _ => "deep ",
    })?;
    Ok(())
}
