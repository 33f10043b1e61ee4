// The replies of worked certificates: all users believe an eagle, Alice a crow, and Bob no eagle.
use bdb_base::{Catalog, List, Sign, Tuple};
use bdb_reasons::why_reply;
use bdb_samples::{catalog, live, statement, tuple_of};
use bdb_why::{Ground, Ruled, Why};
use std::alloc::{AllocError, Global};
use std::test::Fail;

/// The relation S, with a key k and a value v, and the users Alice and Bob.
fn curators(alloc: Global) -> Result<Catalog, AllocError> {
    let alice = live(alloc, "Alice")?;
    let bob = live(alloc, "Bob")?;
    let users = List::from_vec(vec![in alloc; alice, bob]?);
    catalog(alloc, users)
}

/// A tuple of S with the key s1.
fn sighting(alloc: Global, species: &str) -> Result<Tuple, AllocError> {
    tuple_of(alloc, "s1", species)
}

/// Blocked at a level, by Bob's denial of the eagle.
fn denied(alloc: Global, level: u32) -> Result<Ground, Fail> {
    let by = statement(alloc, &[2], Sign::Minus, "s1", "eagle")?;
    Ok(Ground::Blocked { level, by })
}

/// The reply to the question whether a path believes a tuple with a sign, with this certificate.
fn reply(
    alloc: Global,
    path: &[u32],
    species: &str,
    sign: Sign,
    why: Why,
) -> Result<List<u8>, AllocError> {
    let catalog = curators(alloc)?;
    let tuple = sighting(alloc, species)?;
    let reply = why_reply(alloc, &catalog, path, &tuple, sign, &why)?;
    Ok(reply)
}

/// Another tuple is believed there.
fn other(alloc: Global) -> Result<Why, AllocError> {
    let tuple = sighting(alloc, "crow")?;
    let reason = Ground::Found { level: 0 };
    let found = Ruled { tuple, reason };
    Ok(Why::Other { found })
}

/// Nothing states the tuple, and the eagle is denied.
fn nowhere(alloc: Global) -> Result<Why, Fail> {
    let tuple = sighting(alloc, "eagle")?;
    let reason = denied(alloc, 0)?;
    let others = List::from_vec(vec![in alloc; Ruled { tuple, reason }]?);
    let own = Ground::Nowhere;
    Ok(Why::Absent { own, others })
}

#[test]
fn stated(rt: HostRuntime) -> Result<(), Fail> {
    let reason = Ground::Found { level: 2 };
    let why = Why::Stated { reason };
    let reply = reply(rt.alloc(), &[2, 1], "eagle", Sign::Plus, why)?;
    let want = "yes stated + S('s1', 'eagle') at /\nok 1\n";
    assert_eq!(rt; reply.as_slice(), want.as_bytes());
    Ok(())
}

#[test]
fn another_is_believed(rt: HostRuntime) -> Result<(), Fail> {
    let why = other(rt.alloc())?;
    let reply = reply(rt.alloc(), &[1], "eagle", Sign::Minus, why)?;
    let want = "yes other + S('s1', 'crow') at /'Alice'\nok 1\n";
    assert_eq!(rt; reply.as_slice(), want.as_bytes());
    Ok(())
}

#[test]
fn blocked(rt: HostRuntime) -> Result<(), Fail> {
    let own = denied(rt.alloc(), 1)?;
    let others = List::new(rt.alloc());
    let why = Why::Absent { own, others };
    let reply = reply(rt.alloc(), &[1, 2], "eagle", Sign::Plus, why)?;
    let want = "no\nblocked + S('s1', 'eagle') at /'Bob' by - S('s1', 'eagle')\nok 2\n";
    assert_eq!(rt; reply.as_slice(), want.as_bytes());
    Ok(())
}

#[test]
fn nowhere_stated(rt: HostRuntime) -> Result<(), Fail> {
    let why = nowhere(rt.alloc())?;
    let reply = reply(rt.alloc(), &[2], "crow", Sign::Minus, why)?;
    let want =
        "no\nnowhere - S('s1', 'crow')\nblocked + S('s1', 'eagle') at /'Bob' by - S('s1', 'eagle')\nok 3\n";
    assert_eq!(rt; reply.as_slice(), want.as_bytes());
    Ok(())
}
