// The suffix links of all states.
ghost use Rattle.std.specs.Prelude.{◌≡◌, ◌++◌, ◌∷◌, [], ◌≤◌, true, IfOk, OnOk, length, drop, filter, map};
ghost use Rattle.std.specs.List.Sorted.{IsNonDecreasingBy};
ghost use Rattle.bdb_keep.specs.Calls.{IsRead};
ghost use Rattle.bdb_key.specs.Reading.{Reads};
ghost use Rattle.bdb_tables.specs.Codec.{IsKeyOf};
ghost use Rattle.bdb_tables.specs.Grammar.{InGrammar};
ghost use Rattle.bdb_tables.specs.InUse.{linked_codec};
ghost use Rattle.bdb_tables.specs.Spans.{AreEntriesOf};
ghost use Rattle.bdb_val.specs.Visits.{AreAllLinks, PushesRead, leads_to, led_to, turned_round};

use bdb_keep::{Keeper, Span};
use bdb_key::KeyError;
use bdb_tables::{SuffixIx, Tab, TabError, rows_under};
use std::alloc::{AllocError, Global};

/// A suffix link turned round: the state to which it leads, and the one that has it.
pub type Link = ((u32, u32), ());

/// The suffix links of all states, in order; none where they were not read.
#[derive(Drop)]
pub struct Links {
    pub are_all: bool,
    pub list: Vec<Link>,
    /// Where the links to a state of each number begin, or would. No clause tells that: it is looked at again where it is used.
    pub starts: Vec<usize>,
}

/// Reads all links for a walk that begins at the root, since it comes to all states. For another walk nothing is read.
pub fn read_links<K: Keeper>(alloc: Global, keeper: &mut K, wid: u32) -> Result<Links, TabError>
    requires running { (K.seen keeper.old).running ≡ true }
    requires grammar { InGrammar (K.seen keeper.old).kept }
    ensures links { IfOk result
        (λ links. AreAllLinks (K.seen keeper.old).kept links.are_all links.list.items) }
    ensures read { IsRead (K.seen keeper.old) (K.seen keeper.new) result TabError.Fault }
{
    if wid != 0 {
        return Ok(Links {
            are_all: false,
            list: Vec::new(alloc),
            starts: Vec::new(alloc),
        });
    }
    let prefix = Vec::new(alloc);
    let list = match rows_under::<SuffixIx, K>(alloc, keeper, &prefix) {
        Ok(list) => list,
        Err(error) => return Err(error),
    };
    match starts_of(alloc, &list) {
        Ok(starts) => Ok(Links {
            are_all: true,
            list,
            starts,
        }),
        Err(_) => {
            keeper.undo();
            Err(TabError::Memory)
        }
    }
}

// Where the links to a state of each number begin, or would, as long as the numbers aren't much higher than there are links.
fn starts_of(alloc: Global, links: &[Link]) -> Result<Vec<usize>, AllocError> {
    let most = links.len().saturating_mul(4);
    let mut starts = Vec::with_capacity(alloc, links.len())?;
    for (at, link) in links.iter().enumerate() {
        let end = (link.0.0 as usize).saturating_add(1);
        start_at(&mut starts, end.min(most), at)?;
    }
    Ok(starts)
}

// Puts a place on the list until it has as many as `end`.
fn start_at(starts: &mut Vec<usize>, end: usize, at: usize) -> Result<(), AllocError> {
    for _ in starts.len()..end {
        starts.push(at)?;
    }
    Ok(())
}

/// Whether it is seen at once that no link leads to a state, as is so of most states.
pub fn leads_none(links: &Links, wid: u32) -> bool
    requires { IsNonDecreasingBy led_to links.now.list.items }
    ensures { result ≡ true → filter (leads_to wid) links.now.list.items ≡ [] }
{
    let near = start_near(&links.starts, wid, links.list.len());
    let links = links.list.as_slice();
    if near > links.len() {
        return false;
    }
    if !is_behind(links, wid, near) {
        return false;
    }
    is_past(&links[near..], wid)
}

/// Puts the links that lead to a state on the list, each by the state that has it and the one to which it leads.
pub fn push_found(links: &Links, wid: u32, list: &mut Vec<(u32, u32)>) -> Result<(), AllocError>
    requires { IsNonDecreasingBy led_to links.now.list.items }
    ensures { OnOk result
        (list.new.items ≡ list.old.items ++ map turned_round
        (filter (leads_to wid) links.now.list.items)) }
{
    let near = start_near(&links.starts, wid, links.list.len());
    let links = links.list.as_slice();
    let start = first_from(links, wid, near);
    push_first(&links[start..], wid, list)?;
    Ok(())
}

// Whether the first link, if there is one, leads to a state of a higher number.
fn is_past(links: &[Link], wid: u32) -> bool
    requires { IsNonDecreasingBy led_to links.now }
    ensures { result ≡ true → filter (leads_to wid) links.now ≡ [] }
{
    if links.len() == 0 {
        return true;
    }
    links[0].0.0 > wid
}

// Where the links to a state may begin.
fn start_near(starts: &[usize], wid: u32, end: usize) -> usize {
    match starts.get(wid as usize) {
        Some(start) => *start,
        None => end,
    }
}

// A place before which no link leads to a state of this number, and from which on none leads to one of a lower number, if that is so
// of `near`. Else it is the place of the first link that leads to one of this number or a higher one.
fn first_from(links: &[Link], wid: u32, near: usize) -> usize
    requires { IsNonDecreasingBy led_to links.now }
    ensures within { result ≤ length links.now }
    ensures skipped { filter (leads_to wid) links.now ≡ filter (leads_to wid)
        (drop result links.now) }
{
    if near <= links.len() {
        if is_behind(links, wid, near) {
            return near;
        }
    }
    links.partition_point(|link| link.0.0 < wid)
}

// Whether the link before a place, if there is one, leads to a state of a lower number.
fn is_behind(links: &[Link], wid: u32, near: usize) -> bool
    requires sorted { IsNonDecreasingBy led_to links.now }
    requires within { near ≤ length links.now }
    ensures { result ≡ true → filter (leads_to wid) links.now
        ≡ filter (leads_to wid) (drop near links.now) }
{
    if near == 0 {
        return true;
    }
    links[near - 1].0.0 < wid
}

// Puts the links that lead to a state on the list, up to the first that leads to one of a higher number.
fn push_first(links: &[Link], wid: u32, list: &mut Vec<(u32, u32)>) -> Result<(), AllocError>
    requires { IsNonDecreasingBy led_to links.now }
    ensures { OnOk result
        (list.new.items ≡ list.old.items ++ map turned_round (filter (leads_to wid) links.now)) }
{
    for link in links {
        if link.0.0 > wid {
            return Ok(());
        }
        push_if(link, wid, list)?;
    }
    Ok(())
}

// Puts a link on the list, if it leads to a state.
fn push_if(link: &Link, wid: u32, list: &mut Vec<(u32, u32)>) -> Result<(), AllocError>
    ensures { OnOk result
        (list.new.items ≡ list.old.items ++ map turned_round
        (filter (leads_to wid) (link.now ∷ []))) }
{
    if link.0.0 != wid {
        return Ok(());
    }
    list.push((link.0.1, link.0.0))?;
    Ok(())
}

/// Puts links that were read on the list, each by the state that has it and the one to which it leads.
pub fn push_read(alloc: Global, span: &Span, list: &mut Vec<(u32, u32)>) -> Result<(), AllocError>
    requires { AreEntriesOf linked_codec span.now }
    ensures { OnOk result (PushesRead span.now list.old.items list.new.items) }
{
    for index in 0..span.len() {
        let (key, _) = span.entry(index);
        let link = link_from(alloc, key)?;
        list.push((link.1, link.0))?;
    }
    Ok(())
}

// The state to which a link leads, and the one that has it, by the bytes of its key.
fn link_from(alloc: Global, key: &[u8]) -> Result<(u32, u32), AllocError>
    requires { IsKeyOf linked_codec key.now }
    ensures { IfOk result (Reads linked_codec.IsKey linked_codec.key_bytes key.now) }
{
    match SuffixIx::key_back(alloc, key) {
        Ok(link) => Ok(link),
        Err(KeyError::Memory) => Err(AllocError),
        Err(KeyError::NotAKey) => unreachable!(),
    }
}
