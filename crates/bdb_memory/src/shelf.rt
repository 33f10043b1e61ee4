// A shelf of sorted blocks.
ghost use Rattle.std.specs.Prelude.{◌≡◌, ◌∷◌, ◌++◌, [], Some, None, IfOk, IfErr, IfSome, IfNone, OnSome, OnOk, OnErr, not, false};
ghost use Rattle.std.specs.Option.{option_copied};
ghost use Rattle.bdb_memory.specs.Entries.{place_at, row_of};
ghost use Rattle.bdb_memory.specs.Blocks.{joined, starts_within, without_empty, has_any, AreSorted, IsBoundary};
ghost use Rattle.bdb_memory.specs.Under.{entries_under, HasPast};
ghost use Rattle.bdb_memory.specs.Shelves.{IsChangedAt, NoRowFrom, IsFirstRow, IsCutInTwo, BelongsAmong};

use crate::behind::{find_right_behind, stands_behind};
use crate::block::Block;
use crate::blocks::{add, drop_empty_blocks, drop_empty_places, is_behind, replace_at, take_out};
use crate::entry::Entry;
use crate::finding::{Spot, entry_of, find, find_beside, find_near, find_row, row_from, seek};
use crate::opening::Opening;
use crate::row::Row;
use crate::under::take_blocks;
use crate::words::Probe;
use bdb_keep::Span;
use std::alloc::{AllocError, Global};
use std::marker::Model;

/// Entries in the order of their places, in blocks.
#[derive(Drop)]
pub struct Shelf {
    blocks: Vec<Block>,
}

impl Model for Shelf {
    ghost use Rattle.bdb_memory.specs.Entries.{Entries};
    ghost use Rattle.bdb_memory.specs.Blocks.{joined, AreSorted};

    ghost Value = { Entries };

    ghost view = { λ s. joined s.blocks.items };

    ghost invariant = { λ s. AreSorted s.blocks.items };
}

impl Shelf {
    /// A shelf of one place with its row.
    pub fn of(alloc: Global, probe: &Probe<'_>, row: &[u8]) -> Result<Self, AllocError>
        ensures { IfOk result (λ shelf. shelf ≡ (probe.now, Some row.now) ∷ []) }
    {
        let mut blocks = Vec::new(alloc);
        add(alloc, &mut blocks, (0, 0), false, probe, row)?;
        Ok(Shelf { blocks })
    }

    /// How many blocks there are.
    #[inline(always)]
    pub fn block_count(&self) -> usize {
        self.blocks.len()
    }

    /// The blocks.
    #[inline(always)]
    pub fn blocks(&self) -> &[Block]
        ensures { joined result.now ≡ self.now }
    {
        self.blocks.as_slice()
    }

    /// Whether there is no place.
    pub fn is_empty(&self) -> bool
        ensures { result ≡ not (has_any self.now) }
    {
        self.blocks.is_empty()
    }

    /// Whether the first place isn't above one that is looked for.
    #[inline(always)]
    pub fn starts_within(&self, probe: &Probe<'_>) -> bool
        ensures { result ≡ starts_within probe.now self.now }
    {
        match self.blocks.first() {
            Some(block) => block.starts_within(probe),
            None => true,
        }
    }

    /// Puts what stands at a place, and answers where, and what stood there. The answer is the new row
    /// where there is no such place.
    pub fn swap(
        &mut self,
        probe: &Probe<'_>,
        row: Option<Row>,
    ) -> Result<(Spot, Option<Row>), Option<Row>>
        ensures found { IfOk result (λ before. place_at self.old probe.now ≡ Some before.1) }
        ensures set { OnOk result
            (IsChangedAt self.old self.new probe.now (place_at self.old probe.now) (Some row)) }
        ensures absent { OnErr result (place_at self.old probe.now ≡ None) }
        ensures back { IfErr result (λ back. back ≡ row) }
        ensures same { OnErr result (self.new ≡ self.old) }
    {
        match find(&self.blocks, probe) {
            Ok(spot) => Ok((spot, replace_at(&mut self.blocks, spot, row))),
            Err(_) => Err(row),
        }
    }

    /// Puts a row at a place, which may be new, and answers where, and what stood there: at Some what
    /// the place had, at None nothing. It looks first beside a spot.
    pub fn insert(
        &mut self,
        alloc: Global,
        near: Spot,
        probe: &Probe<'_>,
        row: &[u8],
    ) -> Result<(Spot, Option<Option<Row>>), AllocError>
        ensures found { IfOk result (λ before. place_at self.old probe.now ≡ before.1) }
        ensures set { OnOk result
            (IsChangedAt self.old self.new probe.now (place_at self.old probe.now)
            (Some (Some row.now))) }
        ensures err { OnErr result (self.new ≡ self.old) }
    {
        match find_near(&self.blocks, near, probe) {
            Ok(spot) => {
                let row = Row::of(alloc, row)?;
                Ok((spot, Some(replace_at(&mut self.blocks, spot, Some(row)))))
            }
            Err(spot) => {
                let spot = add(
                    alloc,
                    &mut self.blocks,
                    spot,
                    is_behind(near, spot),
                    probe,
                    row,
                )?;
                Ok((spot, None))
            }
        }
    }

    /// Takes a place away, with what stands there, and answers where it stood or would stand.
    pub fn remove(&mut self, probe: &Probe<'_>) -> Spot
        ensures { IsChangedAt self.old self.new probe.now (place_at self.old probe.now) None }
    {
        match find(&self.blocks, probe) {
            Ok(spot) => {
                take_out(&mut self.blocks, spot);
                spot
            }
            Err(spot) => spot,
        }
    }
}

impl Shelf {
    /// Where a place stands or would stand, and the row there, if there is one.
    pub fn row_at(&self, probe: &Probe<'_>) -> (Spot, Option<&[u8]>)
        ensures { option_copied result.1 ≡ row_of (place_at self.now probe.now) }
    {
        match find(&self.blocks, probe) {
            Ok(spot) => (spot, entry_of(&self.blocks, spot).row()),
            Err(spot) => (spot, None),
        }
    }

    /// The first place with a row that isn't below the one that is looked for: where it stands, and its
    /// entry.
    pub fn first_row(&self, probe: &Probe<'_>) -> Option<(Spot, &Entry)>
        ensures found { IfSome result (λ first. IsFirstRow self.now probe.now first.1.now) }
        ensures none { IfNone result (NoRowFrom probe.now self.now) }
    {
        match find_row(&self.blocks, probe) {
            Some(spot) => Some((spot, entry_of(&self.blocks, spot))),
            None => None,
        }
    }

    /// Takes the rows whose places begin so, up to a place above them, and answers where the first of them stands or would stand, and
    /// whether there is no such place.
    pub fn read_under(
        &self,
        probe: &Probe<'_>,
        tab: u8,
        prefix: &[u8],
        span: &mut Span,
    ) -> Result<(Spot, bool), AllocError>
        requires { probe.now ≡ tab ∷ prefix.now }
        ensures rows { OnOk result (span.new ≡ span.old ++ entries_under probe.now self.now) }
        ensures past { IfOk result (λ found. found.1 ≡ false → HasPast probe.now self.now) }
    {
        let start = seek(&self.blocks, probe);
        let opening = Opening::of(tab, prefix);
        let goes_on = take_blocks(&self.blocks, start, &opening, span)?;
        Ok((start, goes_on))
    }

    /// Takes all empty places out.
    pub fn drop_empty(&mut self)
        ensures { self.new ≡ without_empty self.old }
    {
        drop_empty_places(&mut self.blocks);
        drop_empty_blocks(&mut self.blocks);
    }

    /// Cuts the blocks from an index on off. The answer is None, and nothing changes, where there are none on
    /// one side.
    pub fn cut(&mut self, index: usize) -> Result<Option<Shelf>, AllocError>
        ensures parts { IfOk result
            (λ back. IfSome back (λ shelf. IsCutInTwo self.old self.new shelf)) }
        ensures none { IfOk result (λ back. IfNone back (self.new ≡ self.old)) }
        ensures err { OnErr result (self.new ≡ self.old) }
    {
        if index == 0 || index >= self.blocks.len() {
            return Ok(None);
        }
        let blocks = self.blocks.split_off(index)?;
        Ok(Some(Shelf { blocks }))
    }
}

/// What is done beside a spot: where the place there is the one that is looked for, the last one below it, or the first one above
/// it. These answer only where it is sure that the place belongs on this shelf.
impl Shelf {
    /// Where a place stands or would stand, and the row there, if there is one.
    #[inline(always)]
    pub fn row_beside(&self, spot: Spot, probe: &Probe<'_>) -> Option<(Spot, Option<&[u8]>)>
        ensures row { IfSome result
            (λ found. option_copied found.1 ≡ row_of (place_at self.now probe.now)) }
        ensures belongs { IfSome result (λ found. BelongsAmong self.now probe.now false) }
    {
        match find_beside(&self.blocks, spot, false, probe) {
            Some(Ok(at)) => Some((at, entry_of(&self.blocks, at).row())),
            Some(Err(at)) => Some((at, None)),
            None => None,
        }
    }

    /// The first place with a row that isn't below the one that is looked for: where it stands, and its
    /// entry.
    #[inline(always)]
    pub fn first_row_beside(&self, spot: Spot, probe: &Probe<'_>) -> Option<(Spot, &Entry)>
        ensures found { IfSome result (λ first. IsFirstRow self.now probe.now first.1.now) }
        ensures belongs { IfSome result (λ first. BelongsAmong self.now probe.now false) }
    {
        match find_beside(&self.blocks, spot, false, probe) {
            Some(Ok(at)) => entry_from(&self.blocks, at, probe),
            Some(Err(at)) => entry_from(&self.blocks, at, probe),
            None => None,
        }
    }

    /// Puts what stands at a place, and answers where, and what stood there. The answer is the new row
    /// where no such place is found.
    #[inline(always)]
    pub fn swap_beside(
        &mut self,
        spot: Spot,
        probe: &Probe<'_>,
        row: Option<Row>,
    ) -> Result<(Spot, Option<Row>), Option<Row>>
        ensures found { IfOk result (λ before. place_at self.old probe.now ≡ Some before.1) }
        ensures set { OnOk result
            (IsChangedAt self.old self.new probe.now (place_at self.old probe.now) (Some row)) }
        ensures belongs { OnOk result (BelongsAmong self.old probe.now false) }
        ensures back { IfErr result (λ back. back ≡ row) }
        ensures same { OnErr result (self.new ≡ self.old) }
    {
        match find_beside(&self.blocks, spot, false, probe) {
            Some(Ok(at)) => Ok((at, replace_at(&mut self.blocks, at, row))),
            Some(Err(_)) => Err(row),
            None => Err(row),
        }
    }

    /// Puts a row at a new place, and answers where. None, and nothing changes, where the place is there already, where it isn't sure that it
    /// belongs on this shelf, or where memory runs out.
    #[inline(always)]
    pub fn add_beside(
        &mut self,
        alloc: Global,
        spot: Spot,
        is_last: bool,
        probe: &Probe<'_>,
        row: &[u8],
    ) -> Option<Spot>
        ensures absent { OnSome result (place_at self.old probe.now ≡ None) }
        ensures set { OnSome result
            (IsChangedAt self.old self.new probe.now (place_at self.old probe.now)
            (Some (Some row.now))) }
        ensures belongs { OnSome result (BelongsAmong self.old probe.now is_last) }
        ensures same { IfNone result (self.new ≡ self.old) }
    {
        match find_beside(&self.blocks, spot, is_last, probe) {
            Some(Err(at)) => {
                match add(alloc, &mut self.blocks, at, is_behind(spot, at), probe, row) {
                    Ok(at) => Some(at),
                    Err(_) => None,
                }
            }
            Some(Ok(_)) => None,
            None => None,
        }
    }
}

/// What is done right behind a spot, where rows are put or taken away in the order of their places.
impl Shelf {
    /// Puts a row at a place, and answers where, whether the place is new, and the row that stood there. None, and nothing changes, where
    /// the place doesn't come right behind the spot, or memory runs out.
    #[inline(always)]
    pub fn put_behind(
        &mut self,
        alloc: Global,
        spot: Spot,
        is_last: bool,
        probe: &Probe<'_>,
        row: &[u8],
    ) -> Option<(Spot, bool, Option<Row>)>
        ensures found { IfSome result
            (λ put. row_of (place_at self.old probe.now) ≡ put.2) }
        ensures set { OnSome result
            (IsChangedAt self.old self.new probe.now (place_at self.old probe.now)
            (Some (Some row.now))) }
        ensures belongs { OnSome result (BelongsAmong self.old probe.now is_last) }
        ensures same { IfNone result (self.new ≡ self.old) }
    {
        match find_right_behind(&self.blocks, spot, is_last, probe) {
            Some(Ok(at)) => match Row::of(alloc, row) {
                Ok(row) => Some((at, false, replace_at(&mut self.blocks, at, Some(row)))),
                Err(_) => None,
            },
            Some(Err(at)) => {
                match add(alloc, &mut self.blocks, at, is_behind(spot, at), probe, row) {
                    Ok(at) => Some((at, true, None)),
                    Err(_) => None,
                }
            }
            None => None,
        }
    }

    /// Empties a place, and answers where it stands, and the row that stood there. None, and nothing changes, where it isn't the first
    /// one behind the spot.
    #[inline(always)]
    pub fn empty_behind(&mut self, spot: Spot, probe: &Probe<'_>) -> Option<(Spot, Option<Row>)>
        ensures found { IfSome result (λ before. place_at self.old probe.now ≡ Some before.1) }
        ensures set { OnSome result
            (IsChangedAt self.old self.new probe.now (place_at self.old probe.now) (Some None)) }
        ensures belongs { OnSome result (BelongsAmong self.old probe.now false) }
        ensures same { IfNone result (self.new ≡ self.old) }
    {
        match stands_behind(&self.blocks, spot, probe) {
            Some(at) => Some((at, replace_at(&mut self.blocks, at, None))),
            None => None,
        }
    }
}

/// The first place with a row from a spot on, where no place from there on is below the one that is looked for.
#[inline(always)]
fn entry_from<'a>(blocks: &'a [Block], start: Spot, probe: &Probe<'_>) -> Option<(Spot, &'a Entry)>
    requires sorted { AreSorted blocks.now }
    requires bound { IsBoundary blocks.now probe.now start.0 start.1 }
    ensures { IfSome result (λ first. IsFirstRow (joined blocks.now) probe.now first.1.now) }
{
    match row_from(blocks, start, probe) {
        Some(spot) => Some((spot, entry_of(blocks, spot))),
        None => None,
    }
}
