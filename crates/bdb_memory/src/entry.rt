// A place with its row, in few bytes.
ghost use Rattle.std.specs.Prelude.{◌≡◌, ◌∷◌, Some, IfOk, IsTrue, is_some, drop};
ghost use Rattle.std.specs.Option.{option_copied};
ghost use Rattle.std.specs.Ordering.{is_le, is_lt, nat_cmp, ordering_then};
ghost use Rattle.bdb_base.specs.Segments.{is_prefix};
ghost use Rattle.bdb_keep.specs.Tables.{bytes_cmp};
ghost use Rattle.bdb_memory.specs.Heads.{IsHeadOfPlace, heads_cmp, numbers_cmp};
ghost use Rattle.bdb_memory.specs.Tails.{count_in, fourth_in, head_in};

use crate::head::Head;
use crate::opening::Opening;
use crate::row::Row;
use crate::tail::{Tail, swap_row};
use crate::words::Probe;
use bdb_keep::AppendKey;
use std::alloc::{AllocError, Global};
use std::cmp::Ordering;
use std::marker::Model;

/// A place with its row, or with none where the row was removed. Many lie side by side, and are compared and moved: so the first 16
/// bytes of the key are two numbers, as in a head, and all else lies behind them in sixteen bytes.
#[derive(Drop)]
pub struct Entry {
    first: u64,
    second: u64,
    tail: Tail,
}

impl Model for Entry {
    ghost use Rattle.std.specs.Prelude.{ℕ, List, Option, ◌∷◌};
    ghost use Rattle.bdb_memory.specs.Heads.{IsHeadOf, key_of};
    ghost use Rattle.bdb_memory.specs.Tails.{table_in, rest_in, row_in, head_in};

    ghost Value = { List ℕ × Option (List ℕ) };

    ghost view = { λ e. (
      table_in e.tail ∷ key_of (head_in e.first e.second e.tail) (rest_in e.tail),
      row_in e.tail,
    ) };

    ghost invariant = { λ e. IsHeadOf (key_of (head_in e.first e.second e.tail) (rest_in e.tail))
        (head_in e.first e.second e.tail) (rest_in e.tail) };
}

impl Entry {
    /// A place that is a copy of one that is looked for, with a copy of these bytes as its row.
    #[inline(always)]
    pub fn of(alloc: Global, probe: &Probe<'_>, row: &[u8]) -> Result<Self, AllocError>
        ensures { IfOk result (λ entry. entry ≡ (probe.now, Some row.now)) }
    {
        let (head, rest) = probe.parts();
        let tail = Tail::of(alloc, &head, rest, row)?;
        Ok(Entry {
            first: head.first,
            second: head.second,
            tail,
        })
    }

    /// The place, to be looked for elsewhere.
    pub fn probe(&self) -> Probe<'_>
        ensures { result ≡ self.now.0 }
    {
        let head = head_with(self.first, self.second, &self.tail);
        Probe::from_parts(head, self.tail.rest())
    }

    /// How the place compares with one that is looked for.
    #[inline(always)]
    pub fn compare(&self, probe: &Probe<'_>) -> Ordering
        ensures { result ≡ bytes_cmp self.now.0 probe.now }
    {
        let (other, rest) = probe.parts();
        match compare_heads(self.first, self.second, &self.tail, &other) {
            Ordering::Equal => self.tail.compare_rest(rest),
            order => order,
        }
    }

    /// Whether the place is below one that is looked for. Mostly its head tells.
    #[inline(always)]
    pub fn is_below(&self, probe: &Probe<'_>) -> bool
        ensures { result ≡ is_lt (bytes_cmp self.now.0 probe.now) }
    {
        let (other, rest) = probe.parts();
        match compare_heads(self.first, self.second, &self.tail, &other) {
            Ordering::Less => true,
            Ordering::Equal => self.tail.rest_is_below(rest),
            Ordering::Greater => false,
        }
    }

    /// The head of the place.
    #[inline(always)]
    pub fn head(&self) -> Head
        ensures { IsHeadOfPlace result self.now.0 }
    {
        head_with(self.first, self.second, &self.tail)
    }

    /// Whether there is a row.
    #[inline(always)]
    pub fn has_row(&self) -> bool
        ensures { result ≡ is_some self.now.1 }
    {
        self.tail.has_row()
    }

    /// The row, if there is one.
    #[inline(always)]
    pub fn row(&self) -> Option<&[u8]>
        ensures { option_copied result ≡ self.now.1 }
    {
        self.tail.row()
    }

    /// Puts another row there, or none, and answers what was there. It takes no memory.
    pub fn swap(&mut self, row: Option<Row>) -> Option<Row>
        ensures before { result ≡ self.old.1 }
        ensures entry { self.new ≡ (self.old.0, row) }
    {
        swap_row(&mut self.tail, row)
    }

    /// Whether the place, which isn't below these bytes, begins so.
    #[inline(always)]
    pub fn begins_so(&self, opening: &Opening<'_>) -> bool
        requires { IsTrue (is_le (bytes_cmp opening.now self.now.0)) }
        ensures { result ≡ is_prefix opening.now self.now.0 }
    {
        match opening.behind(&self.head()) {
            Some(prefix) => self.tail.rest_begins_with(prefix),
            None => false,
        }
    }

    /// Writes the key, and answers the number of the table.
    #[inline(always)]
    pub fn write_key(&self, key: &mut Vec<u8>) -> Result<u8, AllocError>
        ensures { IfOk result (λ tab. self.now.0 ≡ tab ∷ key.new.items) }
    {
        let head = head_with(self.first, self.second, &self.tail);
        head.write(key)?;
        let tab = self.tail.tab();
        if !self.tail.has_rest() {
            return Ok(tab);
        }
        self.tail.append_rest(key)?;
        Ok(tab)
    }
}

impl AppendKey for Entry {
    ghost key = { λ e. drop 1 e.0 };

    #[inline(always)]
    #[tactic(auto, using(bdb_keep::proofs::SpanLemmas::front_itself, bdb_keep::proofs::SpanLemmas::front_before, bdb_keep::proofs::SpanLemmas::front_longer, bdb_keep::proofs::SpanLemmas::front_farther))]
    fn append_key(&self, bytes: &mut Vec<u8>) -> Result<(), AllocError> {
        let head = head_with(self.first, self.second, &self.tail);
        head.append_to(bytes)?;
        if !self.tail.has_rest() {
            return Ok(());
        }
        self.tail.append_rest(bytes)?;
        Ok(())
    }
}

/// The head of a place with these numbers and this tail.
#[inline(always)]
fn head_with(first: u64, second: u64, tail: &Tail) -> Head
    ensures { result ≡ head_in first second tail.now }
{
    Head {
        tab: tail.tab(),
        count: tail.count(),
        first,
        second,
        third: tail.third(),
        fourth: tail.fourth(),
    }
}

/// How it compares with another. Where the first numbers tell, no others are looked at.
#[inline(always)]
fn compare_heads(first: u64, second: u64, tail: &Tail, other: &Head) -> Ordering
    ensures { result ≡ heads_cmp (head_in first second tail.now) other.now }
{
    let tab = tail.tab();
    if tab != other.tab {
        return tab.cmp(&other.tab);
    }
    compare_numbers(first, second, tail, other)
}

/// The same in one table.
#[inline(always)]
fn compare_numbers(first: u64, second: u64, tail: &Tail, other: &Head) -> Ordering
    ensures { result ≡ numbers_cmp (head_in first second tail.now) other.now }
{
    if first != other.first {
        return first.cmp(&other.first);
    }
    if second != other.second {
        return second.cmp(&other.second);
    }
    let third = tail.third();
    if third != other.third {
        return third.cmp(&other.third);
    }
    compare_last(tail, other.fourth, other.count)
}

/// How they compare by the fourth number, and then by how many bytes of the key are numbers.
#[inline(never)]
fn compare_last(tail: &Tail, fourth: u64, count: u8) -> Ordering
    ensures { result ≡ ordering_then (nat_cmp (fourth_in tail.now) fourth)
        (nat_cmp (count_in tail.now) count) }
{
    let own = tail.fourth();
    if own != fourth {
        return own.cmp(&fourth);
    }
    tail.count().cmp(&count)
}
