// Combinations of values for which the rest of a plan's steps was run already.
ghost use Rattle.std.specs.Prelude.{◌≡◌, ◌≤◌, ◌++◌, ◌∷◌, [], pos, length, drop, IfOk, IfSome, OnOk};
ghost use Rattle.std.specs.List.{list_any, list_all};
ghost use Rattle.std.specs.Option.{option_map};
ghost use Rattle.bdb_base.specs.Order.{row_cmp};
ghost use Rattle.bdb_base.specs.SortedSet.{put_in};
ghost use Rattle.bdb_base.specs.Safety.{operand_columns};
ghost use Rattle.bdb_base.specs.declared.kinds.Value.TheVariants.{Int};
ghost use Rattle.bdb_exec.specs.SeenKeys.{are_remembered, behind_tests, chooses, columns_needed, is_seen, is_fixed, needed_before, needs_columns_alone, without, IsKey};

use crate::shared::Shared;
use crate::state::State;
use crate::values::Key;
use bdb_base::{List, Operand, Ref, Value, Who};
use bdb_plan::Step;
use bdb_queries::{known_row, must_hold};
use std::alloc::{AllocError, Global};
use std::collections::BTreeSet;
use std::marker::Model;

// So many keys are remembered at most.
const MOST_KEYS: usize = 100_000;

/// The keys for which the rest of the steps was run.
#[derive(Drop)]
pub struct SeenKeys {
    keys: BTreeSet<Key>,
}

impl Model for SeenKeys {
    ghost use Rattle.std.specs.Prelude.{List};
    ghost use Rattle.bdb_queries.specs.Collected.{Values};

    ghost Value = { List Values };

    ghost view = { λ s. s.keys.keys };
}

impl SeenKeys {
    /// Nothing was run yet.
    pub fn new(alloc: Global) -> Self
        ensures { result ≡ [] }
    {
        SeenKeys {
            keys: BTreeSet::new(alloc),
        }
    }

    /// Whether a key was seen.
    pub fn has(&self, key: &Key) -> bool
        ensures { result ≡ is_seen self.now key.now }
    {
        self.keys.contains(key)
    }

    /// Whether one more key may be remembered: memory stays bounded, and what isn't remembered is run again.
    pub fn has_room(&self) -> bool {
        self.keys.len() < MOST_KEYS
    }

    /// Remembers a key.
    pub fn add(&mut self, key: Key) -> Result<(), AllocError>
        ensures { OnOk result (self.new ≡ put_in row_cmp self.old key) }
    {
        put_key(&mut self.keys, key)
    }
}

// Puts a key among others, unless it stands there.
fn put_key(keys: &mut BTreeSet<Key>, key: Key) -> Result<(), AllocError>
    ensures { OnOk result (keys.new.keys ≡ put_in row_cmp keys.old.keys key) }
{
    let Ok(_) = keys.insert(key) else {
        return Err(AllocError);
    };
    Ok(())
}

/// The key of where a run stands before steps; none where it doesn't pay to remember it.
pub fn key_of(
    alloc: Global,
    steps: &[Step],
    take: &[Ref],
    state: &State,
) -> Result<Option<Key>, AllocError>
    ensures { IfOk result (λ key. IfSome key (λ k. IsKey steps.now take.now state.now k)) }
{
    if !are_remembered(steps) || !may_come_again(state.slots(), steps, take) {
        return Ok(None);
    }
    let columns = columns_needed(alloc, steps, take)?;
    let values = match known_row(alloc, state.slots(), columns.as_slice())? {
        Some(values) => values,
        None => return Ok(None),
    };
    let left = match u32::try_from(steps.len()) {
        Ok(left) => left,
        Err(_) => return Ok(None),
    };
    let items = match u32::try_from(state.slots().len()) {
        Ok(items) => items,
        Err(_) => return Ok(None),
    };
    let values = with_numbers(values, left, state.world(), items)?;
    Ok(Some(Key { values }))
}

// Whether the values of a key may well come again: of some item that is chosen neither steps nor what is taken name the first column.
fn may_come_again(slots: &[Option<Shared>], steps: &[Step], take: &[Ref]) -> bool {
    for item in 0..slots.len() {
        if slots[item].is_some() && !takes_first(take, item) && !name_first(steps, item) {
            return true;
        }
    }
    false
}

fn takes_first(take: &[Ref], item: usize) -> bool {
    for r in take {
        if is_first(*r, item) {
            return true;
        }
    }
    false
}

fn name_first(steps: &[Step], item: usize) -> bool {
    for step in steps {
        if names_first(step, item) {
            return true;
        }
    }
    false
}

fn names_first(step: &Step, item: usize) -> bool {
    match step {
        Step::Test { cond } => is_first(cond.left, item) || is_first_column(&cond.right, item),
        _ => false,
    }
}

fn is_first_column(operand: &Operand, item: usize) -> bool {
    match operand {
        Operand::Col(r) => is_first(*r, item),
        Operand::Lit(_) => false,
    }
}

// Whether this is an item's first column.
fn is_first(r: Ref, item: usize) -> bool {
    r.item as usize == item && r.col == 0
}

// Values and three numbers behind them.
fn with_numbers(
    values: List<Value>,
    left: u32,
    world: u32,
    items: u32,
) -> Result<List<Value>, AllocError>
    ensures { IfOk result (λ row. row ≡ values ++ Int (pos left) ∷ Int (pos world) ∷ Int (pos items) ∷ []) }
{
    let mut row = values;
    row.push(Value::Int(i64::from(left)))?;
    row.push(Value::Int(i64::from(world)))?;
    row.push(Value::Int(i64::from(items)))?;
    Ok(row)
}

// Whether it pays to know for which values steps were run.
fn are_remembered(steps: &[Step]) -> bool
    ensures { result ≡ are_remembered steps.now }
{
    any_chooses(steps) && need_columns_alone(steps)
}

fn any_chooses(steps: &[Step]) -> bool
    ensures { result ≡ list_any chooses steps.now }
{
    steps.iter().any(chooses)
}

fn need_columns_alone(steps: &[Step]) -> bool
    ensures { result ≡ list_all needs_columns_alone steps.now }
{
    steps.iter().all(needs_columns_alone)
}

fn chooses(step: &Step) -> bool
    ensures { result ≡ chooses step.now }
{
    match step {
        Step::User { .. } => true,
        Step::Start { .. } => false,
        Step::Edge { .. } => false,
        Step::Differ { .. } => false,
        Step::Pos { .. } => true,
        Step::Bind { .. } => false,
        Step::Neg { .. } => false,
        Step::Test { .. } => false,
    }
}

// Whether what comes of a step depends on the world and on the values of columns.
fn needs_columns_alone(step: &Step) -> bool
    ensures { result ≡ needs_columns_alone step.now }
{
    match step {
        Step::User { .. } => true,
        Step::Start { .. } => true,
        Step::Edge { who, .. } => is_fixed(*who),
        Step::Differ { left, right, .. } => is_fixed(*left) && is_fixed(*right),
        Step::Pos { .. } => true,
        Step::Bind { .. } => false,
        Step::Neg { .. } => false,
        Step::Test { .. } => true,
    }
}

fn is_fixed(who: Who) -> bool
    ensures { result ≡ is_fixed who }
{
    match who {
        Who::User(_) => true,
        Who::Of(_) => false,
    }
}

// The columns on which it depends what comes of steps.
fn columns_needed(alloc: Global, steps: &[Step], take: &[Ref]) -> Result<List<Ref>, AllocError>
    ensures { IfOk result (λ columns. columns ≡ columns_needed steps.now take.now) }
{
    let mut columns = copied_columns(alloc, take)?;
    let mut at = steps.len();
    while at > 0 {
        at -= 1;
        put_needed(&mut columns, &steps[at])?;
    }
    Ok(columns)
}

fn copied_columns(alloc: Global, take: &[Ref]) -> Result<List<Ref>, AllocError>
    ensures { IfOk result (λ columns. columns ≡ take.now) }
{
    let mut columns = List::new(alloc);
    for r in take {
        columns.push(*r)?;
    }
    Ok(columns)
}

// Makes of the columns that are needed behind a step those needed before it.
fn put_needed(columns: &mut List<Ref>, step: &Step) -> Result<(), AllocError>
    ensures { OnOk result (columns.new ≡ needed_before step.now columns.old) }
{
    match step {
        Step::User { item } => {
            drop_item(columns, *item);
            Ok(())
        }
        Step::Start { .. } => Ok(()),
        Step::Edge { .. } => Ok(()),
        Step::Differ { .. } => Ok(()),
        Step::Pos { item, .. } => {
            drop_item(columns, *item);
            Ok(())
        }
        Step::Bind { .. } => Ok(()),
        Step::Neg { .. } => Ok(()),
        Step::Test { cond } => {
            columns.push(cond.left)?;
            put_operand(columns, &cond.right)?;
            Ok(())
        }
    }
}

// Takes the columns of an item away.
fn drop_item(columns: &mut List<Ref>, item: u32)
    ensures { columns.new ≡ without item columns.old }
{
    columns.retain(|r| r.item != item);
}

fn put_operand(columns: &mut List<Ref>, operand: &Operand) -> Result<(), AllocError>
    ensures { OnOk result (columns.new ≡ columns.old ++ operand_columns operand.now) }
{
    match operand {
        Operand::Col(r) => {
            columns.push(*r)?;
            Ok(())
        }
        Operand::Lit(_) => Ok(()),
    }
}

/// How many tests steps begin with; none where one of them doesn't hold.
pub fn tests_ahead(slots: &[Option<Shared>], steps: &[Step]) -> Option<usize>
    ensures rest { option_map (λ n. drop n steps.now) result ≡ behind_tests slots.now steps.now }
    ensures within { IfSome result (λ n. n ≤ length steps.now) }
{
    let mut done = 0;
    for step in steps {
        match step {
            Step::Test { cond } => {
                if !must_hold(slots, cond) {
                    return None;
                }
            }
            Step::User { .. } => return Some(done),
            Step::Start { .. } => return Some(done),
            Step::Edge { .. } => return Some(done),
            Step::Differ { .. } => return Some(done),
            Step::Pos { .. } => return Some(done),
            Step::Bind { .. } => return Some(done),
            Step::Neg { .. } => return Some(done),
        }
        done += 1;
    }
    Some(done)
}
