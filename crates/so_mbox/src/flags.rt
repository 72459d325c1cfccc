//! Which rows, or which filters, of an agent are active.

ghost use Rattle.std.specs.Prelude.{◌≡◌, ◌<◌, suc, length, drop, replicate, slice_index_or, slice_set, false, IfOk};
ghost use Rattle.std.specs.List.{list_any};
ghost use Rattle.so_scene.specs.Delivery.{is_filter_for};
ghost use Rattle.so_scene.specs.Subscriptions.{rows_first, stays_beside, beside, filter_set, replaces, filters_first};

use so_ids::NoMemory;
use so_scene::FilterDef;
use so_state::Row;
use std::alloc::Global;
use std::marker::Model;

/// A flag for each row, or each filter, of an agent: whether it is active.
#[derive(Drop)]
pub(crate) struct Flags {
    flags: Vec<bool>,
}

impl Model for Flags {
    ghost use Rattle.std.specs.Prelude.{List, Bool};

    ghost Value = { List Bool };

    ghost view = { λ all. all.flags.items };
}

impl Flags {
    /// So many that aren't active.
    pub(crate) fn with(alloc: Global, count: usize) -> Result<Flags, NoMemory>
        ensures { IfOk result (λ all. all ≡ replicate count false) }
    {
        Ok(Flags {
            flags: Vec::from_elem(alloc, false, count)?,
        })
    }

    /// All of them.
    pub(crate) fn as_slice(&self) -> &[bool]
        ensures { result.now ≡ self.now }
    {
        self.flags.as_slice()
    }

    /// Makes one active, or not.
    pub(crate) fn put(&mut self, k: usize, on: bool)
        requires { k < length self.old }
        ensures { self.new ≡ slice_set self.old k on }
    {
        self.flags[k] = on;
    }

    /// Makes none active.
    pub(crate) fn clear(&mut self)
        ensures { self.new ≡ replicate (length self.old) false }
    {
        self.flags.fill(false);
    }

    /// As the rows are at the registration.
    pub(crate) fn put_rows_first(&mut self, rows: &[Row])
        requires { length self.old ≡ length rows.now }
        ensures { self.new ≡ rows_first rows.now }
    {
        put_rows_first(&mut self.flags, rows);
    }

    /// As the filters are at the registration.
    pub(crate) fn put_filters_first(&mut self, filters: &[FilterDef])
        requires { length self.old ≡ length filters.now }
        ensures { self.new ≡ filters_first filters.now }
    {
        put_filters_first(&mut self.flags, filters);
    }

    /// Sets a filter, which replaces the one of the same mbox and type.
    pub(crate) fn set_filter(&mut self, filters: &[FilterDef], k: usize)
        requires within { k < length filters.now }
        requires same { length self.old ≡ length filters.now }
        ensures { self.new ≡ filter_set filters.now k self.old }
    {
        set_filter(&mut self.flags, filters, k);
    }
}

fn put_rows_first(flags: &mut [bool], rows: &[Row])
    requires { length flags.old ≡ length rows.now }
    ensures { flags.new ≡ rows_first rows.now }
{
    for k in 0..rows.len() {
        flags[k] = rows[k].active;
    }
}

fn put_filters_first(flags: &mut [bool], filters: &[FilterDef])
    requires { length flags.old ≡ length filters.now }
    ensures { flags.new ≡ filters_first filters.now }
{
    for k in 0..filters.len() {
        flags[k] = is_active_first(filters, k);
    }
}

/// Tells whether a filter is active at the registration: where it says so, and no later one replaces it.
fn is_active_first(filters: &[FilterDef], k: usize) -> bool
    requires { k < length filters.now }
    ensures { result ≡ slice_index_or (filters_first filters.now) k false }
{
    let filter = &filters[k];
    if !filter.active {
        return false;
    }
    !is_replaced(filter, after(filters, k))
}

/// The filters after this number.
fn after(filters: &[FilterDef], k: usize) -> &[FilterDef]
    requires { k < length filters.now }
    ensures { result.now ≡ drop (suc k) filters.now }
{
    &filters[k + 1..]
}

/// Tells whether one of the later filters is active from the start, and for the same messages.
fn is_replaced(filter: &FilterDef, later: &[FilterDef]) -> bool
    ensures { result ≡ list_any (replaces filter.now) later.now }
{
    later
        .iter()
        .any(|other| other.active && is_for_same(filter, other))
}

/// Tells whether the other filter is of the same mbox and type.
fn is_for_same(filter: &FilterDef, other: &FilterDef) -> bool
    ensures { result ≡ is_filter_for filter.now.mbox filter.now.msg other.now }
{
    other.mbox == filter.mbox && other.msg == filter.msg
}

/// Sets a filter, which replaces the one of the same mbox and type.
fn set_filter(flags: &mut [bool], filters: &[FilterDef], k: usize)
    requires within { k < length filters.now }
    requires same { length flags.old ≡ length filters.now }
    ensures { flags.new ≡ filter_set filters.now k flags.old }
{
    drop_replaced(flags, filters, &filters[k]);
    flags[k] = true;
}

/// Leaves the filters active that are for other messages.
fn drop_replaced(flags: &mut [bool], filters: &[FilterDef], new: &FilterDef)
    requires { length flags.old ≡ length filters.now }
    ensures { flags.new ≡ beside filters.now new.now flags.old }
{
    for k in 0..filters.len() {
        flags[k] = stays_beside(new, &filters[k], flags[k]);
    }
}

/// Tells whether the other filter, active or not, is active and stays so beside the new one.
fn stays_beside(new: &FilterDef, other: &FilterDef, active: bool) -> bool
    ensures { result ≡ stays_beside new.now (other.now, active) }
{
    active && !is_for_same(new, other)
}
