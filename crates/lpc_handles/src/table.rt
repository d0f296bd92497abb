// The table of one process's handles, by rising value.
ghost use Rattle.std.specs.Prelude.{◌≡◌, ◌+◌, ◌<◌, ◌≤◌, ◌↔◌, true, [], length, IsErr, IfOk, OnOk, OnErr, OnSome, IfSome, IfNone, vec_len, vec_capacity};
ghost use Rattle.lpc_base.specs.Places.{least_handle};
ghost use Rattle.lpc_base.specs.Room.{grown_room};
ghost use Rattle.lpc_base.specs.Rows.{count, has, without, without_first};
ghost use Rattle.lpc_base.specs.declared.limits.TheConstants.{HANDLE_LIMIT};
ghost use Rattle.lpc_handles.specs.Handles.{Gains, HasNoneFrom, IsLeastFrom, IsPlaceOf, KeepsRising, are_rising, at, first_from, has_value, is_named, new_row, values};

use lpc_base::limits::HANDLE_LIMIT;
use lpc_base::{OutOfMemory, reserve_rows};
use std::alloc::Global;
use std::marker::Model;

/// Why a handle is not given.
#[derive(Clone, Copy)]
pub enum TableFault {
    /// The process has 256 handles, the limit of this project's profile.
    Quota,
}

/// What a handle names, and the rights that it grants.
#[derive(Clone, Copy, PartialEq, Eq)]
pub struct Row<O> {
    /// The object.
    pub object: O,
    /// An access mask.
    pub access: u32,
}

/// The handles of one process.
///
/// A handle's value is a multiple of 4 from 4, and no two handles have one value. Contracts see the rows by rising
/// value, and how many more go in without memory.
#[derive(Drop)]
pub struct Table<O: Copy> {
    rows: Vec<(u32, Row<O>)>,
}

impl<O: Copy> Model for Table<O> {
    ghost use Rattle.std.specs.Prelude.{◌≡◌, ◌≤◌, ◌-◌, true, length, vec_capacity, vec_len};
    ghost use Rattle.lpc_base.specs.declared.limits.TheConstants.{HANDLE_LIMIT};
    ghost use Rattle.lpc_handles.specs.Handles.{Handles, handles_code, are_rising};

    ghost Value = { Handles O };

    ghost coded = { handles_code O.code };

    ghost view = { λ t. record { rows = t.rows.items; spare = vec_capacity t.rows - vec_len t.rows } };

    ghost invariant = { λ t. (length t.rows.items ≤ HANDLE_LIMIT) × (are_rising 4 t.rows.items ≡ true) };
}

impl<O: Copy> Table<O> {
    /// An empty table without room. It takes no memory, and keeps the allocator for `reserve`.
    pub fn new(alloc: Global) -> Table<O>
        ensures { result ≡ record { rows = []; spare = 0 } }
    {
        Table {
            rows: Vec::new(alloc),
        }
    }

    /// Makes room for so many further handles. Room that is there already counts. Where it has to grow, it makes room for
    /// as many as there are, if those are more.
    ///
    /// OutOfMemory comes only where that room isn't there; nothing has changed then.
    pub fn reserve(&mut self, more: usize) -> Result<(), OutOfMemory>
        ensures room { OnOk result (more ≤ self.new.spare) }
        ensures wanting { OnErr result (self.old.spare < more) }
        ensures err { OnErr result (self.new.spare ≡ self.old.spare) }
        ensures rows { self.new.rows ≡ self.old.rows }
        ensures spare { self.old.spare ≤ self.new.spare }
        ensures most { let rows = length self.old.rows in
            self.new.spare ≤ grown_room self.old.spare more rows }
        ensures grown { OnOk result
            (self.old.spare < more → length self.old.rows ≤ self.new.spare) }
        ensures enough { more ≤ self.old.spare → self.new.spare ≡ self.old.spare }
    {
        reserve_rows(&mut self.rows, more)
    }

    /// Gives a handle the least free value, and answers the value.
    ///
    /// Quota comes exactly where 256 handles stand, and then nothing changes. Otherwise there is room that `reserve`
    /// made.
    pub fn add(&mut self, object: O, access: u32) -> Result<u32, TableFault>
        requires { length self.old.rows < HANDLE_LIMIT → 0 < self.old.spare }
        ensures quota { IsErr result ↔ (length self.old.rows ≡ HANDLE_LIMIT) }
        ensures value { IfOk result (λ v. v ≡ least_handle (values self.old.rows)) }
        ensures rows { IfOk result (Gains self.old.rows (new_row object access) self.new.rows) }
        ensures spare { OnOk result (self.new.spare + 1 ≡ self.old.spare) }
        ensures same { OnErr result (self.new ≡ self.old) }
    {
        if self.rows.len() == HANDLE_LIMIT {
            return Err(TableFault::Quota);
        }
        let (index, value) = free_place(&self.rows);
        self.rows
            .insert(index, (value, Row { object, access }))
            .unwrap();
        Ok(value)
    }

    /// What the handle with a value names and grants; None exactly where no handle has the value.
    pub fn get(&self, value: u32) -> Option<Row<O>>
        ensures { result ≡ at self.now.rows value }
    {
        for (other, row) in &self.rows {
            if *other == value {
                return Some(*row);
            }
        }
        None
    }

    /// How many handles the process has.
    pub fn count(&self) -> usize
        ensures { result ≡ length self.now.rows }
    {
        self.rows.len()
    }

    /// The handles, each by its value with what it names and grants. Places go from 0 by rising value.
    pub fn rows(&self) -> &[(u32, Row<O>)]
        ensures rows { result.now ≡ self.now.rows }
    {
        &self.rows
    }

    /// How many further handles there is room for.
    pub fn spare(&self) -> usize
        ensures { result ≡ self.now.spare }
    {
        self.rows.capacity() - self.rows.len()
    }

    /// Takes the handle with a value away, and answers what it named and granted; None exactly where no handle has the
    /// value, and then nothing changes.
    pub fn close(&mut self, value: u32) -> Option<Row<O>>
        ensures row { result ≡ at self.old.rows value }
        ensures rows { self.new.rows ≡ without (has_value value) self.old.rows }
        ensures one { self.new.rows ≡ without_first (has_value value) self.old.rows }
        ensures spare { OnSome result (self.new.spare ≡ self.old.spare + 1) }
        ensures same { IfNone result (self.new ≡ self.old) }
    {
        let row = self.get(value)?;
        take_out(&mut self.rows, value);
        Some(row)
    }

    /// The least value in use that isn't below `value`; None exactly where each value in use is below it.
    pub fn first_from(&self, value: u32) -> Option<u32>
        ensures first { result ≡ first_from self.now.rows value }
        ensures least { IfSome result (λ v. IsLeastFrom self.now.rows value v) }
        ensures none { IfNone result (HasNoneFrom self.now.rows value) }
        ensures rising { are_rising 4 self.now.rows ≡ true }
    {
        value_from(&self.rows, value)
    }
}

impl<O: Copy + Eq> Table<O> {
    /// A handle names the object.
    pub fn names(&self, object: O) -> bool
        ensures { result ≡ has (is_named O.eq object) self.now.rows }
    {
        for (_, row) in &self.rows {
            if row.object == object {
                return true;
            }
        }
        false
    }

    /// How many handles name the object.
    pub fn count_of(&self, object: O) -> usize
        ensures count { result ≡ count (is_named O.eq object) self.now.rows }
        ensures within { result ≤ HANDLE_LIMIT }
    {
        let mut named = 0;
        for (_, row) in &self.rows {
            if row.object == object {
                named += 1;
            }
        }
        named
    }
}

/// The first value that isn't below.
fn value_from<O: Copy>(rows: &[(u32, Row<O>)], value: u32) -> Option<u32>
    ensures { result ≡ first_from rows.now value }
{
    for (other, _) in rows {
        if *other >= value {
            return Some(*other);
        }
    }
    None
}

/// Takes the handle with a value out of the rows.
fn take_out<O: Copy>(rows: &mut Vec<(u32, Row<O>)>, value: u32)
    ensures rows { rows.new.items ≡ without (has_value value) rows.old.items }
    ensures len { vec_len rows.new ≡ length (without (has_value value) rows.old.items) }
    ensures room { vec_capacity rows.new ≡ vec_capacity rows.old }
{
    rows.retain(|row| row.0 != value);
}

/// The least free value among rising values, and the place where it goes in.
fn free_place<O: Copy>(rows: &[(u32, Row<O>)]) -> (usize, u32)
    requires few { length rows.now ≤ HANDLE_LIMIT }
    requires rising { are_rising 4 rows.now ≡ true }
    ensures within { result.0 ≤ length rows.now }
    ensures value { result.1 ≡ least_handle (values rows.now) }
    ensures place { IsPlaceOf rows.now result.0 result.1 }
    ensures rises { KeepsRising rows.now result.0 result.1 }
{
    let mut value = 4;
    for (index, row) in rows.iter().enumerate() {
        if row.0 != value {
            return (index, value);
        }
        value += 4;
    }
    (rows.len(), value)
}
