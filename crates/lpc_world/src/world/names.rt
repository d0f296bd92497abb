// The name space: what its calls bind, and why they don't.
ghost use Rattle.std.specs.Prelude.{◌≡◌, ◌≢◌, ◌+◌, ◌<◌, ◌≤◌, Ok, Err, IfErr, IsErr, IsOk, OnErr, OnOk, true};
ghost use Rattle.lpc_model.specs.Named.{free_name};
ghost use Rattle.lpc_rows.specs.Bound.{with_link};
ghost use Rattle.lpc_rows.specs.Capacity.{but_names};
ghost use Rattle.lpc_rows.specs.Kept.{Roomy, Same};
ghost use Rattle.lpc_rows.specs.Names.{stands};
ghost use Rattle.lpc_rows.specs.Clauses.{RefusedAs, and_name, with_directory, with_port_name};

use crate::world::World;
use lpc_base::{OutOfMemory, Status};
use lpc_names::{BindFault, status_of};
use lpc_slots::Key;

impl<'t> World<'t> {
    /// Why no new name can be bound where a path leads: the status of the path's fault, as for `names_bind`.
    pub fn name_test(&self, path: &[u8]) -> Result<(), Status>
        ensures fault { IfErr result (λ status. free_name self.now.rows path.now ≡ Err status) }
        ensures free { OnOk result (IsOk (free_name self.now.rows path.now)) }
    {
        match self.names.test_free(path) {
            Ok(()) => Ok(()),
            Err(fault) => Err(status_of(fault)),
        }
    }

    /// Gives a port that stands a name, where a path leads.
    ///
    /// `Name`: the path's fault; nothing changes. `OutOfMemory`: there was no room for a name, and memory ran out;
    /// nothing but the room may change.
    pub fn names_bind(&mut self, path: &[u8], port: Key) -> Result<(), BindFault>
        requires stands { stands self.old.births.ports port ≡ true }
        ensures bound { OnOk result (with_port_name self.old path.now port ≡ Ok self.new.rows) }
        ensures refused { RefusedAs result (with_port_name self.old path.now port) }
        ensures kept { IsErr (with_port_name self.old path.now port) → self.new ≡ self.old }
        ensures same { OnErr result (Same self.old self.new) }
        ensures births { self.new.births ≡ self.old.births }
        ensures calls { self.new.calls ≡ self.old.calls }
        ensures loose { self.new.loose ≡ self.old.loose }
        ensures made { self.new.made ≡ self.old.made }
        ensures memory { 0 < self.old.room.names → result ≢ Err BindFault.OutOfMemory }
        ensures room { Roomy self.old.room (and_name self.new.room) }
        ensures capacity { but_names self.new.capacity ≡ but_names self.old.capacity }
    {
        self.names.bind(path, port)
    }

    /// Makes a directory where a path leads. Faults as for `names_bind`.
    pub fn names_add_directory(&mut self, path: &[u8]) -> Result<(), BindFault>
        ensures bound { OnOk result (with_directory self.old.rows path.now ≡ Ok self.new.rows) }
        ensures refused { RefusedAs result (with_directory self.old.rows path.now) }
        ensures kept { IsErr (with_directory self.old.rows path.now) → self.new ≡ self.old }
        ensures same { OnErr result (Same self.old self.new) }
        ensures births { self.new.births ≡ self.old.births }
        ensures calls { self.new.calls ≡ self.old.calls }
        ensures loose { self.new.loose ≡ self.old.loose }
        ensures made { self.new.made ≡ self.old.made }
        ensures memory { 0 < self.old.room.names → result ≢ Err BindFault.OutOfMemory }
        ensures room { Roomy self.old.room (and_name self.new.room) }
        ensures capacity { but_names self.new.capacity ≡ but_names self.old.capacity }
    {
        self.names.add_directory(path)
    }

    /// Makes a link where a path leads, to a target, which need not stand. Faults as for `names_bind`; those of the
    /// target's form come first.
    pub fn names_add_link(&mut self, path: &[u8], target: &[u8]) -> Result<(), BindFault>
        ensures bound { OnOk result
            (with_link self.old.rows path.now target.now ≡ Ok self.new.rows) }
        ensures refused { RefusedAs result (with_link self.old.rows path.now target.now) }
        ensures kept { let bound = with_link self.old.rows path.now target.now in
            IsErr bound → self.new ≡ self.old }
        ensures same { OnErr result (Same self.old self.new) }
        ensures births { self.new.births ≡ self.old.births }
        ensures calls { self.new.calls ≡ self.old.calls }
        ensures loose { self.new.loose ≡ self.old.loose }
        ensures made { self.new.made ≡ self.old.made }
        ensures memory { 0 < self.old.room.names → result ≢ Err BindFault.OutOfMemory }
        ensures room { Roomy self.old.room (and_name self.new.room) }
        ensures capacity { but_names self.new.capacity ≡ but_names self.old.capacity }
    {
        self.names.add_link(path, target)
    }

    /// Makes room for so many further names.
    ///
    /// OutOfMemory comes only where that room wasn't there; nothing has changed then but the room.
    pub fn names_reserve(&mut self, more: usize) -> Result<(), OutOfMemory>
        ensures same { Same self.old self.new }
        ensures room { Roomy self.old.room self.new.room }
        ensures names { OnOk result (more ≤ self.new.room.names) }
        ensures wanting { OnErr result (self.old.room.names < more) }
        ensures others { let new = self.new.room in
            new ≡ record self.old.room { names = new.names } }
        ensures capacity { but_names self.new.capacity ≡ but_names self.old.capacity }
    {
        self.names.reserve(more)
    }
}
