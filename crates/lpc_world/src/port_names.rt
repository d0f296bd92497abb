// The name space of a world, and how many of its names lead to ports of each number.
ghost use Rattle.std.specs.Prelude.{◌≡◌, ◌≢◌, ◌+◌, ◌<◌, ◌≤◌, [], Err, IfErr, IsOk, OnErr, OnOk};
ghost use Rattle.lpc_names.specs.Binding as binding;
ghost use Rattle.lpc_names.specs.Binding.{IsBound, RefusedBy, with_directory, with_item, with_link, without_names};
ghost use Rattle.lpc_names.specs.Walk as names;
ghost use Rattle.lpc_slots.specs.Table.{is_key};
ghost use Rattle.lpc_world.specs.PortNames.{number_of};

use lpc_base::OutOfMemory;
use lpc_names::{BindFault, Found, NameFault, Names};
use lpc_numbers::Tally;
use lpc_slots::Key;
use std::alloc::Global;
use std::marker::Model;

/// The name space of a world, whose items are ports.
///
/// How many names lead to ports of each number is counted. As long as each found room to be counted, no name is looked
/// at for a port to which none of its number leads.
#[derive(Drop)]
pub(crate) struct PortNames {
    names: Names<Key>,
    tally: Tally,
}

impl Model for PortNames {
    ghost use Rattle.lpc_names.specs.Binding.{NameSpace};
    ghost use Rattle.lpc_slots.specs.declared.Key.{Key};
    ghost use Rattle.lpc_world.specs.PortNames.{IsTold};

    ghost Value = { NameSpace Key };

    ghost view = { λ p. p.names };

    ghost invariant = { λ p. IsTold p.names.bindings p.tally };
}

impl PortNames {
    /// A name space in which the root alone stands.
    pub(crate) fn new(alloc: Global) -> PortNames
        ensures { result.bindings ≡ [] }
    {
        PortNames {
            names: Names::new(alloc),
            tally: Tally::new(alloc),
        }
    }

    /// The names, as they are lent.
    pub(crate) fn list(&self) -> &Names<Key>
        ensures { result.now ≡ self.now }
    {
        &self.names
    }

    /// What a path leads to, as `lookup` of `Names` has it.
    pub(crate) fn lookup(&self, path: &[u8]) -> Result<Found<Key>, NameFault>
        ensures { result ≡ names.lookup self.now.bindings path.now }
    {
        self.names.lookup(path)
    }

    /// Whether a new name can be bound at a path, as `test_free` of `Names` has it.
    pub(crate) fn test_free(&self, path: &[u8]) -> Result<(), NameFault>
        ensures fault { IfErr result (λ f. names.free_path self.now.bindings path.now ≡ Err f) }
        ensures free { OnOk result (IsOk (names.free_path self.now.bindings path.now)) }
    {
        self.names.test_free(path)
    }

    /// Makes room for so many further names, and for the counts of their numbers where there is memory for those.
    pub(crate) fn reserve(&mut self, more: usize) -> Result<(), OutOfMemory>
        ensures room { OnOk result (more ≤ self.new.spare) }
        ensures wanting { OnErr result (self.old.spare < more) }
        ensures kept { self.new.bindings ≡ self.old.bindings }
        ensures spare { self.old.spare ≤ self.new.spare }
    {
        self.tally.promise_more(more);
        self.names.reserve(more)
    }

    /// Gives a port a name, as `bind` of `Names` does.
    pub(crate) fn bind(&mut self, path: &[u8], port: Key) -> Result<(), BindFault>
        ensures bound { IsBound (with_item self.old.bindings path.now port) self.new result }
        ensures refused { RefusedBy (with_item self.old.bindings path.now port) result }
        ensures left { IfErr result (λ fault. binding.Leaves fault self.old self.new) }
        ensures room { 0 < self.old.spare → result ≢ Err BindFault.OutOfMemory }
        ensures spare { OnOk result (self.old.spare ≤ self.new.spare + 1) }
    {
        let bound = self.names.bind(path, port);
        if bound.is_ok() {
            self.tally.add(number_of(port));
        }
        bound
    }

    /// Makes a directory, as `add_directory` of `Names` does.
    pub(crate) fn add_directory(&mut self, path: &[u8]) -> Result<(), BindFault>
        ensures bound { IsBound (with_directory self.old.bindings path.now) self.new result }
        ensures refused { RefusedBy (with_directory self.old.bindings path.now) result }
        ensures left { IfErr result (λ fault. binding.Leaves fault self.old self.new) }
        ensures room { 0 < self.old.spare → result ≢ Err BindFault.OutOfMemory }
        ensures spare { OnOk result (self.old.spare ≤ self.new.spare + 1) }
    {
        self.names.add_directory(path)
    }

    /// Makes a link, as `add_link` of `Names` does.
    pub(crate) fn add_link(&mut self, path: &[u8], target: &[u8]) -> Result<(), BindFault>
        ensures bound { IsBound (with_link self.old.bindings path.now target.now) self.new result }
        ensures refused { RefusedBy (with_link self.old.bindings path.now target.now) result }
        ensures left { IfErr result (λ fault. binding.Leaves fault self.old self.new) }
        ensures room { 0 < self.old.spare → result ≢ Err BindFault.OutOfMemory }
        ensures spare { OnOk result (self.old.spare ≤ self.new.spare + 1) }
    {
        self.names.add_link(path, target)
    }

    /// Takes away all names of a port. As long as each name was counted, none is looked at where none leads to a port
    /// of its number.
    pub(crate) fn unbind_all(&mut self, port: Key)
        ensures bindings { self.new.bindings ≡ without_names is_key port self.old.bindings }
        ensures spare { self.old.spare ≤ self.new.spare }
    {
        if self.tally.has_none(number_of(port)) {
            return;
        }
        self.look_through(port);
    }

    // Takes away all names of a port, and looks at each name.
    fn look_through(&mut self, port: Key)
        ensures bindings { self.new.bindings ≡ without_names is_key port self.old.bindings }
        ensures spare { self.old.spare ≤ self.new.spare }
    {
        let before = self.names.count();
        self.names.unbind_all(port);
        let gone = before - self.names.count();
        self.tally.take_many(number_of(port), gone);
    }
}

// The number under which the names of a port are counted. Ports may share one.
fn number_of(port: Key) -> u32
    ensures { result ≡ number_of port }
{
    (port.index % 0x1_0000_0000) as u32
}
