// What goes when a handle is closed, and what is counted of its object.
ghost use Rattle.std.specs.Prelude.{◌≡◌, ◌+◌, ◌*◌, ◌≤◌, true, option_and_then};
ghost use Rattle.lpc_base.specs.Rows.{count, has};
ghost use Rattle.lpc_base.specs.declared.limits.TheConstants.{VIEW_LIMIT};
ghost use Rattle.lpc_homes.specs.Parts.{port_of};
ghost use Rattle.lpc_model.specs.Basics.{Cuts, DropsHandle, Empties, Unbinds};
ghost use Rattle.lpc_model.specs.Found.{all_registrations, all_views, event_ports, handle_count, holders, is_owned_by, is_table, pointer_count, same_birth};
ghost use Rattle.lpc_model.specs.declared.entry.ObjectKind.TheVariants as kind;
ghost use Rattle.lpc_rows.specs.Closing.{HasMutualPairs};
ghost use Rattle.lpc_rows.specs.Capacity.{but_names};
ghost use Rattle.lpc_rows.specs.Held.{has_handles};
ghost use Rattle.lpc_rows.specs.Kept.{IsStep, Roomy, owed_rows};
ghost use Rattle.lpc_rows.specs.Names.{stands};
ghost use Rattle.lpc_rows.specs.Shown.{object_stands};
ghost use Rattle.lpc_rows.specs.Clauses.{after, birth_at, name_at};

use crate::world::World;
use lpc_handles::Row;
use lpc_homes::Object;
use lpc_slots::Key;

impl<'t> World<'t> {
    /// All names of a port go.
    pub fn names_unbind(&mut self, port: Key)
        requires port { stands self.old.births.ports port ≡ true }
        ensures step { let left = after self.old (Unbinds (birth_at self.old port)) in
            IsStep left self.old self.new }
        ensures loose { self.new.loose ≡ self.old.loose }
        ensures capacity { but_names self.new.capacity ≡ but_names self.old.capacity }
    {
        self.names.unbind_all(port);
    }

    /// All messages in the queue of a port go.
    pub fn messages_empty(&mut self, port: Key)
        requires port { stands self.old.births.ports port ≡ true }
        ensures step { let left = after self.old (Empties (birth_at self.old port)) in
            IsStep left self.old self.new }
        ensures loose { self.new.loose ≡ true }
        ensures capacity { self.new.capacity ≡ self.old.capacity }
    {
        self.loose = true;
        let went = self.ports.empty(port);
        self.suspects.add_any_if(went);
    }

    /// A port and its other end are cut off from each other.
    pub fn ports_cut(&mut self, port: Key)
        requires port { stands self.old.births.ports port ≡ true }
        requires pairs { HasMutualPairs self.old.rows }
        ensures step { IsStep (after self.old (Cuts (birth_at self.old port))) self.old self.new }
        ensures loose { self.new.loose ≡ true }
        ensures capacity { self.new.capacity ≡ self.old.capacity }
    {
        let other = self.port(port).pair;
        self.loose = true;
        self.ports.cut(port);
        self.suspects.add(port);
        self.suspects.add_some(other);
    }

    /// The handle of a process with a value goes. No row is made, and with the last handle of a client port the message
    /// that tells of its closing is no longer owed.
    pub fn handles_close(&mut self, pid: u32, value: u32)
        requires table { has (is_table pid) self.old.rows.handles ≡ true }
        ensures rows { self.new.rows ≡ after self.old (DropsHandle pid value) }
        ensures births { self.new.births ≡ self.old.births }
        ensures calls { self.new.calls ≡ self.old.calls }
        ensures loose { self.new.loose ≡ true }
        ensures made { self.new.made + owed_rows self.old.rows
            ≡ self.old.made + owed_rows self.new.rows }
        ensures room { Roomy self.old.room self.new.room }
        ensures capacity { self.new.capacity ≡ self.old.capacity }
    {
        let handle = self.handle(pid, value);
        self.loose = true;
        self.parts.close_handle(pid, value);
        self.suspects.add_some(port_of_handle(handle));
        self.lives.suspect_named(handle);
    }

    /// A handle names an object.
    pub fn has_handles(&self, object: Object) -> bool
        requires { object_stands self.now.births object ≡ true }
        ensures { result ≡ has_handles self.now.rows (name_at self.now object) }
    {
        self.parts.names(object)
    }

    /// How many handles of all processes name an object.
    pub fn handles_to(&self, object: Object) -> usize
        requires { object_stands self.now.births object ≡ true }
        ensures { result ≡ handle_count self.now.rows (name_at self.now object) }
    {
        self.parts.handles_to(object)
    }

    /// How many rows count for an object, its handles among them.
    pub fn pointers_to(&self, object: Object) -> usize
        requires { object_stands self.now.births object ≡ true }
        ensures { result ≡ pointer_count self.now.rows (name_at self.now object) }
    {
        self.parts.handles_to(object) + self.holders_of(object)
    }

    /// How many rows but handles count for an object: for a token none.
    fn holders_of(&self, object: Object) -> usize
        requires { object_stands self.now.births object ≡ true }
        ensures holders { let o = name_at self.now object in
            result ≡ holders self.now.rows o.kind o.birth }
        ensures few { result ≤ (VIEW_LIMIT + 7) * self.now.made }
    {
        match object {
            Object::Port(port) => self.holders_of_port(port),
            Object::Process(birth) => self.procs.lives_of_process(birth),
            Object::Thread(birth) => self.procs.lives_of_thread(birth),
            Object::Section(section) => self.holders_of_section(section),
            Object::Token(_) => 0,
        }
    }

    /// How many registrations of live threads name a port.
    fn registered_to(&self, port: Key) -> usize
        requires { stands self.now.births.ports port ≡ true }
        ensures number { result
            ≡ count (same_birth (birth_at self.now port)) (all_registrations self.now.rows) }
        ensures few { result ≤ self.now.made }
    {
        self.procs.registered_to(self.port(port).birth)
    }

    /// How many processes have a port as their debug port or as their exception port, each as often as it does.
    fn event_ports_to(&self, port: Key) -> usize
        requires { stands self.now.births.ports port ≡ true }
        ensures number { result
            ≡ count (same_birth (birth_at self.now port)) (event_ports self.now.rows) }
        ensures few { result ≤ 2 * self.now.made }
    {
        self.procs.event_ports_to(self.port(port).birth)
    }

    /// How many rows but handles count for a port: ports, messages, waits, registrations, views that go with it, and
    /// processes whose exceptions it is told of.
    fn holders_of_port(&self, port: Key) -> usize
        requires { stands self.now.births.ports port ≡ true }
        ensures holders { result ≡ holders self.now.rows kind.Port (birth_at self.now port) }
        ensures few { result ≤ (VIEW_LIMIT + 7) * self.now.made }
    {
        self.rows_at_port(port) + self.parts.owned_views(port) + self.event_ports_to(port)
    }

    /// How many of these are neither views nor processes.
    fn rows_at_port(&self, port: Key) -> usize
        requires { stands self.now.births.ports port ≡ true }
        ensures rows { let views = all_views self.now.rows in
            let hearers = event_ports self.now.rows in
            result + count (is_owned_by (birth_at self.now port)) views
            + count (same_birth (birth_at self.now port)) hearers
            ≡ holders self.now.rows kind.Port (birth_at self.now port) }
        ensures few { result ≤ 5 * self.now.made }
    {
        let ports = self.ports.paired_to(port) + self.ports.connected_to(port);
        let waits = self.waits.made_on(port);
        ports + self.ports.sent_on(port) + (waits + self.registered_to(port))
    }
}

// The key of the port that a handle names: None where it names none, and where there is no such handle.
fn port_of_handle(handle: Option<Row<Object>>) -> Option<Key>
    ensures { result ≡ option_and_then (λ row. port_of row.object) handle }
{
    handle?.object.port()
}
