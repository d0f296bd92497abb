// What names a port in the tables, and the rows that go. The sweep, which stands above, lets them go.
ghost use Rattle.std.specs.Prelude.{◌≡◌, ◌+◌, ◌≤◌, true, false};
ghost use Rattle.lpc_model.specs.Basics.{Frees};
ghost use Rattle.lpc_model.specs.Found.{is_born_process, is_born_thread, port_name, process_name, thread_name};
ghost use Rattle.lpc_model.specs.Linked.{AreLivesHeld, HasHeldPorts, HasHeldSections, HasHeldTokens};
ghost use Rattle.lpc_model.specs.Sweep.{is_unheld};
ghost use Rattle.lpc_base.specs.Rows.{has};
ghost use Rattle.lpc_world.specs.declared.suspected_lives.LifeSuspect.TheVariants as life;
ghost use Rattle.lpc_world.specs.declared.suspects.Suspect.TheVariants.{Nobody};
ghost use Rattle.lpc_rows.specs.Held as held;
ghost use Rattle.lpc_rows.specs.Held.{has_holders};
ghost use Rattle.lpc_rows.specs.Kept.{GainsNoLives, Roomy, owed_rows};
ghost use Rattle.lpc_rows.specs.Names.{KeepsOthers, stands};
ghost use Rattle.lpc_rows.specs.Clauses.{after, birth_at};

use crate::suspected_lives::LifeSuspect;
use crate::suspects::Suspect;
use crate::world::World;
use lpc_base::Birth;
use lpc_homes::Object;
use lpc_slots::Key;

impl<'t> World<'t> {
    /// A row but a thread's, a process's, a view's or a name's names the port: a handle, another port, a message, or a
    /// wait.
    fn is_used_by_row(&self, port: Key) -> bool
        requires { stands self.now.births.ports port ≡ true }
        ensures { result ≡ held.is_used_by_row self.now.rows (birth_at self.now port) }
    {
        self.parts.names(Object::Port(port))
            || self.ports.is_named(port)
            || self.waits.is_named(port)
    }

    /// A thread registered the port, be it live or ended.
    fn is_registered_port(&self, port: Key) -> bool
        requires { stands self.now.births.ports port ≡ true }
        ensures { result ≡ held.is_registered_port self.now.rows (birth_at self.now port) }
    {
        self.procs.names(self.port(port).birth)
    }

    /// A view of some process goes with the port.
    fn is_owner(&self, port: Key) -> bool
        requires { stands self.now.births.ports port ≡ true }
        ensures { result ≡ held.is_owner self.now.rows (birth_at self.now port) }
    {
        self.parts.is_owner(port)
    }

    /// The port is told of the exceptions of a process.
    fn is_event_port(&self, port: Key) -> bool
        requires { stands self.now.births.ports port ≡ true }
        ensures { result ≡ held.is_event_port self.now.rows (birth_at self.now port) }
    {
        self.procs.is_event_port(self.port(port).birth)
    }

    /// Some row but a name's names the port: one of these, a thread by a registration, a view that goes with it, or a
    /// process whose exceptions it is told of. Names aren't asked.
    pub fn is_used(&self, port: Key) -> bool
        requires { stands self.now.births.ports port ≡ true }
        ensures { result ≡ held.is_used self.now.rows (birth_at self.now port) }
    {
        self.is_used_by_row(port)
            || self.is_registered_port(port)
            || self.is_owner(port)
            || self.is_event_port(port)
    }

    /// A sweep is due: since the last one a call was made that takes rows away which may name objects, or such names.
    pub fn is_loose(&self) -> bool
        ensures { result ≡ self.now.loose }
    {
        self.loose
    }

    /// A port stands at the key.
    pub fn port_stands(&self, port: Key) -> bool
        ensures { result ≡ stands self.now.births.ports port }
    {
        self.ports.get(port).is_some()
    }

    /// A port that may have lost the last row that counted for it, or nobody, and then some row counts for each port.
    pub fn suspect(&self) -> Suspect
        ensures nobody { result ≡ Nobody → HasHeldPorts self.now.rows }
    {
        self.suspects.first()
    }

    /// A port is no longer suspected for which some row counts, or which doesn't stand any more.
    pub fn clear_suspect(&mut self, port: Key)
        requires held { stands self.old.births.ports port ≡ true
            → is_unheld self.old.rows (port_name (birth_at self.old port)) ≡ false }
        ensures { self.new ≡ self.old }
    {
        self.suspects.remove(port);
    }

    /// A thread or a process that may have lost the last row that counted for it, or nobody, and then some row counts for
    /// each thread and each process.
    pub fn life_suspect(&self) -> LifeSuspect
        ensures nobody { result ≡ life.Nobody → AreLivesHeld self.now.rows }
    {
        self.lives.first()
    }

    /// A thread is no longer suspected for which some row counts, or which doesn't stand any more.
    pub fn clear_thread(&mut self, birth: Birth)
        requires held { has (is_born_thread birth) self.old.rows.threads ≡ true
            → is_unheld self.old.rows (thread_name birth) ≡ false }
        ensures { self.new ≡ self.old }
    {
        self.lives.remove_thread(birth);
    }

    /// A process is no longer suspected for which some row counts, or which doesn't stand any more.
    pub fn clear_process(&mut self, birth: Birth)
        requires held { has (is_born_process birth) self.old.rows.processes ≡ true
            → is_unheld self.old.rows (process_name birth) ≡ false }
        ensures { self.new ≡ self.old }
    {
        self.lives.remove_process(birth);
    }

    /// No sweep is due, until a call is made again that takes rows away which may name objects, or such names. Some row
    /// counts for each port, each thread and each process.
    pub fn set_still(&mut self)
        requires held { HasHeldPorts self.old.rows }
        requires lives { AreLivesHeld self.old.rows }
        ensures rows { self.new.rows ≡ self.old.rows }
        ensures births { self.new.births ≡ self.old.births }
        ensures calls { self.new.calls ≡ self.old.calls }
        ensures made { self.new.made ≡ self.old.made }
        ensures loose { self.new.loose ≡ false }
        ensures room { self.new.room ≡ self.old.room }
        ensures capacity { self.new.capacity ≡ self.old.capacity }
    {
        self.loose = false;
        self.suspects.clear();
        self.lives.clear();
    }

    /// Each token that stands has a handle, as far as the counts tell: true says so, and false says nothing. No token is
    /// looked at.
    pub fn tokens_are_held(&self) -> bool
        ensures { result ≡ true → HasHeldTokens self.now.rows }
    {
        self.parts.held_tokens() == Some(self.tokens.count())
    }

    /// Each section that stands has a handle or a view, as far as the counts tell: true says so, and false says nothing.
    /// No section is looked at.
    pub fn sections_are_held(&self) -> bool
        ensures { result ≡ true → HasHeldSections self.now.rows }
    {
        self.parts.held_sections() == Some(self.sections.count())
    }

    /// The row of a thread that has ended goes.
    pub fn threads_free(&mut self, birth: Birth)
        requires ended { has_holders self.old.rows (thread_name birth) ≡ false }
        ensures rows { self.new.rows ≡ after self.old (Frees (thread_name birth)) }
        ensures births { self.new.births ≡ self.old.births }
        ensures calls { self.new.calls ≡ self.old.calls }
        ensures made { self.new.made ≤ self.old.made }
        ensures counted { self.new.made + owed_rows self.old.rows
            ≡ self.old.made + owed_rows self.new.rows }
        ensures loose { self.new.loose ≡ true }
        ensures room { Roomy self.old.room self.new.room }
        ensures capacity { let new = self.new.capacity in
            new ≡ record self.old.capacity { threads = new.threads } }
        ensures lives { GainsNoLives self.old self.new }
    {
        self.loose = true;
        self.procs.free_thread_born(birth);
        self.lives.remove_thread(birth);
    }

    /// The row of a process goes of which no thread lives. Its number and its table of handles stay.
    pub fn processes_free(&mut self, birth: Birth)
        requires empty { has_holders self.old.rows (process_name birth) ≡ false }
        ensures rows { self.new.rows ≡ after self.old (Frees (process_name birth)) }
        ensures births { self.new.births ≡ self.old.births }
        ensures calls { self.new.calls ≡ self.old.calls }
        ensures made { self.new.made ≤ self.old.made }
        ensures counted { self.new.made + owed_rows self.old.rows
            ≡ self.old.made + owed_rows self.new.rows }
        ensures loose { self.new.loose ≡ true }
        ensures room { Roomy self.old.room self.new.room }
        ensures capacity { let new = self.new.capacity in
            new ≡ record self.old.capacity { processes = new.processes } }
        ensures lives { GainsNoLives self.old self.new }
    {
        let hearers = self.hearers_born(birth);
        self.loose = true;
        self.procs.free_process_born(birth);
        self.suspects.add_both(hearers);
        self.lives.remove_process(birth);
    }

    /// A port that no row names goes. Its room is spare then.
    pub fn ports_free(&mut self, port: Key)
        requires stands { stands self.old.births.ports port ≡ true }
        requires free { held.is_named self.old.rows (birth_at self.old port) ≡ false }
        ensures rows { self.new.rows
            ≡ after self.old (Frees (port_name (birth_at self.old port))) }
        ensures others { KeepsOthers port self.old.births.ports self.new.births.ports }
        ensures sections { self.new.births.sections ≡ self.old.births.sections }
        ensures tokens { self.new.births.tokens ≡ self.old.births.tokens }
        ensures calls { self.new.calls ≡ self.old.calls }
        ensures made { self.new.made ≤ self.old.made }
        ensures counted { self.new.made + owed_rows self.old.rows
            ≡ self.old.made + owed_rows self.new.rows }
        ensures loose { self.new.loose ≡ true }
        ensures room { Roomy self.old.room self.new.room }
        ensures capacity { self.new.capacity ≡ self.old.capacity }
        ensures lives { GainsNoLives self.old self.new }
    {
        let row = self.port(port);
        let other = row.pair;
        let connection = row.connection;
        self.loose = true;
        self.ports.free(port);
        self.suspects.add_some(other);
        self.suspects.add_some(connection);
    }
}
