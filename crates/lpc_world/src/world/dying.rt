// Ports that threads register, and threads that end.
ghost use Rattle.std.specs.Prelude.{◌≡◌, ◌+◌, ◌<◌, ◌≤◌, Some, false, true, IfSome, option_map};
ghost use Rattle.lpc_base.specs.Rows.{first, has};
ghost use Rattle.lpc_model.specs.Basics.{Registers, Unregisters};
ghost use Rattle.lpc_model.specs.Found.{is_live_thread, is_thread, lives_in, waits_as};
ghost use Rattle.lpc_procs.specs.Procs.{is_of_birth};
ghost use Rattle.lpc_rows.specs.Clauses.{Finds, after, and_message, birth_at};
ghost use Rattle.lpc_rows.specs.Kept.{CanMake, IsStep, Roomy, owed_rows};
ghost use Rattle.lpc_rows.specs.Lawful.{are_single_threads};
ghost use Rattle.lpc_rows.specs.Names.{stands};
ghost use Rattle.lpc_rows.specs.Suspects.{home_birth, thread_birth};
ghost use Rattle.lpc_rows.specs.Registered as registered;
ghost use Rattle.lpc_rows.specs.Registered.{HasFewRegistrations, untold_of, death_shown, with_ended};

use crate::world::World;
use lpc_base::Birth;
use lpc_message::ClientId;
use lpc_procs::{Number, Registration};
use lpc_rows::Death;
use lpc_slots::Key;

impl<'t> World<'t> {
    /// A port is registered with a thread that registered fewer than 16, behind those. There is a place for the message
    /// that is to tell of the thread's end.
    pub fn procs_register(&mut self, tid: u32, port: Key)
        requires thread { has (is_thread tid) self.old.rows.threads ≡ true }
        requires port { stands self.old.births.ports port ≡ true }
        requires few { HasFewRegistrations self.old.rows tid }
        requires room { 0 < self.old.room.messages }
        requires budget { CanMake self.old }
        ensures rows { self.new.rows ≡ after self.old (Registers tid (birth_at self.old port)) }
        ensures births { self.new.births ≡ self.old.births }
        ensures calls { self.new.calls ≡ self.old.calls }
        ensures loose { self.new.loose ≡ self.old.loose }
        ensures made { self.new.made ≡ self.old.made + 1 }
        ensures room { Roomy self.old.room (and_message self.new.room) }
        ensures capacity { self.new.capacity ≡ self.old.capacity }
    {
        let birth = self.port(port).birth;
        self.procs.register(tid, port, birth);
    }

    /// The registration of a port with a thread goes. The place that it had is free for the message that tells of the
    /// thread's end.
    pub fn procs_unregister(&mut self, tid: u32, birth: Birth)
        requires registered { registered.has_registered self.old.rows tid birth ≡ true }
        ensures rows { self.new.rows ≡ after self.old (Unregisters tid birth) }
        ensures births { self.new.births ≡ self.old.births }
        ensures calls { self.new.calls ≡ self.old.calls }
        ensures loose { self.new.loose ≡ true }
        ensures made { self.new.made + 1 ≤ self.old.made }
        ensures counted { self.new.made + owed_rows self.old.rows
            ≡ self.old.made + owed_rows self.new.rows }
        ensures budget { CanMake self.new }
        ensures room { Roomy self.old.room self.new.room }
        ensures place { 0 < self.new.room.messages }
        ensures capacity { self.new.capacity ≡ self.old.capacity }
    {
        let port = registered_key(self.procs.registrations_of(tid), birth);
        self.loose = true;
        self.procs.unregister(tid, birth);
        self.suspects.add_some(port);
    }

    /// A live thread ends, which doesn't wait.
    pub fn procs_end_thread(&mut self, tid: u32)
        requires live { has (is_live_thread tid) self.old.rows.threads ≡ true }
        requires ready { has (waits_as tid) self.old.rows.waits ≡ false }
        ensures step { IsStep (with_ended self.old.rows tid) self.old self.new }
        ensures loose { self.new.loose ≡ true }
        ensures capacity { self.new.capacity ≡ self.old.capacity }
    {
        let born = self.born_of_live(tid);
        self.loose = true;
        self.suspects.add_each(self.procs.registrations_of(tid));
        self.procs.end_thread(tid);
        self.lives.suspect_thread(born.0);
        self.lives.suspect_process(born.1);
    }

    /// The birth of a live thread, and that of its process.
    fn born_of_live(&self, tid: u32) -> (Birth, Birth)
        requires { has (is_live_thread tid) self.now.rows.threads ≡ true }
        ensures thread { thread_birth self.now.rows tid ≡ Some result.0 }
        ensures process { home_birth self.now.rows tid ≡ Some result.1 }
    {
        match self.live_thread(tid) {
            Some(thread) => (
                thread.birth,
                self.procs.birth(Number::Process(thread.process)),
            ),
            None => unreachable!(),
        }
    }

    /// The client port of a thread's accepted connect: None exactly where the thread doesn't wait with one.
    pub fn accepted_port(&self, tid: u32) -> Option<Key>
        ensures port { Finds result (birth_at self.now)
            (registered.accepted_port self.now.rows tid) }
        ensures stands { IfSome result (λ key. stands self.now.births.ports key ≡ true) }
    {
        self.waits.accepted_port(tid)
    }

    /// The first live thread of a process, in the order of making.
    pub fn first_live(&self, pid: u32) -> Option<u32>
        ensures found { option_map (λ t. t.number) (first (lives_in pid) self.now.rows.threads)
            ≡ result }
    {
        self.procs.first_live(pid)
    }

    /// What isn't told yet of the threads of a process that have ended, of the thread that was made first the port that
    /// it registered first: None exactly where all is told.
    pub fn first_untold(&self, pid: u32) -> Option<Death>
        ensures found { Finds result death_shown
            (first (λ _. true) (untold_of self.now.rows pid)) }
        ensures single { are_single_threads self.now.rows.threads ≡ true }
        ensures port { IfSome result (λ u. stands self.now.births.ports u.port ≡ true) }
        ensures name { IfSome result (λ u. birth_at self.now u.port ≡ u.registered) }
    {
        let (thread, registration) = self.procs.first_to_tell(pid)?;
        Some(Death {
            client: ClientId {
                process: pid,
                thread,
            },
            birth: self.procs.birth(Number::Thread(thread)),
            port: registration.port,
            registered: registration.birth,
        })
    }
}

// The key of the port with a birth among registrations: None where none of them is of it.
fn registered_key(registered: &[Registration], birth: Birth) -> Option<Key>
    ensures { result ≡ option_map (λ r. r.port) (first (is_of_birth birth) registered.now) }
{
    for r in registered {
        if birth == r.birth {
            return Some(r.port);
        }
    }
    None
}
