// Processes and threads that are found by their makers and by their births.
ghost use Rattle.std.specs.Prelude.{◌≡◌, IfSome, option_map};
ghost use Rattle.lpc_base.specs.Rows.{first};
ghost use Rattle.lpc_model.specs.Creation as creation;
ghost use Rattle.lpc_model.specs.Found.{is_born_process, is_born_thread};
ghost use Rattle.lpc_rows.specs.Clauses.{born_thread, thread_row};

use crate::world::World;
use lpc_base::Birth;
use lpc_procs::BornThread;

impl<'t> World<'t> {
    /// How many processes that this one made are live.
    pub fn live_children(&self, pid: u32) -> usize
        ensures { result ≡ creation.live_children self.now.rows pid }
    {
        self.procs.live_children(pid)
    }

    /// The number of the process with a birth: None exactly where no row has it.
    pub fn process_born(&self, birth: Birth) -> Option<u32>
        ensures { result
            ≡ option_map (λ p. p.number) (first (is_born_process birth) self.now.rows.processes) }
    {
        self.procs.process_born(birth)
    }

    /// The thread with a birth, live or ended: None exactly where no row has it.
    pub fn thread_born(&self, birth: Birth) -> Option<BornThread>
        ensures thread { result
            ≡ option_map born_thread (first (is_born_thread birth) self.now.rows.threads) }
        ensures row { IfSome result (λ t.
            thread_row self.now.rows t.number
            ≡ first (is_born_thread birth) self.now.rows.threads) }
    {
        self.procs.thread_born(birth)
    }
}
