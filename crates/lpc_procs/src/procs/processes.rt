// What is told of processes.
ghost use Rattle.std.specs.Prelude.{◌≡◌, ◌<◌, ◌≤◌, true, length, is_some, option_copied, option_map, slice_get, Some};
ghost use Rattle.lpc_base.specs.Rows.{count, first, has};
ghost use Rattle.lpc_procs.specs.Kept.{lives_in_first};
ghost use Rattle.lpc_procs.specs.Procs.{first_process, is_live_child, is_process_born, lives_by, lives_in, process_at, process_life};

use crate::births::{ChildOf, ProcessNamed};
use crate::keys::{process_key, row_at};
use crate::lists::LivesIn;
use crate::procs::Procs;
use crate::rows::Counted;
use crate::searches::{count_rows, first_row};
use crate::{Life, ProcessRow, births};
use lpc_base::Birth;
use lpc_tokens::TokenRef;

impl<'t> Procs<'t> {
    /// How many processes have a row.
    pub fn processes(&self) -> usize
        ensures count { result ≡ length self.now.processes }
    {
        self.processes.count()
    }

    /// The name of the process at a place, and whether it is live. Places go from 0 in the order of making.
    pub fn process_in(&self, place: usize) -> Life
        requires place { place < length self.now.processes }
        ensures life { option_map (process_life self.now.threads)
            (slice_get self.now.processes place) ≡ Some result }
    {
        let p = row_at(&self.processes, place);
        Life {
            birth: p.row.birth,
            live: births::is_peopled(p),
        }
    }

    /// The process at a place. Places go from 0 in the order of making.
    pub fn process_at(&self, place: usize) -> &ProcessRow<'t>
        requires place { place < length self.now.processes }
        ensures process { slice_get self.now.processes place ≡ Some result.now }
    {
        &row_at(&self.processes, place).row
    }

    /// The number of the first process that was made under the name: None exactly where there is none.
    pub fn process_born(&self, birth: Birth) -> Option<u32>
        ensures number { result ≡ first_process (is_process_born birth) self.now }
    {
        match self.found_process_born(birth) {
            Some(p) => Some(p.row.number),
            None => None,
        }
    }

    /// How many live threads are of the process that was made under the name; one process at most was.
    pub fn lives_of_process(&self, birth: Birth) -> usize
        requires one { count (is_process_born birth) self.now.processes ≤ 1 }
        ensures count { result ≡ count (lives_by self.now birth) self.now.threads }
        ensures bound { result ≤ length self.now.threads }
    {
        match self.found_process_born(birth) {
            Some(process) => process.live,
            None => 0,
        }
    }

    /// The process that made a process that has a row, none where a directive did.
    pub fn maker(&self, pid: u32) -> Option<u32>
        requires present { is_some (process_at self.now pid) ≡ true }
        ensures maker { option_map (λ p. p.maker) (process_at self.now pid) ≡ Some result }
    {
        self.process(pid).maker
    }

    /// The token of a process that has a row.
    pub fn token(&self, pid: u32) -> &TokenRef<'t>
        requires present { is_some (process_at self.now pid) ≡ true }
        ensures token { option_map (λ p. p.token) (process_at self.now pid) ≡ Some result.now }
    {
        &self.process(pid).token
    }

    /// How many processes that this one made are live: a live thread is of them.
    pub fn live_children(&self, pid: u32) -> usize
        ensures count { result ≡ count (is_live_child self.now.threads pid) self.now.processes }
    {
        match self.children.of(pid) {
            Some(count) => count,
            None => count_rows(&self.processes, &ChildOf { pid }),
        }
    }

    /// The process has a live thread.
    pub fn is_live(&self, pid: u32) -> bool
        ensures live { result ≡ has (lives_in pid) self.now.threads }
    {
        self.live_count(pid) > 0
    }

    /// How many live threads the process has.
    pub fn live_count(&self, pid: u32) -> usize
        ensures count { result ≡ count (lives_in pid) self.now.threads }
    {
        match self.processes.get(process_key(&self.used_processes, pid)) {
            Some(process) => process.live,
            None => count_rows(&self.threads, &LivesIn { pid }),
        }
    }

    /// The row of a process that is present.
    pub(crate) fn process(&self, pid: u32) -> &ProcessRow<'t>
        requires { is_some (process_at self.now pid) ≡ true }
        ensures { process_at self.now pid ≡ Some result.now }
    {
        match self.processes.get(process_key(&self.used_processes, pid)) {
            Some(process) => &process.row,
            None => unreachable!(),
        }
    }

    /// The first process of the name, with its count.
    pub(crate) fn found_process_born(&self, birth: Birth) -> Option<&Counted<'t>>
        ensures process { option_map (λ p. p.row) (option_copied result)
            ≡ first (is_process_born birth) self.now.processes }
        ensures live { count (is_process_born birth) self.now.processes ≤ 1 →
            count (lives_by self.now birth) self.now.threads
            ≡ lives_in_first (option_copied result) }
    {
        if !self.process_names.is_single() {
            return first_row(&self.processes, &ProcessNamed { birth });
        }
        match self.process_names.number_named(birth) {
            Some(pid) => self.processes.get(process_key(&self.used_processes, pid)),
            None => None,
        }
    }
}
