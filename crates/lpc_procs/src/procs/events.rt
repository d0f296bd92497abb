// The ports that are told of processes' exceptions, and the processes that are to end.
ghost use Rattle.std.specs.Prelude.{◌≡◌, ◌*◌, ◌<◌, ◌≤◌, true, false, length, is_some, option_map, Some};
ghost use Rattle.lpc_base.specs.Rows.{count, has};
ghost use Rattle.lpc_procs.specs.Procs.{debugged, doomed, event_ports, excepted, has_event_port, is_of_birth, least_doomed, portless, process_at, registration, with_process};

use crate::exceptions::Told;
use crate::keys::process_key;
use crate::procs::Procs;
use crate::searches::first_row;
use crate::tags::{tag_of, untag};
use crate::{Doomed, Registration, exceptions};
use lpc_base::Birth;
use lpc_slots::Key;

impl<'t> Procs<'t> {
    /// The port that is told of the exceptions of a process that has a row, before its frame handlers are, and again
    /// behind them: None until it is set.
    pub fn debug_port(&self, pid: u32) -> Option<Registration>
        requires present { is_some (process_at self.now pid) ≡ true }
        ensures port { option_map (λ p. p.debug_port) (process_at self.now pid) ≡ Some result }
    {
        self.process(pid).debug_port
    }

    /// The port that is told at last of the exceptions of a process that has a row: None until it is set.
    pub fn exception_port(&self, pid: u32) -> Option<Registration>
        requires present { is_some (process_at self.now pid) ≡ true }
        ensures port { option_map (λ p. p.exception_port) (process_at self.now pid)
            ≡ Some result }
    {
        self.process(pid).exception_port
    }

    /// The code with which a process that has a row is to end: None where it isn't.
    pub fn doom(&self, pid: u32) -> Option<u32>
        requires present { is_some (process_at self.now pid) ≡ true }
        ensures code { option_map (λ p. p.doom) (process_at self.now pid) ≡ Some result }
    {
        self.process(pid).doom
    }

    /// Gives a process, which has a row, its debug port, by its key and its birth.
    pub fn set_debug_port(&mut self, pid: u32, port: Key, birth: Birth)
        requires present { is_some (process_at self.old pid) ≡ true }
        ensures table { let r = registration port birth in
            self.new ≡ with_process self.old pid (debugged r) }
    {
        match self
            .processes
            .get_mut(process_key(&self.used_processes, pid))
        {
            Some(process) => {
                let others = self.watched - exceptions::watched_count(process);
                untag(&mut self.told_tags, process.row.debug_port);
                self.told_tags.add(tag_of(birth));
                process.row.debug_port = Some(Registration { port, birth });
                self.watched = others + 1;
            }
            None => unreachable!(),
        }
    }

    /// Gives a process, which has a row, its exception port, by its key and its birth.
    pub fn set_exception_port(&mut self, pid: u32, port: Key, birth: Birth)
        requires present { is_some (process_at self.old pid) ≡ true }
        ensures table { let r = registration port birth in
            self.new ≡ with_process self.old pid (excepted r) }
    {
        match self
            .processes
            .get_mut(process_key(&self.used_processes, pid))
        {
            Some(process) => {
                let others = self.watched - exceptions::watched_count(process);
                untag(&mut self.told_tags, process.row.exception_port);
                self.told_tags.add(tag_of(birth));
                process.row.exception_port = Some(Registration { port, birth });
                self.watched = others + 1;
            }
            None => unreachable!(),
        }
    }

    /// Takes its debug port and its exception port from a process, which has a row.
    pub fn let_go(&mut self, pid: u32)
        requires present { is_some (process_at self.old pid) ≡ true }
        ensures table { self.new ≡ with_process self.old pid portless }
    {
        match self
            .processes
            .get_mut(process_key(&self.used_processes, pid))
        {
            Some(process) => {
                let others = self.watched - exceptions::watched_count(process);
                untag(&mut self.told_tags, process.row.debug_port);
                untag(&mut self.told_tags, process.row.exception_port);
                process.row.debug_port = None;
                process.row.exception_port = None;
                self.watched = others;
            }
            None => unreachable!(),
        }
    }

    /// Notes the code with which a process, which has a row, is to end. Of several codes the first stays.
    pub fn set_doom(&mut self, pid: u32, code: u32)
        requires present { is_some (process_at self.old pid) ≡ true }
        ensures table { self.new ≡ with_process self.old pid (doomed code) }
    {
        match self
            .processes
            .get_mut(process_key(&self.used_processes, pid))
        {
            Some(process) => {
                let others = self.dooms - exceptions::doomed_count(process);
                process.row.doom = Some(exceptions::first_code(code, process.row.doom));
                self.dooms = others + exceptions::doomed_count(process);
            }
            None => unreachable!(),
        }
    }

    /// The port with a birth is told of the exceptions of a process.
    pub fn is_event_port(&self, birth: Birth) -> bool
        ensures told { result ≡ has (has_event_port birth) self.now.processes }
    {
        if self.is_unheard(birth) {
            return false;
        }
        first_row(&self.processes, &Told { birth }).is_some()
    }

    /// How many debug ports and exception ports of processes are the port with a birth.
    pub fn event_ports_to(&self, birth: Birth) -> usize
        ensures count { result ≡ count (is_of_birth birth) (event_ports self.now.processes) }
        ensures bound { result ≤ 2 * length self.now.processes }
    {
        if self.is_unheard(birth) {
            return 0;
        }
        exceptions::event_ports_to(&self.processes, birth)
    }

    /// True where the counts rule out that the port with a birth is told of a process's exceptions.
    ///
    /// False says nothing of this port, but that some port is told of exceptions: names may share a tag, and a tally in
    /// which not each such port was counted rules nothing out.
    fn is_unheard(&self, birth: Birth) -> bool
        ensures none { result ≡ true →
            count (is_of_birth birth) (event_ports self.now.processes) ≡ 0 }
        ensures some { result ≡ false → 0 < length (event_ports self.now.processes) }
    {
        if self.watched == 0 {
            return true;
        }
        self.told_tags.has_none(tag_of(birth))
    }

    /// Of the processes that are to end and are live the one of the least number, with its code: None exactly where there
    /// is none.
    pub fn least_doomed(&self) -> Option<Doomed>
        ensures process { result ≡ least_doomed self.now }
    {
        if self.dooms == 0 {
            return None;
        }
        exceptions::least_doomed(&self.processes)
    }
}
