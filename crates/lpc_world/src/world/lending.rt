// The tables as they are lent for reading: each with the rows that it stands for, and what the world keeps of them.
ghost use Rattle.std.specs.Prelude.{◌≡◌, ◌*◌, ◌≤◌, map, true};
ghost use Rattle.lpc_base.specs.Rows.{every, has};
ghost use Rattle.lpc_base.specs.declared.limits.TheConstants.{HANDLE_LIMIT, LINES_LIMIT};
ghost use Rattle.lpc_model.specs.Found.{handles_of, is_table, is_taken, objects};
ghost use Rattle.lpc_model.specs.Tests.{handle_load};
ghost use Rattle.lpc_model.specs.World.{Known};
ghost use Rattle.lpc_rows.specs.Kept.{CALL_BUDGET, OwnPend};
ghost use Rattle.lpc_rows.specs.Lawful.{AreBornIn, are_single};
ghost use Rattle.lpc_rows.specs.Names.{are_apart};
ghost use Rattle.lpc_rows.specs.Shown.{binding_refs, message_refs, part_refs, port_names, port_refs, section_names, shown_binding, shown_content, shown_handle, shown_message, shown_part, shown_port, shown_process, shown_section, shown_space, shown_thread, shown_token, shown_token_name, shown_used, shown_wait, space_refs, token_births, wait_refs};
ghost use Rattle.lpc_rows.specs.Clauses.{all_stand, shown_in};
ghost use Rattle.lpc_slots.specs.Table.{listed};

use crate::world::World;
use lpc_handles::Table;
use lpc_homes::{Object, Part};
use lpc_names::Names;
use lpc_ports::Ports;
use lpc_procs::Procs;
use lpc_sections::Section;
use lpc_slots::{Key, Slots};
use lpc_tokens::{TokenNames, TokenRow};
use lpc_waits::Waits;

impl<'t> World<'t> {
    /// Processes, threads, and the numbers ever used.
    pub fn procs(&self) -> &Procs<'t>
        ensures processes { self.now.rows.processes ≡ map shown_process result.now.processes }
        ensures threads { self.now.rows.threads ≡ map shown_thread result.now.threads }
        ensures used_processes { self.now.rows.used_processes ≡ result.now.used_processes }
        ensures used_threads { self.now.rows.used_threads
            ≡ map shown_used result.now.used_threads }
        ensures born { AreBornIn self.now.rows }
        ensures few { objects self.now.rows ≤ CALL_BUDGET * LINES_LIMIT }
    {
        &self.procs
    }

    /// Ports, and the messages in their queues.
    pub fn ports(&self) -> &Ports<'t>
        ensures births { self.now.births.ports ≡ port_names result.now }
        ensures apart { are_apart self.now.births.ports ≡ true }
        ensures ports { self.now.rows.ports ≡ shown_in self.now shown_port result.now.ports }
        ensures messages { self.now.rows.messages
            ≡ shown_in self.now shown_message result.now.messages }
        ensures ports_stand { all_stand self.now port_refs result.now.ports ≡ true }
        ensures messages_stand { all_stand self.now message_refs result.now.messages ≡ true }
    {
        &self.ports
    }

    /// Sections, with their bytes.
    pub fn sections(&self) -> &Slots<Section>
        ensures births { self.now.births.sections ≡ section_names result.now }
        ensures apart { are_apart self.now.births.sections ≡ true }
        ensures sections { self.now.rows.sections ≡ map shown_section (listed result.now) }
        ensures contents { self.now.rows.contents
            ≡ Known (map shown_content (listed result.now)) }
    {
        &self.sections
    }

    /// Tokens.
    pub fn tokens(&self) -> &Slots<TokenRow<'t>>
        ensures births { self.now.births.tokens ≡ token_births result.now }
        ensures apart { are_apart self.now.births.tokens ≡ true }
        ensures tokens { self.now.rows.tokens ≡ map shown_token (listed result.now) }
    {
        &self.tokens
    }

    /// The tokens that have names, with their names.
    pub fn token_names(&self) -> &TokenNames<'t>
        ensures names { self.now.rows.token_names ≡ map shown_token_name result.now.rows }
    {
        &self.token_names
    }

    /// The waits of threads.
    pub fn waits(&self) -> &Waits
        ensures waits { self.now.rows.waits ≡ shown_in self.now shown_wait result.now.rows }
        ensures stand { all_stand self.now wait_refs result.now.rows ≡ true }
        ensures apart { are_apart self.now.births.ports ≡ true }
        ensures single { are_single self.now.rows.waits ≡ true }
        ensures taken { every is_taken self.now.rows.waits ≡ true }
        ensures own { OwnPend self.now.rows }
    {
        &self.waits
    }

    /// The threads whose events are marked as not handled, by their numbers. Places go from 0 in the order of marking.
    pub fn marks(&self) -> &[u32]
        ensures marks { result.now ≡ self.now.rows.marks }
    {
        self.marks.list()
    }

    /// The name space: directories, links, and ports.
    pub fn names(&self) -> &Names<Key>
        ensures bindings { self.now.rows.bindings
            ≡ shown_in self.now shown_binding result.now.bindings }
        ensures stand { all_stand self.now binding_refs result.now.bindings ≡ true }
    {
        self.names.list()
    }

    /// The handles and the views of each process. Places go from 0 in the order in which the processes were made; a part
    /// stays when its process goes.
    pub fn parts(&self) -> &[Part]
        ensures handles { self.now.rows.handles ≡ shown_in self.now shown_part result.now }
        ensures views { self.now.rows.views ≡ shown_in self.now shown_space result.now }
        ensures handles_stand { all_stand self.now part_refs result.now ≡ true }
        ensures views_stand { all_stand self.now space_refs result.now ≡ true }
    {
        self.parts.items()
    }

    /// The handles of a process that stands.
    pub fn handles(&self, pid: u32) -> &Table<Object>
        requires { has (is_table pid) self.now.rows.handles ≡ true }
        ensures rows { handles_of self.now.rows pid
            ≡ shown_in self.now shown_handle result.now.rows }
        ensures load { handle_load self.now.rows pid ≤ HANDLE_LIMIT }
    {
        self.parts.handles_of(pid)
    }
}
