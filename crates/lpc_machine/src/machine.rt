// The machine, and one line's step.
ghost use Rattle.std.specs.Prelude.{ℕ, ◌≡◌, ◌≤◌, ◌<◌, ◌+◌, [], ◌∷◌, ◌++◌, true, false, length, IsOk, OnOk, OnErr, IsErr};
ghost use Rattle.lpc_model.specs.World.{no_rows};
ghost use Rattle.lpc_model.specs.Found as found;
ghost use Rattle.lpc_model.specs.Found.{live_thread};
ghost use Rattle.lpc_model.specs.Grammar.{has_call_ids, has_ids};
ghost use Rattle.lpc_model.specs.Lines.{call_of, line_of};
ghost use Rattle.lpc_model.specs.Lines as script;
ghost use Rattle.lpc_model.specs.Linked.{HasHeldRows};
ghost use Rattle.lpc_model.specs.Standing.{NamesWhatStands};
ghost use Rattle.lpc_model.specs.Closings.{ClosingsAreTold};
ghost use Rattle.lpc_model.specs.Creators.{KeepsConnects};
ghost use Rattle.lpc_model.specs.Deaths.{DeathsAreTold, HasLivingRegistrations, HasSingleRegistrations};
ghost use Rattle.lpc_model.specs.Left.{LeavesNothing};
ghost use Rattle.lpc_model.specs.SingleClosings.{HasSingleClosings};
ghost use Rattle.lpc_base.specs.declared.limits.TheConstants.{LINES_LIMIT};
ghost use Rattle.lpc_model.specs.Machine.{bare_step, hosting_status, own_steps, step, thread_steps};
ghost use Rattle.lpc_model.specs.Settle as settling;
ghost use Rattle.lpc_model.specs.SoundViews.{HasSoundOffers, HasSoundViews};
ghost use Rattle.lpc_model.specs.SoundWaits.{HasSoundWaits};
ghost use Rattle.lpc_model.specs.declared.entry.Entry.TheVariants as entry;
ghost use Rattle.lpc_closing.specs.Closing.{CanClose};
ghost use Rattle.lpc_death.specs.Ends.{CanEnd};
ghost use Rattle.lpc_machine.specs.Settled.{IsSettled};
ghost use Rattle.lpc_machine.specs.Unsettling.{call_unsettles, unsettles};
ghost use Rattle.lpc_machine.specs.Growth.{KeepsOtherViews, KeepsViewsBeside, call_adds, caller_process, line_adds, most_handles, most_messages, most_ports, most_processes, most_sections, most_threads, most_tokens, most_views, most_waits, process_of};
ghost use Rattle.lpc_machine.specs.Short.{has_short_name};
ghost use Rattle.lpc_machine.specs.Memory.{GoesOn, Halts, call_takes_memory, lacks_call_room, lacks_room, makes_call, takes_memory};
ghost use Rattle.lpc_rows.specs.Called.{MayServe, service};
ghost use Rattle.lpc_rows.specs.Does.{Took};
ghost use Rattle.lpc_rows.specs.Capacity.{KeepsOtherPlaces, but_lives, but_names, handle_places, view_places};
ghost use Rattle.lpc_rows.specs.Kept.{Same};
ghost use Rattle.lpc_rows.specs.Ready as ready;
ghost use Rattle.lpc_rows.specs.Ready.{HasRoom, caller, is_ready};
ghost use Rattle.lpc_steps.specs.Settling.{CanSettle};

use crate::reading::{Condition, condition_of, objects, room_needed};
use crate::settling::settle;
use lpc_base::status::{INVALID_CID, SUCCESS};
use lpc_base::{OutOfMemory, Status};
use lpc_closing::{nt_close, nt_duplicate_object, nt_query_object};
use lpc_connect::{
    nt_accept_connect_port, nt_complete_connect_port, nt_connect_port, nt_create_port,
    nt_listen_port,
};
use lpc_death::{
    nt_create_process, nt_create_thread, nt_set_information_process, nt_terminate_process,
    nt_terminate_thread,
};
use lpc_directives::{boot, directory, link, thread, token};
use lpc_except::raise;
use lpc_imperson::{
    nt_impersonate_client_of_port, nt_open_process_token, nt_open_thread_token,
    nt_query_information_token, nt_set_information_thread,
};
use lpc_model::{Call, Entries, Entry, Line, Outcome, Word};
use lpc_ranges::{
    nt_create_section, nt_map_view_of_section, nt_read_request_data, nt_read_virtual_memory,
    nt_unmap_view_of_section, nt_write_request_data, nt_write_virtual_memory,
};
use lpc_request::{
    nt_register_thread_terminate_port, nt_reply_port, nt_reply_wait_receive_port, nt_request_port,
    nt_request_wait_reply_port,
};
use lpc_sweep::sweep;
use lpc_tokens::TokenArena;
use lpc_world::World;
use std::alloc::Global;
use std::marker::Model;

/// The world of a run, and its step.
///
/// A clause sees the rows that it stands for, in the definitions' words, and how many directive and service calls were
/// made on it. Each of its waits is sound: what its thread waits for can still come, and hasn't come yet. Some row
/// counts for each object that stands.
#[derive(Drop)]
pub struct Machine<'t> {
    world: World<'t>,
}

impl<'t> Model for Machine<'t> {
    ghost use Rattle.lpc_machine.specs.Settled.{IsSettled};
    ghost use Rattle.lpc_rows.specs.Kept.{Kept};

    ghost Value = { Kept };

    ghost view = { λ m. m.world };

    ghost invariant = { λ m. IsSettled m.world };
}

/// Tells how a directive ended.
fn tell(word: Word, status: Status, out: &mut Entries)
    requires spare { 1 ≤ out.old.spare }
    ensures told { out.new.list ≡ out.old.list ++ entry.Directive word status ∷ [] }
{
    out.push(Entry::Directive { word, status });
}

/// A call of a thread that can make it.
#[tactic(auto, using(crate::proofs::Asked::ports_within, crate::proofs::Asked::messages_within, crate::proofs::Asked::waits_within, crate::proofs::Asked::processes_within, crate::proofs::Asked::threads_within, crate::proofs::Asked::sections_within, crate::proofs::Asked::tokens_within, crate::proofs::Asked::handles_within, crate::proofs::Asked::same_handles_within, crate::proofs::Asked::views_within, crate::proofs::Asked::same_views_within))]
fn serve(
    world: &mut World,
    by: u32,
    call: &Call<'_>,
    out: &mut Entries,
) -> Result<Outcome, OutOfMemory>
    requires ready { is_ready world.old.rows by ≡ true }
    requires room { HasRoom world.old out.old }
    requires calls { world.old.calls < LINES_LIMIT }
    requires can { CanClose world.old.rows }
    requires ends { CanEnd world.old.rows }
    requires views { HasSoundViews world.old.rows }
    requires offers { HasSoundOffers world.old.rows }
    requires ids { has_call_ids (call_of call.now) ≡ true }
    requires unread { out.old.reads ≡ false }
    requires unmarked { world.old.rows.marks ≡ [] }
    ensures serves { MayServe by (call_of call.now) result world.old world.new out.old out.new }
    ensures settles { call_unsettles (call_of call.now) ≡ true →
        CanSettle world.new out.new }
    ensures wanting { OnErr result (lacks_call_room world.old by (call_of call.now) ≡ true) }
    ensures free { call_takes_memory (call_of call.now) ≡ false → IsOk result }
    ensures capacity { call_takes_memory (call_of call.now) ≡ false →
        but_names world.new.capacity ≡ but_names world.old.capacity }
    ensures unasked { IsErr (service world.old.rows by (call_of call.now)) →
        but_names world.new.capacity ≡ but_names world.old.capacity }
    ensures asked_ports { let added = call_adds (call_of call.now) in
        world.new.capacity.ports ≤ most_ports world.old added.ports }
    ensures asked_messages { let added = call_adds (call_of call.now) in
        world.new.capacity.messages ≤ most_messages world.old added.messages }
    ensures asked_waits { let added = call_adds (call_of call.now) in
        world.new.capacity.waits ≤ most_waits world.old added.waits }
    ensures asked_processes { let added = call_adds (call_of call.now) in
        world.new.capacity.processes ≤ most_processes world.old added.processes }
    ensures asked_threads { let added = call_adds (call_of call.now) in
        world.new.capacity.threads ≤ most_threads world.old added.threads }
    ensures asked_sections { let added = call_adds (call_of call.now) in
        world.new.capacity.sections ≤ most_sections world.old added.sections }
    ensures asked_tokens { let added = call_adds (call_of call.now) in
        world.new.capacity.tokens ≤ most_tokens world.old added.tokens }
    ensures asked_handles { let added = call_adds (call_of call.now) in
        let pid = caller_process world.old.rows by in
        handle_places world.new.capacity pid ≤ most_handles world.old pid added.handles }
    ensures other_handles { let pid = caller_process world.old.rows by in
        KeepsOtherPlaces pid world.old.capacity world.new.capacity }
    ensures asked_views { let added = call_adds (call_of call.now) in (pid : ℕ) →
        view_places world.new.capacity pid ≤ most_views world.old pid added.views }
    ensures other_views { let by = caller world.old.rows by in
        KeepsViewsBeside by (call_of call.now) world.old world.new }
{
    match call {
        Call::CreatePort { name, dacl } => nt_create_port(world, by, *name, *dacl, out),
        Call::ConnectPort {
            name,
            quality,
            view,
            info,
        } => nt_connect_port(world, by, name, *quality, *view, info, out),
        Call::ListenPort { handle } => Ok(nt_listen_port(world, by, *handle, out)),
        Call::AcceptConnectPort {
            context,
            message,
            accept,
            view,
        } => nt_accept_connect_port(world, by, *context, message, *accept, *view, out),
        Call::CompleteConnectPort { handle } => {
            Ok(nt_complete_connect_port(world, by, *handle, out))
        }
        Call::RequestPort { handle, message } => nt_request_port(world, by, *handle, message, out),
        Call::RequestWaitReplyPort { handle, message } => {
            Ok(nt_request_wait_reply_port(world, by, *handle, message, out))
        }
        Call::ReplyPort { handle, message } => Ok(nt_reply_port(world, by, *handle, message, out)),
        Call::ReplyWaitReceivePort { handle, reply } => {
            Ok(nt_reply_wait_receive_port(world, by, *handle, *reply, out))
        }
        Call::RegisterThreadTerminatePort { handle } => {
            nt_register_thread_terminate_port(world, by, *handle, out)
        }
        Call::Close { handle } => Ok(nt_close(world, by, *handle, out)),
        Call::DuplicateObject { handle, access } => {
            nt_duplicate_object(world, by, *handle, *access, out)
        }
        Call::QueryObject { handle } => Ok(nt_query_object(world, by, *handle, out)),
        Call::CreateProcess { pid, tid } => nt_create_process(world, by, *pid, *tid, out),
        Call::CreateThread { process, tid } => nt_create_thread(world, by, *process, *tid, out),
        Call::TerminateThread { thread, code } => {
            Ok(nt_terminate_thread(world, by, *thread, *code, out))
        }
        Call::TerminateProcess { process, code } => {
            Ok(nt_terminate_process(world, by, *process, *code, out))
        }
        Call::CreateSection { size, protection } => {
            nt_create_section(world, by, *size, *protection, out)
        }
        Call::MapViewOfSection {
            handle,
            offset,
            size,
            protection,
        } => nt_map_view_of_section(world, by, *handle, *offset, *size, *protection, out),
        Call::UnmapViewOfSection { address } => {
            Ok(nt_unmap_view_of_section(world, by, *address, out))
        }
        Call::ReadVirtualMemory { address, length } => {
            Ok(nt_read_virtual_memory(world, by, *address, *length, out))
        }
        Call::WriteVirtualMemory { address, bytes } => {
            Ok(nt_write_virtual_memory(world, by, *address, bytes, out))
        }
        Call::ReadRequestData {
            handle,
            message,
            index,
            length,
        } => {
            let outcome = nt_read_request_data(world, by, *handle, message, *index, *length, out);
            Ok(outcome)
        }
        Call::WriteRequestData {
            handle,
            message,
            index,
            bytes,
        } => {
            let outcome = nt_write_request_data(world, by, *handle, message, *index, bytes, out);
            Ok(outcome)
        }
        Call::ImpersonateClientOfPort { handle, message } => {
            Ok(nt_impersonate_client_of_port(world, by, *handle, message, out))
        }
        Call::SetInformationThread { class } => {
            Ok(nt_set_information_thread(world, by, *class, out))
        }
        Call::OpenThreadToken => nt_open_thread_token(world, by, out),
        Call::OpenProcessToken => nt_open_process_token(world, by, out),
        Call::QueryInformationToken { handle, class } => {
            Ok(nt_query_information_token(world, by, *handle, *class, out))
        }
        Call::SetInformationProcess {
            process,
            class,
            port,
        } => Ok(nt_set_information_process(world, by, *process, *class, *port, out)),
        Call::Raise { code, handled } => Ok(raise(world, by, *code, *handled, out)),
    }
}

/// A call of a thread, which makes it where it lives and doesn't wait.
#[tactic(auto, using(crate::proofs::Asked::ports_within, crate::proofs::Asked::messages_within, crate::proofs::Asked::waits_within, crate::proofs::Asked::processes_within, crate::proofs::Asked::threads_within, crate::proofs::Asked::sections_within, crate::proofs::Asked::tokens_within, crate::proofs::Asked::handles_within, crate::proofs::Asked::same_handles_within, crate::proofs::Asked::views_within, crate::proofs::Asked::same_views_within))]
fn run(world: &mut World, tid: u32, call: &Call<'_>, out: &mut Entries) -> Result<(), OutOfMemory>
    requires room { HasRoom world.old out.old }
    requires calls { world.old.calls < LINES_LIMIT }
    requires settled { IsSettled world.old }
    requires ids { has_call_ids (call_of call.now) ≡ true }
    requires unread { out.old.reads ≡ false }
    ensures takes { let t = live_thread world.old.rows tid in
        let steps = thread_steps tid (call_of call.now) t world.old.rows in
        OnOk result (Took steps world.old world.new out.old out.new) }
    ensures settles { OnOk result
        (unsettles world.old.rows (script.run tid (call_of call.now)) ≡ true →
        CanSettle world.new out.new) }
    ensures counted { OnOk result (is_ready world.old.rows tid ≡ true →
        world.new.calls ≡ world.old.calls + 1) }
    ensures uncounted { OnOk result (is_ready world.old.rows tid ≡ false →
        world.new.calls ≡ world.old.calls) }
    ensures memory { OnErr result (Same world.old world.new) }
    ensures silent { OnErr result (out.new ≡ out.old) }
    ensures late { OnErr result (GoesOn world.old.rows (script.run tid (call_of call.now))) }
    ensures wanting { OnErr result (lacks_call_room world.old tid (call_of call.now) ≡ true) }
    ensures free { call_takes_memory (call_of call.now) ≡ false → IsOk result }
    ensures capacity { call_takes_memory (call_of call.now) ≡ false →
        but_names world.new.capacity ≡ but_names world.old.capacity }
    ensures unasked { Halts world.old.rows (script.run tid (call_of call.now)) →
        but_names world.new.capacity ≡ but_names world.old.capacity }
    ensures asked_ports { let added = call_adds (call_of call.now) in
        world.new.capacity.ports ≤ most_ports world.old added.ports }
    ensures asked_messages { let added = call_adds (call_of call.now) in
        world.new.capacity.messages ≤ most_messages world.old added.messages }
    ensures asked_waits { let added = call_adds (call_of call.now) in
        world.new.capacity.waits ≤ most_waits world.old added.waits }
    ensures asked_processes { let added = call_adds (call_of call.now) in
        world.new.capacity.processes ≤ most_processes world.old added.processes }
    ensures asked_threads { let added = call_adds (call_of call.now) in
        world.new.capacity.threads ≤ most_threads world.old added.threads }
    ensures asked_sections { let added = call_adds (call_of call.now) in
        world.new.capacity.sections ≤ most_sections world.old added.sections }
    ensures asked_tokens { let added = call_adds (call_of call.now) in
        world.new.capacity.tokens ≤ most_tokens world.old added.tokens }
    ensures asked_handles { let added = call_adds (call_of call.now) in
        let pid = caller_process world.old.rows tid in
        handle_places world.new.capacity pid ≤ most_handles world.old pid added.handles }
    ensures other_handles { let pid = caller_process world.old.rows tid in
        KeepsOtherPlaces pid world.old.capacity world.new.capacity }
    ensures asked_views { let added = call_adds (call_of call.now) in (pid : ℕ) →
        view_places world.new.capacity pid ≤ most_views world.old pid added.views }
    ensures other_views { let by = caller world.old.rows tid in
        KeepsViewsBeside by (call_of call.now) world.old world.new }
{
    match condition_of(world, tid) {
        Condition::Absent => out.push(Entry::NoThread { tid }),
        Condition::Waits => out.push(Entry::Busy { tid }),
        Condition::Ready => {
            serve(world, tid, call, out)?;
        }
    }
    Ok(())
}

/// Whether a server may come to a thread that has none: the thread lives.
fn hosting(world: &World, tid: u32) -> Status
    ensures { result ≡ hosting_status (live_thread world.now.rows tid) false }
{
    match world.live_thread(tid) {
        Some(_) => SUCCESS,
        None => INVALID_CID,
    }
}

/// What the directive or call of a line does on the world alone, before the world settles.
#[tactic(auto, unfolding(lpc_model::specs::Machine::own_steps), using(crate::proofs::Idle::hosts_alone, crate::proofs::Idle::turn_alone, crate::proofs::Asked::ports_within, crate::proofs::Asked::messages_within, crate::proofs::Asked::waits_within, crate::proofs::Asked::processes_within, crate::proofs::Asked::threads_within, crate::proofs::Asked::sections_within, crate::proofs::Asked::tokens_within, crate::proofs::Asked::handles_within, crate::proofs::Asked::same_handles_within, crate::proofs::Asked::views_within, crate::proofs::Asked::same_views_within))]
fn take(world: &mut World, line: &Line<'_>, out: &mut Entries) -> Result<(), OutOfMemory>
    requires empty { out.old.list ≡ [] }
    requires unread { out.old.reads ≡ false }
    requires room { HasRoom world.old out.old }
    requires few { world.old.calls < LINES_LIMIT }
    requires ids { has_ids (line_of line.now) ≡ true }
    requires named { has_short_name (line_of line.now) ≡ true }
    requires settled { IsSettled world.old }
    ensures takes { let steps = own_steps (line_of line.now) world.old.rows in
        OnOk result (Took steps world.old world.new out.old out.new) }
    ensures settles { OnOk result (unsettles world.old.rows (line_of line.now) ≡ true →
        CanSettle world.new out.new) }
    ensures err { OnErr result (Same world.old world.new) }
    ensures silent { OnErr result (out.new.list ≡ []) }
    ensures counted { OnOk result (makes_call world.old.rows (line_of line.now) ≡ true →
        world.new.calls ≡ world.old.calls + 1) }
    ensures uncounted { OnOk result (makes_call world.old.rows (line_of line.now) ≡ false →
        world.new.calls ≡ world.old.calls) }
    ensures late { OnErr result (GoesOn world.old.rows (line_of line.now)) }
    ensures wanting { OnErr result (lacks_room world.old (line_of line.now) ≡ true) }
    ensures free { takes_memory (line_of line.now) ≡ false → IsOk result }
    ensures capacity { takes_memory (line_of line.now) ≡ false →
        but_names world.new.capacity ≡ but_names world.old.capacity }
    ensures unasked { Halts world.old.rows (line_of line.now) →
        but_names world.new.capacity ≡ but_names world.old.capacity }
    ensures asked_ports { let added = line_adds (line_of line.now) in
        world.new.capacity.ports ≤ most_ports world.old added.ports }
    ensures asked_messages { let added = line_adds (line_of line.now) in
        world.new.capacity.messages ≤ most_messages world.old added.messages }
    ensures asked_waits { let added = line_adds (line_of line.now) in
        world.new.capacity.waits ≤ most_waits world.old added.waits }
    ensures asked_processes { let added = line_adds (line_of line.now) in
        world.new.capacity.processes ≤ most_processes world.old added.processes }
    ensures asked_threads { let added = line_adds (line_of line.now) in
        world.new.capacity.threads ≤ most_threads world.old added.threads }
    ensures asked_sections { let added = line_adds (line_of line.now) in
        world.new.capacity.sections ≤ most_sections world.old added.sections }
    ensures asked_tokens { let added = line_adds (line_of line.now) in
        world.new.capacity.tokens ≤ most_tokens world.old added.tokens }
    ensures asked_handles { let added = line_adds (line_of line.now) in
        let pid = process_of world.old.rows (line_of line.now) in
        handle_places world.new.capacity pid ≤ most_handles world.old pid added.handles }
    ensures other_handles { let pid = process_of world.old.rows (line_of line.now) in
        KeepsOtherPlaces pid world.old.capacity world.new.capacity }
    ensures asked_views { let added = line_adds (line_of line.now) in (pid : ℕ) →
        view_places world.new.capacity pid ≤ most_views world.old pid added.views }
    ensures other_views { KeepsOtherViews (line_of line.now) world.old world.new }
{
    match line {
        Line::Boot {
            pid,
            tid,
            token: name,
        } => {
            let status = boot(world, *pid, *tid, *name)?;
            tell(Word::Boot, status, out);
            Ok(())
        }
        Line::Thread { tid, pid } => {
            let status = thread(world, *tid, *pid)?;
            tell(Word::Thread, status, out);
            Ok(())
        }
        Line::Token {
            name,
            token: content,
        } => {
            let status = token(world, name, content)?;
            tell(Word::Token, status, out);
            Ok(())
        }
        Line::Dir(path) => {
            let status = directory(world, path)?;
            tell(Word::Dir, status, out);
            Ok(())
        }
        Line::Link { path, target } => {
            let status = link(world, path, target)?;
            tell(Word::Link, status, out);
            Ok(())
        }
        Line::Resident { tid, .. } => {
            let status = hosting(world, *tid);
            tell(Word::Resident, status, out);
            Ok(())
        }
        Line::Turn(_) => {
            tell(Word::Turn, INVALID_CID, out);
            Ok(())
        }
        Line::Run { tid, call } => run(world, *tid, call, out),
    }
}

impl<'t> Machine<'t> {
    /// A machine before its first line, whose tokens lie in this arena.
    pub fn new(alloc: Global, arena: &'t TokenArena) -> Machine<'t>
        ensures rows { result.rows ≡ no_rows }
        ensures calls { result.calls ≡ 0 }
    {
        Machine {
            world: World::empty(alloc, arena),
        }
    }

    /// The world as the lines so far have left it.
    pub fn world(&self) -> &World<'t>
        ensures world { result.now ≡ self.now }
        ensures sound { HasSoundWaits result.now.rows }
        ensures held { HasHeldRows result.now.rows }
        ensures named { NamesWhatStands result.now.rows }
        ensures settled { settling.IsSettled result.now.rows }
    {
        &self.world
    }

    /// The room for entries that one step asks for: three for each live thread, and one.
    pub fn room_needed(&self) -> usize
        ensures { result ≡ ready.room_needed self.now.rows }
    {
        room_needed(&self.world)
    }

    /// How many objects there are: tokens, sections, processes, threads and ports.
    pub fn objects(&self) -> usize
        ensures { result ≡ found.objects self.now.rows }
    {
        objects(&self.world)
    }

    /// One line's step: its call or directive, then the world settles, and then the objects go that no row counts
    /// for. Its entries are added to `out`, which is empty and has room for [`Machine::room_needed`] more. The
    /// line's process and thread numbers are from 1 to 2147483647, the name that it gives a token has at most 32
    /// bytes, and fewer than 1,000,000 directives and service calls were made before it.
    ///
    /// A line about the server on a thread is told as where there is none: whoever keeps the servers tells the
    /// others.
    ///
    /// A line that is refused, or that no thread can run, leaves every row as it was. After want of memory nothing
    /// has changed but the room. Only the five directives, `NtCreatePort`, `NtConnectPort`, `NtAcceptConnectPort`
    /// to accept, `NtRequestPort`, `NtRegisterThreadTerminatePort`, `NtDuplicateObject`, `NtCreateProcess`,
    /// `NtCreateThread`, `NtCreateSection`, `NtMapViewOfSection`, `NtOpenThreadToken` and `NtOpenProcessToken`
    /// change the memory of any table but those of names, names of tokens, processes and threads, and only where
    /// they aren't refused; they want for memory only where the room for what they make wasn't there, which the
    /// bytes of a section never have; every other line is answered. For how many rows of each table there is to be
    /// room by a line, tells `line_adds` of the specs: for those that the line makes or may make, and for those
    /// that are owed by it. Of a table of which that is none it leaves no more memory than there was; of any other
    /// no more than there was, than the rows before it need with these and what was owed, or than twice the rows
    /// before it. Memory for handles grows in the process of the line's thread alone, and that for views there and,
    /// where a connect is answered, in the client's process. Of processes and threads the rows are the numbers ever
    /// used, and beside that bound there are places for the rows that went at the line's end. How far the memory of
    /// names and of names of tokens may grow is said nowhere. One of the five directives, and a call of a thread
    /// that lives and doesn't wait, counts as a call, refused or not, unless it found no memory.
    pub fn step(&mut self, line: &Line<'_>, out: &mut Entries) -> Result<(), OutOfMemory>
        requires empty { out.old.list ≡ [] }
        requires unread { out.old.reads ≡ false }
        requires room { HasRoom self.old out.old }
        requires few { self.old.calls < LINES_LIMIT }
        requires ids { has_ids (line_of line.now) ≡ true }
        requires named { has_short_name (line_of line.now) ≡ true }
        ensures rows { OnOk result (let s = step self.old.rows (line_of line.now) in
            self.new.rows ≡ s.world) }
        ensures told { OnOk result (let s = step self.old.rows (line_of line.now) in
            out.new.list ≡ s.entries) }
        ensures refused { Halts self.old.rows (line_of line.now) → self.new.rows ≡ self.old.rows }
        ensures sound { HasSoundWaits self.new.rows }
        ensures held { HasHeldRows self.new.rows }
        ensures named { NamesWhatStands self.new.rows }
        ensures closings { OnOk result (ClosingsAreTold self.old.rows (line_of line.now)) }
        ensures single_closings { HasSingleClosings self.new.rows }
        ensures creators { KeepsConnects self.new.rows }
        ensures deaths { OnOk result (DeathsAreTold self.old.rows (line_of line.now)) }
        ensures registered { HasLivingRegistrations self.new.rows }
        ensures once { HasSingleRegistrations self.new.rows }
        ensures left { LeavesNothing self.new.rows }
        ensures settled { settling.IsSettled self.new.rows }
        ensures err { OnErr result (Same self.old self.new) }
        ensures silent { OnErr result (out.new.list ≡ []) }
        ensures counted { OnOk result (makes_call self.old.rows (line_of line.now) ≡ true →
            self.new.calls ≡ self.old.calls + 1) }
        ensures uncounted { OnOk result (makes_call self.old.rows (line_of line.now) ≡ false →
            self.new.calls ≡ self.old.calls) }
        ensures late { OnErr result (GoesOn self.old.rows (line_of line.now)) }
        ensures wanting { OnErr result (lacks_room self.old (line_of line.now) ≡ true) }
        ensures free { takes_memory (line_of line.now) ≡ false → IsOk result }
        ensures capacity { takes_memory (line_of line.now) ≡ false →
            but_lives (but_names self.new.capacity) ≡ but_lives (but_names self.old.capacity) }
        ensures unasked { Halts self.old.rows (line_of line.now) →
            but_lives (but_names self.new.capacity) ≡ but_lives (but_names self.old.capacity) }
        ensures asked_ports { let added = line_adds (line_of line.now) in
            self.new.capacity.ports ≤ most_ports self.old added.ports }
        ensures asked_messages { let added = line_adds (line_of line.now) in
            self.new.capacity.messages ≤ most_messages self.old added.messages }
        ensures asked_waits { let added = line_adds (line_of line.now) in
            self.new.capacity.waits ≤ most_waits self.old added.waits }
        ensures asked_processes { OnOk result
            (let added = line_adds (line_of line.now) in
            let bare = bare_step self.old.rows (line_of line.now) in
            self.new.capacity.processes + length self.new.rows.processes
            ≤ most_processes self.old added.processes + length bare.world.processes) }
        ensures asked_threads { OnOk result
            (let added = line_adds (line_of line.now) in
            let bare = bare_step self.old.rows (line_of line.now) in
            self.new.capacity.threads + length self.new.rows.threads
            ≤ most_threads self.old added.threads + length bare.world.threads) }
        ensures failed_processes { OnErr result (let added = line_adds (line_of line.now) in
            self.new.capacity.processes ≤ most_processes self.old added.processes) }
        ensures failed_threads { OnErr result (let added = line_adds (line_of line.now) in
            self.new.capacity.threads ≤ most_threads self.old added.threads) }
        ensures asked_sections { let added = line_adds (line_of line.now) in
            self.new.capacity.sections ≤ most_sections self.old added.sections }
        ensures asked_tokens { let added = line_adds (line_of line.now) in
            self.new.capacity.tokens ≤ most_tokens self.old added.tokens }
        ensures asked_handles { let added = line_adds (line_of line.now) in
            let pid = process_of self.old.rows (line_of line.now) in
            handle_places self.new.capacity pid ≤ most_handles self.old pid added.handles }
        ensures other_handles { let pid = process_of self.old.rows (line_of line.now) in
            KeepsOtherPlaces pid self.old.capacity self.new.capacity }
        ensures asked_views { let added = line_adds (line_of line.now) in (pid : ℕ) →
            view_places self.new.capacity pid ≤ most_views self.old pid added.views }
        ensures other_views { KeepsOtherViews (line_of line.now) self.old self.new }
    {
        take(&mut self.world, line, out)?;
        settle(&mut self.world, out);
        sweep(&mut self.world);
        Ok(())
    }
}
