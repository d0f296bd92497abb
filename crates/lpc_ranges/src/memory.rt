// The calls that read and write the memory of the caller's process, which is what its views show.
ghost use Rattle.std.specs.Prelude.{◌≡◌, ◌<◌, ◌≤◌, ◌+◌, Err, IfErr, IfOk, MatchResult, Ok, OnOk, false, length, not, true};
ghost use Rattle.lpc_base.specs.Rows.{passes};
ghost use Rattle.lpc_base.specs.declared.limits.TheConstants.{LINES_LIMIT, MEMORY_LIMIT};
ghost use Rattle.lpc_base.specs.declared.status.TheConstants.{INVALID_PARAMETER};
ghost use Rattle.lpc_model.specs.Found.{view_holding};
ghost use Rattle.lpc_model.specs.Lines.{read_virtual_memory, write_virtual_memory};
ghost use Rattle.lpc_model.specs.Memory as memory;
ghost use Rattle.lpc_model.specs.Refusal.{refuse_if};
ghost use Rattle.lpc_ranges.specs.Calls.{reading};
ghost use Rattle.lpc_rows.specs.Called.{Served, service};
ghost use Rattle.lpc_rows.specs.Ready.{HasRoom, caller, is_ready};

use lpc_base::Status;
use lpc_base::limits::MEMORY_LIMIT;
use lpc_base::status::{ACCESS_VIOLATION, INVALID_PARAMETER, SUCCESS};
use lpc_model::{CallName, Entries, Entry, Fields, Outcome, refuse};
use lpc_world::World;

/// A call moves some bytes, and 4096 at most: INVALID_PARAMETER for none or more.
pub(crate) fn transfer_test(len: usize) -> Result<(), Status>
    ensures { result ≡ refuse_if (not (memory.is_transfer len)) INVALID_PARAMETER }
{
    if len == 0 || len > MEMORY_LIMIT {
        return Err(INVALID_PARAMETER);
    }
    Ok(())
}

/// The bytes at an address of a thread's process: INVALID_PARAMETER for none or more than 4096, ACCESS_VIOLATION where
/// no one view holds them.
#[tactic(auto, unfolding(lpc_model::specs::Memory::nt_read_virtual_memory))]
fn read_test<'a>(world: &'a World<'_>, tid: u32, address: u32, len: u32) -> Result<&'a [u8], Status>
    requires { is_ready world.now.rows tid ≡ true }
    ensures found { let found = service world.now.rows tid (read_virtual_memory address len) in
        MatchResult result
        (λ bytes. found ≡ Ok (reading (caller world.now.rows tid) bytes.now))
        (λ s. found ≡ Err s) }
    ensures few { IfOk result (λ bytes. length bytes.now ≤ MEMORY_LIMIT) }
{
    transfer_test(len as usize)?;
    match world.memory(world.caller(tid).process, address, len) {
        Ok(bytes) => Ok(bytes),
        Err(_) => Err(ACCESS_VIOLATION),
    }
}

/// The bytes may be written at an address of a thread's process: INVALID_PARAMETER for none or more than 4096,
/// ACCESS_VIOLATION where no one view holds them, or where the one that does may not be written.
#[tactic(auto, unfolding(lpc_model::specs::Memory::nt_write_virtual_memory))]
fn write_test(world: &World, tid: u32, address: u32, bytes: &[u8]) -> Result<(), Status>
    requires { is_ready world.now.rows tid ≡ true }
    ensures writable { let by = caller world.now.rows tid in
        let view = view_holding world.now.rows by.process address (length bytes.now) in
        OnOk result (passes view (λ v. v.writable) ≡ true) }
    ensures some { OnOk result (memory.is_transfer (length bytes.now) ≡ true) }
    ensures refused { let call = write_virtual_memory address bytes.now in
        IfErr result (λ s. service world.now.rows tid call ≡ Err s) }
{
    transfer_test(bytes.len())?;
    if !world.is_writable(world.caller(tid).process, address, bytes.len() as u32) {
        return Err(ACCESS_VIOLATION);
    }
    Ok(())
}

/// `NtReadVirtualMemory`: reads bytes at an address of the caller's process, all of which one of its views holds.
///
/// Refusals, in this order: INVALID_PARAMETER for no byte or more than 4096; ACCESS_VIOLATION where no one view holds
/// them. It takes no memory. No entry of `out` has the bytes of another read.
pub fn nt_read_virtual_memory(
    world: &mut World,
    by: u32,
    address: u32,
    len: u32,
    out: &mut Entries,
) -> Outcome
    requires ready { is_ready world.old.rows by ≡ true }
    requires room { HasRoom world.old out.old }
    requires calls { world.old.calls < LINES_LIMIT }
    requires first { out.old.reads ≡ false }
    ensures served { let call = read_virtual_memory address len in
        Served by call result world.old world.new out.old out.new }
    ensures spare { out.new.spare + 1 ≡ out.old.spare }
    ensures capacity { world.new.capacity ≡ world.old.capacity }
{
    let caller = world.caller(by);
    world.begin_call();
    match read_test(world, by, address, len) {
        Ok(bytes) => {
            out.push_read(caller.number, CallName::NtReadVirtualMemory, bytes);
            Outcome::Answered(SUCCESS)
        }
        Err(status) => refuse(caller.number, CallName::NtReadVirtualMemory, status, out),
    }
}

/// `NtWriteVirtualMemory`: writes bytes at an address of the caller's process, all of which one of its views holds that
/// may be written. Every view of that section shows them then.
///
/// Refusals, in this order: INVALID_PARAMETER for no byte or more than 4096; ACCESS_VIOLATION where no one view holds
/// them, or where the one that does may not be written. It takes no memory.
#[tactic(auto, unfolding(lpc_model::specs::Memory::nt_write_virtual_memory))]
pub fn nt_write_virtual_memory(
    world: &mut World,
    by: u32,
    address: u32,
    bytes: &[u8],
    out: &mut Entries,
) -> Outcome
    requires ready { is_ready world.old.rows by ≡ true }
    requires room { HasRoom world.old out.old }
    requires calls { world.old.calls < LINES_LIMIT }
    ensures served { let call = write_virtual_memory address bytes.now in
        Served by call result world.old world.new out.old out.new }
    ensures spare { out.new.spare + 1 ≡ out.old.spare }
    ensures capacity { world.new.capacity ≡ world.old.capacity }
{
    let caller = world.caller(by);
    world.begin_call();
    if let Err(status) = write_test(world, by, address, bytes) {
        return refuse(caller.number, CallName::NtWriteVirtualMemory, status, out);
    }
    world.views_write(caller.process, address, bytes);
    out.push(Entry::Answer {
        tid: caller.number,
        call: CallName::NtWriteVirtualMemory,
        status: SUCCESS,
        fields: Fields::none(),
    });
    Outcome::Answered(SUCCESS)
}
