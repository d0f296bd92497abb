// The call that makes a section.
ghost use Rattle.std.specs.Prelude.{ℕ, ◌≡◌, ◌≤◌, ◌<◌, ◌+◌, Err, IfErr, IfOk, IsErr, Ok, OnOk, true};
ghost use Rattle.lpc_base.specs.Rows.{has};
ghost use Rattle.lpc_base.specs.Views.{whole_pages};
ghost use Rattle.lpc_base.specs.declared.limits.TheConstants.{HANDLE_LIMIT, LINES_LIMIT, SECTION_LIMIT};
ghost use Rattle.lpc_model.specs.Found.{is_table};
ghost use Rattle.lpc_model.specs.Lines.{create_section};
ghost use Rattle.lpc_model.specs.Memory as memory;
ghost use Rattle.lpc_model.specs.Tests as tests;
ghost use Rattle.lpc_ranges.specs.Calls.{HasCaller, IsNewSection, making};
ghost use Rattle.lpc_rows.specs.Called.{MayServe, service};
ghost use Rattle.lpc_rows.specs.Callers.{shown_caller};
ghost use Rattle.lpc_rows.specs.Capacity.{KeepsOtherPlaces, handle_places};
ghost use Rattle.lpc_rows.specs.Clauses.{HasHandleRoom, HasSmallLoad, IsBlank};
ghost use Rattle.lpc_rows.specs.Does.{Took};
ghost use Rattle.lpc_rows.specs.Kept.{HasWholeBudget, grown_handles, grown_sections};
ghost use Rattle.lpc_rows.specs.Ready.{HasRoom, caller, is_ready};
ghost use Rattle.lpc_sections.specs.Sections.{IsSectionSize};

use lpc_base::limits::{PAGE_SIZE, SECTION_LIMIT};
use lpc_base::status::{
    INVALID_PAGE_PROTECTION, INVALID_PARAMETER_4, QUOTA_EXCEEDED, SECTION_TOO_BIG, SUCCESS,
};
use lpc_base::{Birth, OutOfMemory, Status};
use lpc_model::{CallName, Entries, Entry, Outcome, handle_field, refuse};
use lpc_procs::Caller;
use lpc_sections::Section;
use lpc_steps::{give_handle, handles_test};
use lpc_world::{Object, World};

/// The rights of a handle that a call makes to a section.
const SECTION_ACCESS: u32 = 0x000F_001F;

/// Bytes may be read alone.
pub(crate) const PAGE_READONLY: u32 = 2;

/// Bytes may be read and written.
pub(crate) const PAGE_READWRITE: u32 = 4;

/// The protection is one of the two.
pub(crate) fn protection_test(protection: u32) -> Result<(), Status>
    ensures { result ≡ memory.protection_test protection }
{
    match protection {
        PAGE_READONLY | PAGE_READWRITE => Ok(()),
        _ => Err(INVALID_PAGE_PROTECTION),
    }
}

/// The sections that a process made leave room for one more of so many bytes, which are 4 MiB at most: QUOTA_EXCEEDED
/// where they don't.
fn load_test(world: &World, pid: u32, size: u32) -> Result<(), Status>
    requires { size ≤ SECTION_LIMIT }
    ensures { result ≡ memory.section_load_test world.now.rows pid size }
{
    if world.section_load(pid) > u64::from(SECTION_LIMIT - size) {
        return Err(QUOTA_EXCEEDED);
    }
    Ok(())
}

/// The size of a section of so many bytes, in whole pages, or why a thread's process gets none.
#[tactic(auto, unfolding(lpc_model::specs::Memory::nt_create_section))]
fn create_test(world: &World, tid: u32, size: u32, protection: u32) -> Result<u32, Status>
    requires { is_ready world.now.rows tid ≡ true }
    ensures made { let by = caller world.now.rows tid in
        OnOk result (service world.now.rows tid (create_section size protection)
        ≡ Ok (making world.now.rows by size protection)) }
    ensures refused { IfErr result (λ s.
        service world.now.rows tid (create_section size protection) ≡ Err s) }
    ensures size { IfOk result (λ pages. pages ≡ whole_pages size) }
    ensures pages { IfOk result (λ pages. IsSectionSize pages) }
    ensures few { let by = caller world.now.rows tid in
        OnOk result (HasSmallLoad world.now.rows by.process) }
{
    protection_test(protection)?;
    if size == 0 {
        return Err(INVALID_PARAMETER_4);
    }
    if size > SECTION_LIMIT {
        return Err(SECTION_TOO_BIG);
    }
    let pages = size.next_multiple_of(PAGE_SIZE);
    let by = world.caller(tid);
    load_test(world, by.process, pages)?;
    handles_test(world, by.process, 1)?;
    Ok(pages)
}

/// The name of what a thread makes next.
fn next_birth(by: &Caller) -> Birth
    ensures { result ≡ tests.next_birth (shown_caller by.now) }
{
    Birth {
        maker: by.number,
        ordinal: by.next_ordinal,
        process: by.process,
    }
}

/// A section enters the world under the next birth of its maker, with a handle for the maker's process.
fn create(world: &mut World, by: &Caller, section: Section, out: &mut Entries)
    requires spare { 1 ≤ out.old.spare }
    requires room { 0 < world.old.room.sections }
    requires handles { HasHandleRoom world.old by.now.process }
    requires budget { HasWholeBudget world.old }
    requires thread { HasCaller world.old.rows by.now }
    requires table { has (is_table by.now.process) world.old.rows.handles ≡ true }
    requires few { tests.handle_load world.old.rows by.now.process < HANDLE_LIMIT }
    requires zeros { IsBlank section }
    requires birth { section.birth ≡ tests.next_birth (shown_caller by.now) }
    ensures takes { (size prot : ℕ) → IsNewSection section (shown_caller by.now) size prot →
        let steps = making world.old.rows (shown_caller by.now) size prot in
        Took steps world.old world.new out.old out.new }
    ensures calls { world.new.calls ≡ world.old.calls }
    ensures capacity { world.new.capacity ≡ world.old.capacity }
    ensures spare { out.new.spare + 1 ≡ out.old.spare }
{
    world.procs_draw_birth(by.number);
    let section = world.sections_insert_reserved(section);
    let value = give_handle(world, by.process, Object::Section(section), SECTION_ACCESS);
    out.push(Entry::Answer {
        tid: by.number,
        call: CallName::NtCreateSection,
        status: SUCCESS,
        fields: handle_field(value),
    });
}

/// `NtCreateSection`: makes a section of so many bytes, rounded up to whole pages of 4096, with a handle for the
/// caller's process. Its bytes are zeros. Protection 4 lets views write it; with 2 they read it alone.
///
/// Refusals, in this order: INVALID_PAGE_PROTECTION for another protection; INVALID_PARAMETER_4 for no byte;
/// SECTION_TOO_BIG for more than 4 MiB; QUOTA_EXCEEDED where the sections that the process made would have more than
/// 4 MiB with it, or where the process has 256 handles, with those that its waiting connects are to get. OutOfMemory
/// comes only where it isn't refused, since its bytes are always new memory; nothing has changed then but the room.
pub fn nt_create_section(
    world: &mut World,
    by: u32,
    size: u32,
    protection: u32,
    out: &mut Entries,
) -> Result<Outcome, OutOfMemory>
    requires ready { is_ready world.old.rows by ≡ true }
    requires room { HasRoom world.old out.old }
    requires calls { world.old.calls < LINES_LIMIT }
    ensures serves { let call = create_section size protection in
        MayServe by call result world.old world.new out.old out.new }
    ensures spare { OnOk result (out.new.spare + 1 ≡ out.old.spare) }
    ensures room_stays { let call = create_section size protection in
        IsErr (service world.old.rows by call) → world.new.room ≡ world.old.room }
    ensures unasked { let call = create_section size protection in
        IsErr (service world.old.rows by call) → world.new.capacity ≡ world.old.capacity }
    ensures capacity { let new = world.new.capacity in
        let old = world.old.capacity in
        new ≡ record old { sections = new.sections; handles = new.handles } }
    ensures asked_sections { let new = world.new.capacity in
        new.sections ≤ grown_sections world.old 1 }
    ensures asked_handles { let by = caller world.old.rows by in
        handle_places world.new.capacity by.process ≤ grown_handles world.old by.process 1 }
    ensures other_places { let by = caller world.old.rows by in
        KeepsOtherPlaces by.process world.old.capacity world.new.capacity }
{
    let caller = world.caller(by);
    let pages = match create_test(world, by, size, protection) {
        Ok(pages) => pages,
        Err(status) => {
            world.begin_call();
            return Ok(refuse(caller.number, CallName::NtCreateSection, status, out));
        }
    };
    let writable = protection == PAGE_READWRITE;
    let section = world.new_section(pages, writable, next_birth(&caller))?;
    world.sections_reserve(1)?;
    world.handles_reserve(caller.process, 1)?;
    world.begin_call();
    create(world, &caller, section, out);
    Ok(Outcome::Answered(SUCCESS))
}
