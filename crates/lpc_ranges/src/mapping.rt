// The calls that map a view of a section, and take one away.
ghost use Rattle.std.specs.Prelude.{◌≡◌, ◌==◌, ◌%◌, ◌<◌, ◌+◌, ◌≤◌, Err, IfOk, IsErr, MatchResult, None, Ok, OnErr, OnOk, true};
ghost use Rattle.lpc_base.specs.declared.limits.TheConstants.{LINES_LIMIT, PAGE_SIZE};
ghost use Rattle.lpc_model.specs.Lines.{map_view_of_section, unmap_view_of_section};
ghost use Rattle.lpc_model.specs.Memory as memory;
ghost use Rattle.lpc_ranges.specs.Calls.{lacks_view_room, mapping};
ghost use Rattle.lpc_rows.specs.Called.{MayServe, Served, service};
ghost use Rattle.lpc_rows.specs.Capacity.{KeepsOtherViewPlaces, view_places};
ghost use Rattle.lpc_rows.specs.Clauses.{HasFewViews, MapsAs};
ghost use Rattle.lpc_rows.specs.Kept.{grown_views};
ghost use Rattle.lpc_rows.specs.Names.{stands};
ghost use Rattle.lpc_rows.specs.Ready.{HasRoom, caller, is_ready};

use crate::sections::{PAGE_READWRITE, protection_test};
use lpc_base::limits::PAGE_SIZE;
use lpc_base::status::{MAPPED_ALIGNMENT, NOT_MAPPED_VIEW, SUCCESS};
use lpc_base::{OutOfMemory, Status};
use lpc_model::{CallName, Entries, Entry, Fields, Outcome, refuse, view_fields};
use lpc_slots::Key;
use lpc_steps::{mapping_status, section_at};
use lpc_views::View;
use lpc_world::World;

/// The right to a section that a view wants which may be written, and the one that another view wants.
const SECTION_MAP_WRITE: u32 = 2;

const SECTION_MAP_READ: u32 = 4;

/// The right to a section that a view with a protection wants.
fn mapping_right(protection: u32) -> u32
    ensures { result ≡ memory.mapping_right protection }
{
    if protection == PAGE_READWRITE {
        SECTION_MAP_WRITE
    } else {
        SECTION_MAP_READ
    }
}

/// The section of a handle of which a view is asked, and the view as it is to be: the handle's fault,
/// MAPPED_ALIGNMENT for an offset inside a page, INVALID_PAGE_PROTECTION, and then why there is no such view.
#[tactic(auto, unfolding(lpc_model::specs::Memory::nt_map_view_of_section))]
fn map_test(
    world: &World,
    tid: u32,
    handle: u32,
    offset: u32,
    size: u32,
    protection: u32,
) -> Result<(Key, View<Key>), Status>
    requires { is_ready world.now.rows tid ≡ true }
    ensures found { let found = service world.now.rows tid
        (map_view_of_section handle offset size protection) in
        MatchResult result
        (λ it. found ≡ Ok (mapping world.now (caller world.now.rows tid) it.1))
        (λ s. found ≡ Err s) }
    ensures section { IfOk result (λ it. stands world.now.births.sections it.0 ≡ true) }
    ensures aligned { OnOk result (offset % PAGE_SIZE ≡ 0) }
    ensures view { let by = caller world.now.rows tid in
        let writable = protection == memory.PAGE_READWRITE in
        IfOk result (λ it. MapsAs world.now by.process it.0 offset size writable None (Ok it.1)) }
{
    let section = section_at(world, tid, handle, mapping_right(protection))?;
    if offset % PAGE_SIZE != 0 {
        return Err(MAPPED_ALIGNMENT);
    }
    protection_test(protection)?;
    let writable = protection == PAGE_READWRITE;
    let pid = world.caller(tid).process;
    match world.view_for(pid, section, offset, size, writable) {
        Ok(view) => Ok((section, view)),
        Err(fault) => Err(mapping_status(fault)),
    }
}

/// `NtMapViewOfSection`: maps a view of the section that a handle names into the caller's process, from an offset on,
/// at the least free base. Size 0 asks for all bytes from the offset on, and another size is rounded up to whole pages.
/// With protection 4 the process may write through the view, with 2 it reads alone.
///
/// Refusals, in this order: INVALID_HANDLE where no handle of the process has the value; OBJECT_TYPE_MISMATCH where it
/// names no section; ACCESS_DENIED where it lacks the right to map, which is 2 for protection 4, and else 4;
/// MAPPED_ALIGNMENT where the offset is no multiple of 4096; INVALID_PAGE_PROTECTION for another protection;
/// SECTION_PROTECTION where the section may not be written and the view might; INVALID_VIEW_SIZE where the view would
/// pass the section; QUOTA_EXCEEDED where the process has 128 views, or no place is left. OutOfMemory comes only where
/// it isn't refused and there is no room for the view; nothing has changed then but the room.
pub fn nt_map_view_of_section(
    world: &mut World,
    by: u32,
    handle: u32,
    offset: u32,
    size: u32,
    protection: u32,
    out: &mut Entries,
) -> Result<Outcome, OutOfMemory>
    requires ready { is_ready world.old.rows by ≡ true }
    requires room { HasRoom world.old out.old }
    requires calls { world.old.calls < LINES_LIMIT }
    ensures serves { let call = map_view_of_section handle offset size protection in
        MayServe by call result world.old world.new out.old out.new }
    ensures spare { OnOk result (out.new.spare + 1 ≡ out.old.spare) }
    ensures wanting { let by = caller world.old.rows by in
        OnErr result (lacks_view_room world.old by ≡ true) }
    ensures room_stays { let call = map_view_of_section handle offset size protection in
        IsErr (service world.old.rows by call) → world.new.room ≡ world.old.room }
    ensures unasked { let call = map_view_of_section handle offset size protection in
        IsErr (service world.old.rows by call) → world.new.capacity ≡ world.old.capacity }
    ensures capacity { let new = world.new.capacity in
        new ≡ record world.old.capacity { views = new.views } }
    ensures asked_views { let by = caller world.old.rows by in
        view_places world.new.capacity by.process ≤ grown_views world.old by.process 1 }
    ensures other_places { let by = caller world.old.rows by in
        KeepsOtherViewPlaces by.process world.old.capacity world.new.capacity }
{
    let caller = world.caller(by);
    let (section, view) = match map_test(world, by, handle, offset, size, protection) {
        Ok(found) => found,
        Err(status) => {
            world.begin_call();
            return Ok(refuse(caller.number, CallName::NtMapViewOfSection, status, out));
        }
    };
    world.views_reserve(caller.process, 1)?;
    world.begin_call();
    let writable = protection == PAGE_READWRITE;
    match world.views_map(caller.process, section, offset, size, writable, None) {
        Ok(_) => {}
        Err(_) => unreachable!(),
    }
    out.push(Entry::Answer {
        tid: caller.number,
        call: CallName::NtMapViewOfSection,
        status: SUCCESS,
        fields: view_fields(view.base, view.size),
    });
    Ok(Outcome::Answered(SUCCESS))
}

/// `NtUnmapViewOfSection`: takes the view of the caller's process away that holds an address, also one that a
/// connection made.
///
/// Refusal: NOT_MAPPED_VIEW where no view of the process holds the address. It takes no memory.
#[tactic(auto, unfolding(lpc_model::specs::Memory::nt_unmap_view_of_section))]
pub fn nt_unmap_view_of_section(
    world: &mut World,
    by: u32,
    address: u32,
    out: &mut Entries,
) -> Outcome
    requires ready { is_ready world.old.rows by ≡ true }
    requires room { HasRoom world.old out.old }
    requires calls { world.old.calls < LINES_LIMIT }
    ensures served { let call = unmap_view_of_section address in
        Served by call result world.old world.new out.old out.new }
    ensures spare { out.new.spare + 1 ≡ out.old.spare }
    ensures capacity { world.new.capacity ≡ world.old.capacity }
{
    let caller = world.caller(by);
    world.begin_call();
    if let None = world.view_at(caller.process, address) {
        return refuse(
            caller.number,
            CallName::NtUnmapViewOfSection,
            NOT_MAPPED_VIEW,
            out,
        );
    }
    world.views_unmap(caller.process, address);
    out.push(Entry::Answer {
        tid: caller.number,
        call: CallName::NtUnmapViewOfSection,
        status: SUCCESS,
        fields: Fields::none(),
    });
    Outcome::Answered(SUCCESS)
}
