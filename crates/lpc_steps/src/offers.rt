// What connects and their answers offer to be seen, and where the views of it go.
ghost use Rattle.std.specs.Prelude.{◌≡◌, ◌+◌, ◌≤◌, IfOk, IfSome, is_some, length, option_map, option_to_list, true};
ghost use Rattle.lpc_base.specs.Rows.{every, has};
ghost use Rattle.lpc_base.specs.declared.limits.TheConstants.{VIEW_LIMIT};
ghost use Rattle.lpc_base.specs.declared.birth.Birth.{Birth};
ghost use Rattle.lpc_model.specs.Found.{is_table, views_of};
ghost use Rattle.lpc_model.specs.SoundViews.{is_sized};
ghost use Rattle.lpc_views.specs.Views.{is_placed};
ghost use Rattle.lpc_model.specs.Offers as offers;
ghost use Rattle.lpc_model.specs.Basics.{world_after};
ghost use Rattle.lpc_rows.specs.Clauses.{Answers, birth_at, has_section};
ghost use Rattle.lpc_rows.specs.Kept.{KeepsOtherViewRoom, Kept, view_room};
ghost use Rattle.lpc_rows.specs.Names.{stands};
ghost use Rattle.lpc_rows.specs.Ready.{caller, is_ready};
ghost use Rattle.lpc_rows.specs.Shown.{birth_of, shown_offer};
ghost use Rattle.lpc_steps.specs.Offers.{CanLieAs, HasViewRoom, has_wanted, is_part, mapping_status, offer_shown, owned_view, place_beside, views_owned, wanted_shown};

use crate::handles::section_at;
use lpc_base::Status;
use lpc_base::limits::PAGE_SIZE;
use lpc_base::status::{INVALID_VIEW_SIZE, MAPPED_ALIGNMENT, QUOTA_EXCEEDED, SECTION_PROTECTION};
use lpc_model::ViewWord;
use lpc_slots::Key;
use lpc_views::{MapFault, View, mapped_size};
use lpc_waits::Offer;
use lpc_world::World;

/// The right to a section that a view wants which may be written.
const SECTION_MAP_WRITE: u32 = 2;

/// What a view word wants to be seen: a section, from an offset on, and so many bytes of it, or where that is 0 all up to
/// its end.
#[derive(Clone, Copy)]
pub struct Wanted {
    /// The section.
    pub section: Key,
    /// Where in the section the view is to begin.
    pub offset: u32,
    /// How many bytes it is to show.
    pub size: u32,
}

/// The section that the handle of a view word names, with the right to write: the handle's fault. Nothing where there is
/// no word.
pub fn wanted_test(
    world: &World,
    tid: u32,
    view: Option<ViewWord>,
) -> Result<Option<Wanted>, Status>
    requires { is_ready world.now.rows tid ≡ true }
    ensures test { let by = caller world.now.rows tid in
        let test = offers.if_given (offers.wanted_test world.now.rows by) view in
        Answers result (option_map (wanted_shown world.now)) test }
    ensures stands { IfOk result (λ v. has_wanted world.now v ≡ true) }
    ensures given { IfOk result (λ v. is_some v ≡ is_some view) }
{
    match view {
        Some(word) => {
            let wanted = wanted_of(world, tid, word)?;
            Ok(Some(wanted))
        }
        None => Ok(None),
    }
}

fn wanted_of(world: &World, tid: u32, word: ViewWord) -> Result<Wanted, Status>
    requires { is_ready world.now.rows tid ≡ true }
    ensures test { let by = caller world.now.rows tid in
        Answers result (wanted_shown world.now) (offers.wanted_test world.now.rows by word) }
    ensures stands { IfOk result (λ v. stands world.now.births.sections v.section ≡ true) }
{
    let section = section_at(world, tid, word.handle, SECTION_MAP_WRITE)?;
    Ok(Wanted {
        section,
        offset: word.offset,
        size: word.size,
    })
}

/// Why a view has no size, or no place, as a status.
pub fn mapping_status(fault: MapFault) -> Status
    ensures { result ≡ mapping_status fault }
{
    match fault {
        MapFault::SectionProtection => SECTION_PROTECTION,
        MapFault::InvalidViewSize => INVALID_VIEW_SIZE,
        MapFault::Quota => QUOTA_EXCEEDED,
    }
}

/// What is offered then: MAPPED_ALIGNMENT for an offset inside a page, SECTION_PROTECTION where the section may not be
/// written, INVALID_VIEW_SIZE where the view would pass it. Nothing where nothing is wanted.
pub fn offer_test(world: &World, wanted: Option<Wanted>) -> Result<Option<Offer>, Status>
    requires { has_wanted world.now wanted ≡ true }
    ensures test { let shown = option_map (wanted_shown world.now) wanted in
        let test = offers.if_given offers.offer_test shown in
        Answers result (option_map (shown_offer (birth_of world.now.births))) test }
    ensures stands { IfOk result (λ offer. has_section world.now offer ≡ true) }
    ensures given { IfOk result (λ offer. is_some offer ≡ is_some wanted) }
    ensures part { IfOk result (λ offer. IfSome offer (λ o. is_part world.now o ≡ true)) }
{
    match wanted {
        Some(wanted) => {
            let offer = offer_of(world, wanted)?;
            Ok(Some(offer))
        }
        None => Ok(None),
    }
}

fn offer_of(world: &World, wanted: Wanted) -> Result<Offer, Status>
    requires { stands world.now.births.sections wanted.section ≡ true }
    ensures test { let test = offers.offer_test (wanted_shown world.now wanted) in
        Answers result (shown_offer (birth_of world.now.births)) test }
    ensures section { IfOk result (λ offer. offer.section ≡ wanted.section) }
    ensures part { IfOk result (λ offer. is_part world.now offer ≡ true) }
{
    if wanted.offset % PAGE_SIZE != 0 {
        return Err(MAPPED_ALIGNMENT);
    }
    let section = world.section(wanted.section);
    match mapped_size(section, wanted.offset, wanted.size, true) {
        Ok(size) => Ok(Offer {
            section: wanted.section,
            offset: wanted.offset,
            size,
        }),
        Err(fault) => Err(mapping_status(fault)),
    }
}

/// A view of what is offered, for a process, at the base that it gets; it goes with no port yet. QUOTA_EXCEEDED where
/// the process has 128 views, or no place is left. Nothing where nothing is offered.
#[tactic(auto, using(crate::proofs::Placed::found_alone, crate::proofs::Placed::lies_alone))]
pub fn view_test(world: &World, pid: u32, offer: Option<Offer>) -> Result<Option<View<Key>>, Status>
    requires table { has (is_table pid) world.now.rows.handles ≡ true }
    requires stands { has_section world.now offer ≡ true }
    requires part { IfSome offer (λ o. is_part world.now o ≡ true) }
    requires sizes { every is_sized world.now.rows.sections ≡ true }
    requires few { length (views_of world.now.rows pid) ≤ VIEW_LIMIT }
    ensures test { (port : Birth) →
        let test = offers.if_given (offers.view_test world.now.rows pid port) in
        let owned = option_map (owned_view world.now port) in
        Answers result owned (test (offer_shown world.now offer)) }
    ensures lies { IfOk result (λ view. CanLieAs world.now pid view) }
    ensures given { IfOk result (λ view. is_some view ≡ is_some offer) }
{
    view_beside(world, pid, offer, &[])
}

/// The same beside further views, which aren't mapped.
pub fn view_beside(
    world: &World,
    pid: u32,
    offer: Option<Offer>,
    others: &[View<Key>],
) -> Result<Option<View<Key>>, Status>
    requires table { has (is_table pid) world.now.rows.handles ≡ true }
    requires part { IfSome offer (λ o. is_part world.now o ≡ true) }
    requires sizes { every is_sized world.now.rows.sections ≡ true }
    requires others { every is_placed others.now ≡ true }
    requires within { length (views_of world.now.rows pid) + length others.now ≤ VIEW_LIMIT }
    ensures view { result ≡ offers.if_given (place_beside world.now pid others.now) offer }
    ensures placed { IfOk result (λ view. IfSome view (λ v. is_placed v ≡ true)) }
    ensures given { IfOk result (λ view. is_some view ≡ is_some offer) }
{
    match offer {
        Some(offer) => {
            let view = place_beside(world, pid, offer, others)?;
            Ok(Some(view))
        }
        None => Ok(None),
    }
}

#[tactic(auto, using(crate::proofs::Placed::placed_beside))]
fn place_beside(
    world: &World,
    pid: u32,
    offer: Offer,
    others: &[View<Key>],
) -> Result<View<Key>, Status>
    requires table { has (is_table pid) world.now.rows.handles ≡ true }
    requires part { is_part world.now offer ≡ true }
    requires sizes { every is_sized world.now.rows.sections ≡ true }
    requires others { every is_placed others.now ≡ true }
    requires within { length (views_of world.now.rows pid) + length others.now ≤ VIEW_LIMIT }
    ensures view { result ≡ place_beside world.now pid others.now offer }
    ensures placed { IfOk result (λ view. is_placed view ≡ true) }
{
    match world.base_beside(pid, others, offer.size) {
        Some(base) => Ok(View {
            base,
            size: offer.size,
            section: offer.section,
            offset: offer.offset,
            writable: true,
            owner: None,
        }),
        None => Err(QUOTA_EXCEEDED),
    }
}

/// Maps a view of a process, which goes with a port from then on, if there is one. There is room that `views_reserve`
/// made.
pub fn map_view(world: &mut World, pid: u32, port: Key, view: Option<View<Key>>)
    requires table { has (is_table pid) world.old.rows.handles ≡ true }
    requires port { stands world.old.births.ports port ≡ true }
    requires lies { CanLieAs world.old pid view }
    requires room { HasViewRoom world.old pid view }
    ensures rows { let views = views_owned world.old (birth_at world.old port) view in
        world.new.rows ≡ world_after world.old.rows (offers.mapped pid views) }
    ensures births { world.new.births ≡ world.old.births }
    ensures calls { world.new.calls ≡ world.old.calls }
    ensures loose { world.new.loose ≡ world.old.loose }
    ensures made { world.new.made ≡ world.old.made }
    ensures others { let new = world.new.room in
        new ≡ record world.old.room { views = new.views } }
    ensures places { let left = view_room world.new.room pid in
        view_room world.old.room pid ≤ left + length (option_to_list view) }
    ensures other_views { KeepsOtherViewRoom pid world.old.room world.new.room }
    ensures capacity { world.new.capacity ≡ world.old.capacity }
{
    if let Some(view) = view {
        world.views_add(
            pid,
            View {
                base: view.base,
                size: view.size,
                section: view.section,
                offset: view.offset,
                writable: view.writable,
                owner: Some(port),
            },
        );
    }
}

/// The base of a view, where there is one.
pub fn base_of(view: Option<View<Key>>) -> Option<u32>
    ensures { (w : Kept) (port : Birth) → result ≡ offers.base_of (views_owned w port view) }
{
    match view {
        Some(view) => Some(view.base),
        None => None,
    }
}

/// The size of a view, where there is one.
pub fn size_of_view(view: Option<View<Key>>) -> Option<u32>
    ensures { (w : Kept) (port : Birth) → result ≡ offers.size_of_view (views_owned w port view) }
{
    match view {
        Some(view) => Some(view.size),
        None => None,
    }
}
