// How many handles and views count for each object, and how many sections and tokens are held by any.
ghost use Rattle.std.specs.Prelude.{◌≡◌, ◌∷◌, ◌&&◌, [], not, false, true, IfNone, IfSome};
ghost use Rattle.lpc_base.specs.Rows.{which};
ghost use Rattle.lpc_homes.specs.Counts.{Gains, GainsViews, Loses, LosesViews, count_in};
ghost use Rattle.lpc_homes.specs.Held.{AreSoMany};
ghost use Rattle.lpc_homes.specs.Numbered.{is_counted, is_numbered};
ghost use Rattle.lpc_homes.specs.Parts.{goes_with};
ghost use Rattle.lpc_homes.specs.declared.object.Object.TheVariants as kind;

use crate::Object;
use crate::counts::Counts;
use crate::held::Held;
use crate::view_counts::ViewCounts;
use lpc_slots::Key;
use lpc_views::View;
use std::alloc::Global;
use std::marker::Model;

/// How many handles and how many views count for each object. Beside them stands how many sections and how many tokens
/// are held, so that none has to be looked at where each is.
#[derive(Drop)]
pub struct ObjectCounts {
    handles: Counts,
    views: ViewCounts,
    held: Held,
}

impl Model for ObjectCounts {
    ghost use Rattle.lpc_homes.specs.Numbered.{AllCounted, AreNumbered};

    ghost Value = { AllCounted };

    ghost view = { λ s. record { handles = s.handles; views = s.views } };

    ghost invariant = { λ s. AreNumbered s.handles s.views s.held };
}

impl ObjectCounts {
    /// No handle and no view is counted, and none is promised.
    pub fn new(alloc: Global) -> ObjectCounts
        ensures handles { let handles = result.handles in handles.entries ≡ [] }
        ensures views { let views = result.views in views.entries ≡ [] }
        ensures whole_handles { let handles = result.handles in handles.whole ≡ true }
        ensures whole_views { let views = result.views in views.whole ≡ true }
    {
        ObjectCounts {
            handles: Counts::new(alloc),
            views: ViewCounts::new(alloc),
            held: Held::none(),
        }
    }

    /// Promises so many further handles, and makes room to count each that is promised, where there is memory.
    pub fn promise_handles(&mut self, more: usize)
        ensures { self.new ≡ self.old }
    {
        self.handles.promise(more);
    }

    /// Promises so many further views, and makes room to count each that is promised, where there is memory.
    pub fn promise_views(&mut self, more: usize)
        ensures { self.new ≡ self.old }
    {
        self.views.promise(more);
    }

    /// One handle more names the object. It was promised, and takes no memory.
    pub fn add_handle(&mut self, object: Object)
        ensures gains { let new = self.new.handles in
            new.whole ≡ true → Gains object self.old.handles new }
        ensures views { self.new.views ≡ self.old.views }
    {
        let is_first = is_unheld(&self.handles, &self.views, object);
        self.handles.add(object);
        if is_first {
            self.held.add(object);
        }
    }

    /// One handle less names the object, and its place is promised anew.
    pub fn take_handle(&mut self, object: Object)
        ensures loses { let new = self.new.handles in
            new.whole ≡ true → Loses object self.old.handles new }
        ensures views { self.new.views ≡ self.old.views }
    {
        self.handles.take(object);
        if is_unheld(&self.handles, &self.views, object) {
            self.held.take(object);
        }
    }

    /// One view more, of the process whose part stands at a place. It was promised, and takes no memory.
    pub fn add_view(&mut self, view: View<Key>, place: usize)
        ensures gains { let new = self.new.views in
            new.whole ≡ true → GainsViews (view ∷ []) self.old.views new }
        ensures handles { self.new.handles ≡ self.old.handles }
    {
        let section = Object::Section(view.section);
        let is_first = is_unheld(&self.handles, &self.views, section);
        self.views.add(view, place);
        if is_first {
            self.held.add(section);
        }
    }

    /// One view less, whose place is promised anew.
    pub fn take_view(&mut self, view: View<Key>)
        ensures loses { let new = self.new.views in
            new.whole ≡ true → LosesViews (view ∷ []) self.old.views new }
        ensures handles { self.new.handles ≡ self.old.handles }
    {
        let section = Object::Section(view.section);
        self.views.take(view);
        if is_unheld(&self.handles, &self.views, section) {
            self.held.take(section);
        }
    }

    /// So many views less as there are in a list.
    pub fn take_all_views(&mut self, views: &[View<Key>])
        ensures loses { let new = self.new.views in
            new.whole ≡ true → LosesViews views.now self.old.views new }
        ensures handles { self.new.handles ≡ self.old.handles }
    {
        for view in views {
            self.take_view(*view);
        }
    }

    /// So many views less as there are in a list that go with a port.
    pub fn take_owned_views(&mut self, views: &[View<Key>], owner: Key)
        ensures loses { let new = self.new.views in let owned = which (goes_with owner) views.now in
            new.whole ≡ true → LosesViews owned self.old.views new }
        ensures handles { self.new.handles ≡ self.old.handles }
    {
        for view in views {
            if view.owner == Some(owner) {
                self.take_view(*view);
            }
        }
    }

    /// How many handles name the object; None where not each was counted.
    #[inline(always)]
    pub fn handles_to(&self, object: Object) -> Option<usize>
        ensures whole { let handles = self.now.handles in
            IfSome result (λ n. handles.whole ≡ true) }
        ensures count { let handles = self.now.handles in
            IfSome result (λ n. n ≡ count_in handles.entries object) }
        ensures unfinished { let handles = self.now.handles in
            IfNone result (handles.whole ≡ false) }
    {
        self.handles.of(object)
    }

    /// How many views count for the object, a section or a port; None where not each was counted.
    pub fn views_for(&self, object: Object) -> Option<usize>
        ensures whole { let views = self.now.views in
            IfSome result (λ n. views.whole ≡ true) }
        ensures count { let views = self.now.views in
            IfSome result (λ n. n ≡ count_in views.entries object) }
        ensures unfinished { let views = self.now.views in
            IfNone result (views.whole ≡ false) }
    {
        self.views.of(object)
    }

    /// The place of the process to which the last view was given that goes with a port. Where that isn't kept, it is any.
    pub fn home_of(&self, owner: Key) -> usize {
        self.views.home_of(owner)
    }

    /// How many sections some handle names or some view shows; None where not each was counted.
    pub fn held_sections(&self) -> Option<usize>
        ensures handles { let handles = self.now.handles in
            IfSome result (λ n. handles.whole ≡ true) }
        ensures views { let views = self.now.views in
            IfSome result (λ n. views.whole ≡ true) }
        ensures number { IfSome result (AreSoMany
            (λ key. is_counted self.now.handles self.now.views (kind.Section key))) }
    {
        if self.is_whole() {
            self.held.sections
        } else {
            None
        }
    }

    /// How many tokens some handle names; None where not each was counted.
    pub fn held_tokens(&self) -> Option<usize>
        ensures handles { let handles = self.now.handles in
            IfSome result (λ n. handles.whole ≡ true) }
        ensures views { let views = self.now.views in
            IfSome result (λ n. views.whole ≡ true) }
        ensures number { IfSome result (AreSoMany
            (λ key. is_counted self.now.handles self.now.views (kind.Token key))) }
    {
        if self.is_whole() {
            self.held.tokens
        } else {
            None
        }
    }

    // Each handle and each view was counted.
    fn is_whole(&self) -> bool
        ensures handles { let handles = self.now.handles in
            result ≡ true → handles.whole ≡ true }
        ensures views { let views = self.now.views in result ≡ true → views.whole ≡ true }
    {
        self.handles.is_whole() && self.views.is_whole()
    }
}

/// The object is a section or a token, and as far as the counts tell no handle names it and no view shows it.
fn is_unheld(handles: &Counts, views: &ViewCounts, object: Object) -> bool
    ensures { let handled = handles.now in let viewed = views.now in
        handled.whole ≡ true → viewed.whole ≡ true →
        result ≡ (is_numbered object && not (is_counted handled viewed object)) }
{
    object.is_numbered() && handles.of(object) == Some(0) && views.of(object) == Some(0)
}
