// The laws of the name space, each for all bindings.
ghost use Rattle.lpc_names.specs.Laws.{BoundIsFound, BindingChangesOnePath, NamelessIsNotFound, UnboundIsNotFound, LinkGivesWay, LinkedPathLeadsAsDirect};

/// What was bound is found: a path at which an item or a directory was bound leads to it.
pub fn law_bound_is_found<T: Copy + Eq>()
    ensures { BoundIsFound T }
{}

/// A binding changes what one path names, and that of no other.
pub fn law_binding_changes_one_path<T: Copy + Eq>()
    ensures { BindingChangesOnePath T }
{}

/// What was unbound is not found: no path leads to an item without a name, so none leads to an item whose one name was
/// taken away.
pub fn law_unbound_is_not_found<T: Copy + Eq>()
    ensures nameless { NamelessIsNotFound T.eq }
    ensures unbound { UnboundIsNotFound T.eq }
{}

/// A path through links finds what the direct path finds: the walk of a path whose first link gives way is the walk of
/// the path that comes in its place, while links may still be replaced.
pub fn law_linked_path_leads_as_direct<T: Copy + Eq>()
    ensures step { LinkGivesWay T }
    ensures texts { LinkedPathLeadsAsDirect T }
{}
