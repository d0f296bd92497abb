// The search for a free base.
ghost use Rattle.std.specs.Prelude.{◌≡◌, ◌+◌, ◌++◌, ◌%◌, ◌<◌, ◌≤◌, true, IfSome};
ghost use Rattle.lpc_base.specs.Rows.{every, first};
ghost use Rattle.lpc_base.specs.Views.{is_free_base, least_base, meets};
ghost use Rattle.lpc_base.specs.declared.limits.TheConstants.{ALLOCATION_GRANULARITY, USER_ADDRESS_END};
ghost use Rattle.lpc_views.specs.Views.{is_placed, range_of, ranges};

use crate::View;
use lpc_base::limits::{ALLOCATION_GRANULARITY, LOWEST_USER_ADDRESS, USER_ADDRESS_END};

/// The least base that is free for a view of a size; none where none is.
pub(crate) fn free_base<P: Copy>(views: &[View<P>], size: u32) -> Option<u32>
    requires sized { 0 < size }
    requires placed { every is_placed views.now ≡ true }
    ensures base { result ≡ least_base (ranges views.now) size }
    ensures free { IfSome result (λ base. is_free_base (ranges views.now) size base ≡ true) }
{
    free_base_beside(views, &views[..0], size)
}

/// The least base that is free for a view of a size beside the views that stand and further ones; none where none is.
///
/// A base that isn't free is left behind together with all those before the end of the view that is met there, since
/// they meet it too.
pub(crate) fn free_base_beside<P: Copy>(
    views: &[View<P>],
    others: &[View<P>],
    size: u32,
) -> Option<u32>
    requires sized { 0 < size }
    requires placed { every is_placed (views.now ++ others.now) ≡ true }
    ensures base { result ≡ least_base (ranges (views.now ++ others.now)) size }
    ensures free { let views = ranges (views.now ++ others.now) in
        IfSome result (λ base. is_free_base views size base ≡ true) }
{
    let mut base = LOWEST_USER_ADDRESS;
    while size <= USER_ADDRESS_END - base {
        match met_beside(views, others, base, size) {
            Some(view) => base = base_from(view.base + view.size),
            None => return Some(base),
        }
    }
    None
}

// A view that a range meets, of those that stand or of the further ones.
fn met_beside<P: Copy>(
    views: &[View<P>],
    others: &[View<P>],
    base: u32,
    size: u32,
) -> Option<View<P>>
    ensures { result ≡ first (λ view. meets base size (range_of view)) (views.now ++ others.now) }
{
    if let Some(view) = met_view(views, base, size) {
        return Some(view);
    }
    met_view(others, base, size)
}

// A view that a range meets.
fn met_view<P: Copy>(views: &[View<P>], base: u32, size: u32) -> Option<View<P>>
    ensures { result ≡ first (λ view. meets base size (range_of view)) views.now }
{
    views.iter().copied().find(|view| view.meets(base, size))
}

// The least multiple of 65536 that isn't below an address.
fn base_from(address: u32) -> u32
    requires { address ≤ USER_ADDRESS_END }
    ensures multiple { result % ALLOCATION_GRANULARITY ≡ 0 }
    ensures least { address ≤ result }
    ensures near { result < address + ALLOCATION_GRANULARITY }
{
    address.next_multiple_of(ALLOCATION_GRANULARITY)
}
