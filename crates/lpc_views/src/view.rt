// What a view is.
ghost use Rattle.std.specs.Prelude.{◌≡◌};
ghost use Rattle.lpc_base.specs.Views.{meets};
ghost use Rattle.lpc_views.specs.Views.{holds, is_owned_by, range_of};

use lpc_slots::Key;

/// Why a section is not mapped.
#[derive(Clone, Copy, PartialEq, Eq)]
pub enum MapFault {
    /// The view passes the end of its section, or would begin there.
    InvalidViewSize,
    /// A view that may be written is asked of a section that may not.
    SectionProtection,
    /// The process has 128 views, the limit of this project's profile, or no place is left among its addresses.
    Quota,
}

/// No one view holds the range, or the one that does may not be written where the call writes.
#[derive(Clone, Copy, Debug, PartialEq, Eq)]
pub struct Fault;

/// A part of a section, and the addresses at which a process sees it. As published.
#[derive(Clone, Copy, PartialEq, Eq)]
pub struct View<P> {
    /// Its first address.
    pub base: u32,
    /// How many bytes it shows.
    pub size: u32,
    /// The section.
    pub section: Key,
    /// Where in the section it begins, in bytes.
    pub offset: u32,
    /// The process may write through it.
    pub writable: bool,
    /// The port whose connection made it, and with which it goes; none where the process itself mapped it.
    pub owner: Option<P>,
}

/// Where a range of addresses lies.
#[derive(Clone, Copy, PartialEq, Eq)]
pub struct Place {
    /// The section.
    pub section: Key,
    /// Where in the section the range begins, in bytes.
    pub at: u32,
    /// The range may be written.
    pub writable: bool,
}

impl<P: Copy> View<P> {
    // The view holds the whole range.
    pub(crate) fn holds(&self, address: u32, len: u32) -> bool
        ensures { result ≡ holds address len self.now }
    {
        let end = address as u64 + len as u64;
        self.base <= address && end <= self.base as u64 + self.size as u64
    }

    // The view has an address in common with a range.
    pub(crate) fn meets(&self, base: u32, size: u32) -> bool
        ensures { result ≡ meets base size (range_of self.now) }
    {
        (base as u64) < self.base as u64 + self.size as u64
            && (self.base as u64) < base as u64 + size as u64
    }
}

impl<P: Copy + Eq> View<P> {
    // The view goes with this port.
    pub(crate) fn is_owned_by(&self, owner: P) -> bool
        ensures { result ≡ is_owned_by P.eq owner self.now }
    {
        match self.owner {
            Some(other) => other == owner,
            None => false,
        }
    }
}
