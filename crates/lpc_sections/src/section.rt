// A section, its bytes and its stored counts.
ghost use Rattle.std.specs.Prelude.{◌≡◌, ◌+◌, ◌++◌, ◌≤◌, take, drop, length, Some, None, [], IfOk, replicate, if◌then◌else◌};
ghost use Rattle.std.specs.Borrow.{sem};
ghost use Rattle.std.specs.Option.{option_copied, option_copied_mut};
ghost use Rattle.lpc_sections.specs.Lends.{LendsPart, LendsPartIf, LendsTested};
ghost use Rattle.lpc_sections.specs.Sections.{IsSectionSize, SectionRow, is_within, part, with_part};

use lpc_base::{Birth, OutOfMemory};
use std::alloc::Global;
use std::marker::Model;

/// Bytes that views of one or several processes show: whole pages of 4096 bytes, from one page up to 4 MiB.
///
/// Contracts see the bytes, whether views may write them, the section's name, and the two counts that are stored with
/// it: how many handles name it, and how many handles, views and offers of connects do together.
#[derive(Drop)]
pub struct Section {
    bytes: Vec<u8>,
    writable: bool,
    birth: Birth,
    handles: u32,
    pointers: u32,
}

impl Model for Section {
    ghost use Rattle.std.specs.Prelude.{length};
    ghost use Rattle.lpc_sections.specs.Sections.{IsSectionSize, SectionRow};

    ghost Value = { SectionRow };

    ghost view = { λ s. record {
      bytes = s.bytes.items;
      writable = s.writable;
      birth = s.birth;
      handles = s.handles;
      pointers = s.pointers;
    } };

    ghost invariant = { λ s. IsSectionSize (length s.bytes.items) };
}

impl Section {
    /// A section of zeros that no handle names yet. Its size is whole pages, from 4096 bytes to 4 MiB.
    ///
    /// OutOfMemory comes where memory for the bytes is wanting; no clause tells more of when it does.
    pub fn new(
        alloc: Global,
        size: u32,
        writable: bool,
        birth: Birth,
    ) -> Result<Section, OutOfMemory>
        requires { IsSectionSize size }
        ensures bytes { IfOk result (λ s. s.bytes ≡ replicate size 0) }
        ensures writable { IfOk result (λ s. s.writable ≡ writable) }
        ensures birth { IfOk result (λ s. s.birth ≡ birth) }
        ensures handles { IfOk result (λ s. s.handles ≡ 0) }
        ensures pointers { IfOk result (λ s. s.pointers ≡ 0) }
    {
        let mut bytes = Vec::new(alloc);
        if bytes.resize(size as usize, 0).is_err() {
            return Err(OutOfMemory);
        }
        Ok(Section {
            bytes,
            writable,
            birth,
            handles: 0,
            pointers: 0,
        })
    }

    /// Views may write the section.
    pub fn writable(&self) -> bool
        ensures { result ≡ self.now.writable }
    {
        self.writable
    }

    /// The section's name.
    pub fn birth(&self) -> Birth
        ensures { result ≡ self.now.birth }
    {
        self.birth
    }

    /// How many handles name it, as it was last told.
    pub fn handles(&self) -> u32
        ensures { result ≡ self.now.handles }
    {
        self.handles
    }

    /// How many handles, views and offers of connects name it, as it was last told.
    pub fn pointers(&self) -> u32
        ensures { result ≡ self.now.pointers }
    {
        self.pointers
    }

    /// Tells how many handles name it.
    pub fn set_handles(&mut self, count: u32)
        ensures { self.new ≡ record self.old { handles = count } }
    {
        self.handles = count;
    }

    /// Tells how many handles, views and offers of connects name it.
    pub fn set_pointers(&mut self, count: u32)
        ensures { self.new ≡ record self.old { pointers = count } }
    {
        self.pointers = count;
    }

    /// How many bytes it has.
    pub fn size(&self) -> u32
        ensures size { result ≡ length self.now.bytes }
        ensures pages { IsSectionSize result }
    {
        self.bytes.len() as u32
    }

    /// A range of the bytes lies inside the section.
    pub fn is_within(&self, at: u32, len: u32) -> bool
        ensures { result ≡ is_within self.now at len }
    {
        at as usize + len as usize <= self.bytes.len()
    }

    /// A range of the bytes: None exactly where it passes the end.
    pub fn bytes(&self, at: u32, len: u32) -> Option<&[u8]>
        ensures { let inside = is_within self.now at len in
            option_copied result ≡ (if inside then Some (part self.now at len) else None) }
    {
        let start = at as usize;
        self.bytes.get(start..start + len as usize)
    }

    /// A range of the bytes that lies inside the section.
    pub fn part(&self, at: u32, len: u32) -> &[u8]
        requires within { at + len ≤ length self.now.bytes }
        ensures value { result.now ≡ part self.now at len }
        ensures len { length result.now ≡ len }
    {
        match self.bytes(at, len) {
            Some(part) => part,
            None => unreachable!(),
        }
    }

    /// A range of the bytes that lies inside the section, to be written. Nothing else changes.
    pub fn part_mut(&mut self, at: u32, len: u32) -> &mut [u8]
        requires within { at + len ≤ length self.old.bytes }
        ensures* writes_back { sem 𝓛 (LendsPart self.entry at result) }
        ensures value { result.now ≡ part self.old at len }
        ensures len { length result.now ≡ len }
    {
        let start = at as usize;
        let end = start + len as usize;
        self.bytes.slice_mut(start..end)
    }

    /// Writes bytes over a range that lies inside the section. Nothing else changes.
    pub fn write(&mut self, at: u32, bytes: &[u8])
        requires within { at + length bytes.now ≤ length self.old.bytes }
        ensures section { self.new ≡ with_part self.old at bytes.now }
        ensures bytes { self.new.bytes ≡ take at self.old.bytes ++ bytes.now
            ++ drop (at + length bytes.now) self.old.bytes }
        ensures size { length self.new.bytes ≡ length self.old.bytes }
    {
        let start = at as usize;
        let end = start + bytes.len();
        self.bytes.slice_mut(start..end).copy_from_slice(bytes);
    }

    /// Copies a range over another, which may overlap it. Both lie inside the section, and nothing else changes.
    pub fn copy_within(&mut self, from: u32, to: u32, len: u32)
        requires from { from + len ≤ length self.old.bytes }
        requires to { to + len ≤ length self.old.bytes }
        ensures { self.new ≡ with_part self.old to (part self.old from len) }
    {
        let start = from as usize;
        let end = start + len as usize;
        self.bytes.copy_within(start..end, to as usize);
    }

    // Whether the range lies inside, and its bytes; no byte where it doesn't.
    fn tested_mut(&mut self, at: u32, len: u32) -> (bool, &mut [u8])
        ensures* writes_back { sem 𝓛
            (LendsTested self.entry (if is_within self.old at len then at else 0) result) }
        ensures within { result.0 ≡ is_within self.old at len }
        ensures value { let inside = is_within self.old at len in
            result.1.now ≡ (if inside then part self.old at len else []) }
    {
        let within = self.is_within(at, len);
        let from = if within { at } else { 0 };
        let count = if within { len } else { 0 };
        let part = self.part_mut(from, count);
        (within, part)
    }

    /// A range of the bytes, to be written: None exactly where it passes the end. Nothing else changes.
    ///
    /// Callers that know that the range lies inside use `part_mut` or `write`, whose contracts tell them what the
    /// section becomes.
    pub fn bytes_mut(&mut self, at: u32, len: u32) -> Option<&mut [u8]>
        ensures* writes_back { sem 𝓛 (LendsPartIf self.entry at result) }
        ensures value { let inside = is_within self.old at len in
            option_copied_mut result ≡ (if inside then Some (part self.old at len) else None) }
    {
        let (within, part) = self.tested_mut(at, len);
        if within { Some(part) } else { None }
    }
}
