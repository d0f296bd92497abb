// An entry of a transcript, and the list of a step's entries.
ghost use Rattle.std.specs.Prelude.{◌≡◌, ◌+◌, ◌<◌, ◌≤◌, ◌++◌, [], ◌∷◌, length, map, false, true, IfOk, OnOk, OnErr, slice_get};
ghost use Rattle.std.specs.Option.{option_map};
ghost use Rattle.lpc_base.specs.Room.{grown_room};
ghost use Rattle.lpc_base.specs.declared.status.TheConstants.{SUCCESS};
ghost use Rattle.lpc_model.specs.Listed.{aside_of, shown_entry, has_read};
ghost use Rattle.lpc_model.specs.Slots.{has_large, is_large, is_mark, small_value, value_in, value_lent};
ghost use Rattle.lpc_model.specs.Text.{call_text, word_text};

use arrayvec::ArrayVec;
use lpc_base::limits::MEMORY_LIMIT;
use lpc_base::{OutOfMemory, Status, reserve_rows, status};
use lpc_sid::Sid;
use std::alloc::Global;
use std::marker::Model;

/// The calls, by Windows NT's own names, which scripts and transcripts spell so.
#[derive(Clone, Copy, PartialEq, Eq)]
pub enum CallName {
    NtCreatePort,
    NtConnectPort,
    NtListenPort,
    NtAcceptConnectPort,
    NtCompleteConnectPort,
    NtRequestPort,
    NtRequestWaitReplyPort,
    NtReplyPort,
    NtReplyWaitReceivePort,
    NtRegisterThreadTerminatePort,
    NtClose,
    NtDuplicateObject,
    NtQueryObject,
    NtCreateProcess,
    NtCreateThread,
    NtTerminateThread,
    NtTerminateProcess,
    NtCreateSection,
    NtMapViewOfSection,
    NtUnmapViewOfSection,
    NtReadVirtualMemory,
    NtWriteVirtualMemory,
    NtReadRequestData,
    NtWriteRequestData,
    NtImpersonateClientOfPort,
    NtSetInformationThread,
    NtOpenThreadToken,
    NtOpenProcessToken,
    NtQueryInformationToken,
    NtSetInformationProcess,
    Raise,
}

impl CallName {
    /// Each call, in the order in which the grammar lists them.
    pub const ALL: [CallName; 31] = [
        CallName::NtCreatePort,
        CallName::NtConnectPort,
        CallName::NtListenPort,
        CallName::NtAcceptConnectPort,
        CallName::NtCompleteConnectPort,
        CallName::NtRequestPort,
        CallName::NtRequestWaitReplyPort,
        CallName::NtReplyPort,
        CallName::NtReplyWaitReceivePort,
        CallName::NtRegisterThreadTerminatePort,
        CallName::NtClose,
        CallName::NtDuplicateObject,
        CallName::NtQueryObject,
        CallName::NtCreateProcess,
        CallName::NtCreateThread,
        CallName::NtTerminateThread,
        CallName::NtTerminateProcess,
        CallName::NtCreateSection,
        CallName::NtMapViewOfSection,
        CallName::NtUnmapViewOfSection,
        CallName::NtReadVirtualMemory,
        CallName::NtWriteVirtualMemory,
        CallName::NtReadRequestData,
        CallName::NtWriteRequestData,
        CallName::NtImpersonateClientOfPort,
        CallName::NtSetInformationThread,
        CallName::NtOpenThreadToken,
        CallName::NtOpenProcessToken,
        CallName::NtQueryInformationToken,
        CallName::NtSetInformationProcess,
        CallName::Raise,
    ];

    /// The name of the call, as scripts and transcripts spell it.
    pub fn name(self) -> &'static [u8]
        ensures { result.now ≡ call_text self }
    {
        match self {
            CallName::NtCreatePort => b"NtCreatePort",
            CallName::NtConnectPort => b"NtConnectPort",
            CallName::NtListenPort => b"NtListenPort",
            CallName::NtAcceptConnectPort => b"NtAcceptConnectPort",
            CallName::NtCompleteConnectPort => b"NtCompleteConnectPort",
            CallName::NtRequestPort => b"NtRequestPort",
            CallName::NtRequestWaitReplyPort => b"NtRequestWaitReplyPort",
            CallName::NtReplyPort => b"NtReplyPort",
            CallName::NtReplyWaitReceivePort => b"NtReplyWaitReceivePort",
            CallName::NtRegisterThreadTerminatePort => b"NtRegisterThreadTerminatePort",
            CallName::NtClose => b"NtClose",
            CallName::NtDuplicateObject => b"NtDuplicateObject",
            CallName::NtQueryObject => b"NtQueryObject",
            CallName::NtCreateProcess => b"NtCreateProcess",
            CallName::NtCreateThread => b"NtCreateThread",
            CallName::NtTerminateThread => b"NtTerminateThread",
            CallName::NtTerminateProcess => b"NtTerminateProcess",
            CallName::NtCreateSection => b"NtCreateSection",
            CallName::NtMapViewOfSection => b"NtMapViewOfSection",
            CallName::NtUnmapViewOfSection => b"NtUnmapViewOfSection",
            CallName::NtReadVirtualMemory => b"NtReadVirtualMemory",
            CallName::NtWriteVirtualMemory => b"NtWriteVirtualMemory",
            CallName::NtReadRequestData => b"NtReadRequestData",
            CallName::NtWriteRequestData => b"NtWriteRequestData",
            CallName::NtImpersonateClientOfPort => b"NtImpersonateClientOfPort",
            CallName::NtSetInformationThread => b"NtSetInformationThread",
            CallName::NtOpenThreadToken => b"NtOpenThreadToken",
            CallName::NtOpenProcessToken => b"NtOpenProcessToken",
            CallName::NtQueryInformationToken => b"NtQueryInformationToken",
            CallName::NtSetInformationProcess => b"NtSetInformationProcess",
            CallName::Raise => b"raise",
        }
    }
}

/// The directives, each by the word that a line begins with.
#[derive(Clone, Copy, PartialEq, Eq)]
pub enum Word {
    Boot,
    Thread,
    Token,
    Dir,
    Link,
    Resident,
    Turn,
}

impl Word {
    /// Each directive, in the order in which the grammar lists them.
    pub const ALL: [Word; 7] = [
        Word::Boot,
        Word::Thread,
        Word::Token,
        Word::Dir,
        Word::Link,
        Word::Resident,
        Word::Turn,
    ];

    /// The word of the directive, as scripts and transcripts spell it.
    pub fn name(self) -> &'static [u8]
        ensures { result.now ≡ word_text self }
    {
        match self {
            Word::Boot => b"boot",
            Word::Thread => b"thread",
            Word::Token => b"token",
            Word::Dir => b"dir",
            Word::Link => b"link",
            Word::Resident => b"resident",
            Word::Turn => b"turn",
        }
    }
}

/// The kinds of object.
#[derive(Clone, Copy, PartialEq, Eq)]
pub enum ObjectKind {
    Port,
    Section,
    Token,
    Process,
    Thread,
}

/// How a call ended for its thread.
#[derive(Clone, Copy, PartialEq, Eq)]
pub enum Outcome {
    /// It was answered, by success or a refusal.
    Answered(Status),
    /// The thread waits.
    Waits,
    /// The thread ended, or its process is to end.
    Gone,
}

/// The names of an entry's fields.
#[derive(Clone, Copy, PartialEq, Eq)]
pub enum FieldName {
    /// A handle value.
    H,
    /// The value of a handle to the first thread of a new process.
    FirstThread,
    /// A message identifier.
    Id,
    /// The context of a message that was received.
    Ctx,
    /// A message, header and data.
    Msg,
    /// The bytes that a call read.
    Data,
    /// The most bytes of a message on a connection, header included.
    Max,
    /// The data of the answer to a connect.
    Info,
    /// The kind of an object.
    ObjectType,
    /// The rights that a handle grants.
    Access,
    /// How many handles name an object.
    Handles,
    /// How many rows count for an object, its handles among them.
    Pointers,
    /// The base of a view.
    Base,
    /// The size of a view.
    Size,
    /// The base, in the other process of a connection, of a view that was offered there.
    Target,
    /// The base of a view that the other process of a connection offered.
    ViewBase,
    /// The size of that view.
    ViewSize,
    /// The user of a token.
    User,
    /// The groups of a token.
    Groups,
    /// The level of an impersonation token.
    Level,
}

/// The value of a field.
#[derive(Drop, PartialEq, Eq)]
pub enum Value {
    /// Printed in decimal.
    Number(u64),
    /// Printed as 8 hexadecimal digits.
    Hex(u32),
    /// Printed as the name of the kind.
    Kind(ObjectKind),
    /// Bytes, printed as pairs of hexadecimal digits.
    Bytes(ArrayVec<u8, 256>),
    /// The bytes of a memory read, which lie in the list of entries; printed as those bytes.
    Read,
    /// A SID or none, printed as its text.
    Sids(ArrayVec<Sid, 1>),
    /// The groups of a token, which lie in the list of entries; printed as their text, parted by commas.
    TokenGroups,
}

/// The value of a field as it is lent: what [`Value`] has of the same name.
#[derive(Clone, Copy)]
pub enum Lent<'a> {
    Number(u64),
    Hex(u32),
    Kind(ObjectKind),
    Bytes(&'a [u8]),
    Read,
    Sids(&'a [Sid]),
    TokenGroups,
}

impl Value {
    /// The value, with its bytes or SIDs lent.
    #[inline(always)]
    fn lend(&self) -> Lent<'_>
        ensures { value_lent result ≡ self.now }
    {
        match self {
            Value::Number(number) => Lent::Number(*number),
            Value::Hex(number) => Lent::Hex(*number),
            Value::Kind(kind) => Lent::Kind(*kind),
            Value::Bytes(bytes) => Lent::Bytes(bytes.as_slice()),
            Value::Read => Lent::Read,
            Value::Sids(sids) => Lent::Sids(sids.as_slice()),
            Value::TokenGroups => Lent::TokenGroups,
        }
    }
}

/// A field of an entry: what the value is, and the value.
#[derive(Drop, PartialEq, Eq)]
pub struct Field {
    /// What the value is.
    pub name: FieldName,
    /// The value, and how it is printed.
    pub value: Value,
}

/// A value in its place among the fields of an entry: itself where it is small, else a mark for the one that lies
/// aside.
#[derive(Clone, Copy, PartialEq, Eq)]
enum Short {
    Number(u64),
    Hex(u32),
    Kind(ObjectKind),
    Read,
    TokenGroups,
    Aside,
}

/// A field in its place.
#[derive(Clone, Copy, PartialEq, Eq)]
struct Slot {
    name: FieldName,
    value: Short,
}

impl Default for Slot {
    ghost use Rattle.std.specs.Prelude.{◌≡◌};
    ghost use Rattle.lpc_model.specs.declared.entry.FieldName.TheVariants.{H};
    ghost use Rattle.lpc_model.specs.declared.entry.Short.TheVariants.{Number};

    /// A handle of value 0: what fills an unused place of [`Fields`].
    fn default() -> Self
        ensures { result ≡ record { name = H; value = Number 0 } }
    {
        Slot {
            name: FieldName::H,
            value: Short::Number(0),
        }
    }
}

/// The fields of an entry in order, up to six, of which one at most has bytes or SIDs.
///
/// A value with bytes or SIDs is large, so there is room for one, beside the places of the fields. Contracts see the
/// list with it where it stands.
#[derive(Drop, PartialEq, Eq)]
pub struct Fields {
    list: ArrayVec<Slot, 6>,
    aside: Value,
}

impl Model for Fields {
    ghost use Rattle.std.specs.Prelude.{List, ◌≡◌, ◌≤◌, length, map};
    ghost use Rattle.std.proofs.Common.{ap, ◌∙◌};
    ghost use Rattle.lpc_model.specs.declared.entry.Field.{Field};

    ghost Value = { List Field };

    ghost use Rattle.lpc_model.specs.Slots.{fields_in, large_of, slot_of};
    ghost use Rattle.lpc_model.specs.declared.entry.Fields.TheInside.{Inside};

    ghost view = { λ f. fields_in f.aside f.list.items };

    ghost invariant = { λ f.
        (length f.list.items ≤ 6)
        × (map slot_of (fields_in f.aside f.list.items) ≡ f.list.items)
        × (large_of (fields_in f.aside f.list.items) ≡ f.aside) };

    ghost inverse = { λ v. record {
      list = record { items = map slot_of v };
      aside = large_of v;
    } };

    ghost inverse_ok = { λ a h.
        ap (λ items. let f : Inside = record {
          list = record { items = items };
          aside = large_of (fields_in a.aside a.list.items);
        } in f) h.1
        ∙ ap (λ v. let f : Inside = record { list = a.list; aside = v } in f) h.2 };
}

impl Fields {
    /// No field.
    #[inline(always)]
    pub fn none() -> Fields
        ensures { result ≡ [] }
    {
        Fields {
            list: ArrayVec::new(),
            aside: Value::Number(0),
        }
    }

    // A value that stands in its place, and one that lies aside. Inlined, as `none` and `add` are, so that fields are
    // written where the entry is to stand.
    #[inline(always)]
    fn add_small(&mut self, name: FieldName, value: Short)
        requires room { length self.old < 6 }
        requires small { is_mark value ≡ false }
        ensures { self.new
            ≡ self.old ++ record { name = name; value = small_value value } ∷ [] }
    {
        self.list.push(Slot { name, value });
    }

    #[inline(always)]
    fn add_large(&mut self, name: FieldName, value: Value)
        requires room { length self.old < 6 }
        requires large { is_large value ≡ true }
        requires one { has_large self.old ≡ false }
        ensures { self.new ≡ self.old ++ record { name = name; value = value } ∷ [] }
    {
        self.list.push(Slot {
            name,
            value: Short::Aside,
        });
        self.aside = value;
    }

    /// Adds a field behind the others. There are fewer than six, and one at most of all has bytes or SIDs.
    #[inline(always)]
    pub fn add(&mut self, name: FieldName, value: Value)
        requires room { length self.old < 6 }
        requires one { is_large value ≡ true → has_large self.old ≡ false }
        ensures { self.new ≡ self.old ++ record { name = name; value = value } ∷ [] }
    {
        match value {
            Value::Number(number) => self.add_small(name, Short::Number(number)),
            Value::Hex(number) => self.add_small(name, Short::Hex(number)),
            Value::Kind(kind) => self.add_small(name, Short::Kind(kind)),
            Value::Bytes(bytes) => self.add_large(name, Value::Bytes(bytes)),
            Value::Read => self.add_small(name, Short::Read),
            Value::Sids(sids) => self.add_large(name, Value::Sids(sids)),
            Value::TokenGroups => self.add_small(name, Short::TokenGroups),
        }
    }

    /// How many fields there are.
    pub fn count(&self) -> usize
        ensures { result ≡ length self.now }
    {
        self.list.len()
    }

    /// The name of a field, none at or past the count.
    #[inline(always)]
    pub fn name(&self, at: usize) -> Option<FieldName>
        ensures { result ≡ option_map (λ f. f.name) (slice_get self.now at) }
    {
        match self.list.as_slice().get(at) {
            Some(slot) => Some(slot.name),
            None => None,
        }
    }

    /// The value of a field, none at or past the count.
    #[inline(always)]
    pub fn value(&self, at: usize) -> Option<Lent<'_>>
        ensures { option_map value_lent result
            ≡ option_map (λ f. f.value) (slice_get self.now at) }
    {
        match self.list.as_slice().get(at) {
            Some(slot) => Some(shown(slot.value, &self.aside)),
            None => None,
        }
    }
}

/// A value in its place, with the one that lies aside in place of the mark.
#[inline(always)]
fn shown(value: Short, aside: &Value) -> Lent<'_>
    ensures { value_lent result ≡ value_in aside.now value }
{
    match value {
        Short::Number(number) => Lent::Number(number),
        Short::Hex(number) => Lent::Hex(number),
        Short::Kind(kind) => Lent::Kind(kind),
        Short::Read => Lent::Read,
        Short::TokenGroups => Lent::TokenGroups,
        Short::Aside => aside.lend(),
    }
}

/// An entry of a transcript, without its line number.
#[derive(Drop, PartialEq, Eq)]
pub enum Entry {
    /// The thread's call was answered.
    Answer {
        tid: u32,
        call: CallName,
        status: Status,
        fields: Fields,
    },
    /// The thread's call waits.
    Waits {
        tid: u32,
        call: CallName,
        fields: Fields,
    },
    /// The wait of a thread ended, by the call of another or by what followed from it.
    Wakes {
        tid: u32,
        call: CallName,
        status: Status,
        fields: Fields,
    },
    /// The thread waits, so it made no call.
    Busy {
        tid: u32,
    },
    /// No live thread has the number.
    NoThread {
        tid: u32,
    },
    /// The thread ended.
    Died {
        tid: u32,
        status: Status,
    },
    /// A directive was carried out or refused.
    Directive {
        word: Word,
        status: Status,
    },
}

/// The entries of a step in order, and spare room for more.
///
/// The bytes of a memory read and the groups of a token are too many for a field, so they lie aside here, at most one of
/// the two, and the field has a mark in their place. Contracts see the list with them where they stand.
#[derive(Drop)]
pub struct Entries {
    list: Vec<Entry>,
    read: Vec<u8>,
    groups: ArrayVec<Sid, 16>,
}

impl Model for Entries {
    ghost use Rattle.std.specs.Prelude.{◌≡◌, ◌≤◌, ◌-◌, [], false, map, length, vec_len, vec_capacity};
    ghost use Rattle.std.specs.List.{list_any};
    ghost use Rattle.lpc_model.specs.Listed.{Listed, shown_entry, has_read};

    ghost Value = { Listed };

    ghost view = { λ e. record {
      list = map (shown_entry (record { read = e.read.items; groups = e.groups.items }))
          e.list.items;
      read = e.read.items;
      groups = e.groups.items;
      reads = list_any has_read e.list.items;
      spare = vec_capacity e.list - vec_len e.list;
    } };

    ghost invariant = { λ e.
        (4096 ≤ vec_capacity e.read)
        × (length e.read.items ≤ 4096)
        × (list_any has_read e.list.items ≡ false → e.read.items ≡ [])
        × (list_any has_read e.list.items ≡ false → e.groups.items ≡ []) };
}

impl Entries {
    /// No entries and no spare room, and the buffer for the bytes of a memory read.
    ///
    /// OutOfMemory comes where memory for the buffer is wanting; no clause tells more of when it does.
    pub fn new(alloc: Global) -> Result<Entries, OutOfMemory>
        ensures list { IfOk result (λ e. e.list ≡ []) }
        ensures read { IfOk result (λ e. e.read ≡ []) }
        ensures groups { IfOk result (λ e. e.groups ≡ []) }
        ensures reads { IfOk result (λ e. e.reads ≡ false) }
        ensures spare { IfOk result (λ e. e.spare ≡ 0) }
    {
        let list = Vec::new(alloc);
        let Ok(read) = Vec::with_capacity(alloc, MEMORY_LIMIT) else {
            return Err(OutOfMemory);
        };
        Ok(Entries {
            list,
            read,
            groups: ArrayVec::new(),
        })
    }

    /// Makes spare room for so many more entries, which takes memory only where there is less of it. After want of
    /// memory nothing has changed.
    pub fn reserve(&mut self, more: usize) -> Result<(), OutOfMemory>
        ensures list { self.new.list ≡ self.old.list }
        ensures read { self.new.read ≡ self.old.read }
        ensures groups { self.new.groups ≡ self.old.groups }
        ensures reads { self.new.reads ≡ self.old.reads }
        ensures room { OnOk result (more ≤ self.new.spare) }
        ensures least { self.old.spare ≤ self.new.spare }
        ensures wanting { OnErr result (self.old.spare < more) }
        ensures err { OnErr result (self.new ≡ self.old) }
        ensures most { let rows = length self.old.list in
            self.new.spare ≤ grown_room self.old.spare more rows }
        ensures enough { more ≤ self.old.spare → self.new.spare ≡ self.old.spare }
    {
        reserve_rows(&mut self.list, more)
    }

    /// How many entries go in without memory.
    pub fn spare(&self) -> usize
        ensures { result ≡ self.now.spare }
    {
        self.list.capacity() - self.list.len()
    }

    /// Adds an entry behind the others. There is spare room, and no field of the entry has a mark, for the bytes of a
    /// memory read or the groups of a token.
    #[inline(always)]
    pub fn push(&mut self, entry: Entry)
        requires room { 0 < self.old.spare }
        requires plain { has_read entry ≡ false }
        ensures list { self.new.list ≡ self.old.list ++ entry ∷ [] }
        ensures read { self.new.read ≡ self.old.read }
        ensures groups { self.new.groups ≡ self.old.groups }
        ensures reads { self.new.reads ≡ self.old.reads }
        ensures spare { self.new.spare + 1 ≡ self.old.spare }
    {
        self.list.push_reserved(entry);
    }

    /// Adds the answer of a call that read these bytes: success, with the bytes as its one field. There is spare room,
    /// there are at most 4096 bytes, and no entry of the list has a mark.
    pub fn push_read(&mut self, tid: u32, call: CallName, bytes: &[u8])
        requires room { 0 < self.old.spare }
        requires few { length bytes.now ≤ 4096 }
        requires first { self.old.reads ≡ false }
        ensures list { self.new.list ≡ self.old.list ++ Entry.Answer tid call SUCCESS
            ((record { name = FieldName.Data; value = Value.Bytes (record { items = bytes.now }) })
            ∷ []) ∷ [] }
        ensures read { self.new.read ≡ bytes.now }
        ensures groups { self.new.groups ≡ self.old.groups }
        ensures reads { self.new.reads ≡ true }
        ensures spare { self.new.spare + 1 ≡ self.old.spare }
    {
        self.read.clear();
        self.read.extend_from_slice(bytes).unwrap();
        let mut fields = Fields::none();
        fields.add(FieldName::Data, Value::Read);
        self.list.push_reserved(Entry::Answer {
            tid,
            call,
            status: status::SUCCESS,
            fields,
        });
    }

    /// Adds the answer of a call that told these groups of a token: success, with the groups as its one field. There is
    /// spare room, and no entry of the list has a mark.
    pub fn push_groups(&mut self, tid: u32, call: CallName, groups: ArrayVec<Sid, 16>)
        requires room { 0 < self.old.spare }
        requires first { self.old.reads ≡ false }
        ensures list { self.new.list ≡ self.old.list ++ Entry.Answer tid call SUCCESS
            ((record { name = FieldName.Groups; value = Value.Sids groups }) ∷ []) ∷ [] }
        ensures read { self.new.read ≡ self.old.read }
        ensures groups { self.new.groups ≡ groups.items }
        ensures reads { self.new.reads ≡ true }
        ensures spare { self.new.spare + 1 ≡ self.old.spare }
    {
        self.groups = groups;
        let mut fields = Fields::none();
        fields.add(FieldName::Groups, Value::TokenGroups);
        self.list.push_reserved(Entry::Answer {
            tid,
            call,
            status: status::SUCCESS,
            fields,
        });
    }

    /// The entries in order, with a mark where the bytes of a memory read or the groups of a token stand.
    pub fn list(&self) -> &[Entry]
        ensures { map (shown_entry (aside_of self.now)) result.now ≡ self.now.list }
    {
        &self.list
    }

    /// The bytes of the memory read, none where no entry has one.
    pub fn read_bytes(&self) -> &[u8]
        ensures bytes { result.now ≡ self.now.read }
        ensures none { self.now.reads ≡ false → result.now ≡ [] }
        ensures few { length result.now ≤ 4096 }
    {
        &self.read
    }

    /// The groups of the token that an entry tells of, none where no entry tells of any.
    pub fn groups(&self) -> &[Sid]
        ensures groups { result.now ≡ self.now.groups }
        ensures none { self.now.reads ≡ false → result.now ≡ [] }
    {
        self.groups.as_slice()
    }

    /// Empties the list; its room becomes spare.
    pub fn clear(&mut self)
        ensures list { self.new.list ≡ [] }
        ensures read { self.new.read ≡ [] }
        ensures groups { self.new.groups ≡ [] }
        ensures reads { self.new.reads ≡ false }
        ensures spare { self.new.spare ≡ self.old.spare + length self.old.list }
    {
        self.list.clear();
        self.read.clear();
        self.groups.clear();
    }
}
