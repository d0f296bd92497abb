// The name space: a table from paths without links to what stands there, and the walk that finds them.
ghost use Rattle.std.specs.Prelude.{◌≡◌, ◌≢◌, ◌+◌, ◌<◌, ◌≤◌, length, slice_get, Err, None, Some, IfErr, IfOk, IsOk, OnOk, OnErr, [], not};
ghost use Rattle.lpc_names.specs.Path.{IsWithinPath, parts_of};
ghost use Rattle.lpc_names.specs.Walk as names;
ghost use Rattle.lpc_names.specs.Binding as binding;
ghost use Rattle.lpc_names.specs.Binding.{IsBound, RefusedBy, with_directory, with_item, with_link};
ghost use Rattle.lpc_names.specs.Kept.{bound_node, node_of, path_of, seen, seen_node, seen_path, shown_node, shown_place, shown_way, way_of, with_node_at};

use crate::text::{Text, join, length_of_name, read};
use crate::{BindFault, NameFault};
use indexmap::IndexMap;
use lpc_base::OutOfMemory;
use std::alloc::Global;
use std::marker::Model;

// How many links of one path are replaced.
const LINK_LIMIT: u32 = 32;

/// What a look-up finds.
#[derive(Clone, Copy, PartialEq, Eq)]
pub enum Found<T> {
    /// A directory; the root is one.
    Directory,
    /// An item that was bound.
    Item(T),
}

/// What a name stands for.
#[derive(Drop)]
pub enum Node<T> {
    /// What stands there itself.
    Stands(Found<T>),
    /// Another path, the target of a link.
    Link(Text),
}

impl<T: Copy + Eq> Node<T> {
    // The item stands here itself.
    fn is_item(&self, item: T) -> bool
        ensures { result ≡ binding.is_item T.eq item (shown_node self.now) }
    {
        match self {
            Node::Stands(Found::Item(other)) => *other == item,
            _ => false,
        }
    }
}

/// Where a path without links ends, and what stands there.
#[derive(Drop)]
pub struct Place<T> {
    path: Text,
    found: Option<Found<T>>,
}

/// How a walk goes on: it comes to the end of the path, or turns to another path at a link.
#[derive(Drop)]
pub enum Way<T> {
    /// The path ends, at what is found there.
    Ends(Option<Found<T>>),
    /// A link gives way: this path is to be walked.
    Turns(Text),
}

/// A name space: directories, links and items of type `T`, each bound at a path.
///
/// A path begins with a backslash, and its components are parted by backslashes; a backslash alone is the root, which
/// is a directory that always stands. Names compare byte for byte. A component that is a link, the last one too, gives
/// way to the link's target. Which paths are at fault, and in which order the faults are found, is this project's own
/// profile.
///
/// A clause sees the bindings in the order in which they were made, and the spare room: how many more go in without
/// memory.
#[derive(Drop)]
pub struct Names<T: Copy + Eq> {
    nodes: IndexMap<Text, Node<T>>,
}

impl<T: Copy + Eq> Model for Names<T> {
    ghost use Rattle.indexmap.specs.IndexMap.{spare};
    ghost use Rattle.lpc_names.specs.Binding.{NameSpace};

    ghost Value = { NameSpace T };

    ghost use Rattle.lpc_names.specs.Kept.{shown_all};

    ghost view = { λ names. record { bindings = shown_all names.nodes.entries; spare = spare names.nodes } };
}

// The key of a path, which leaves out its first backslash: the root has none.
fn key_of(path: &[u8]) -> Text
    requires some { 0 < length path.now }
    requires fits { IsWithinPath path.now }
    ensures { parts_of result.items ≡ path_of path.now }
{
    let mut key = Text::new();
    key.try_extend_from_slice(&path[1..]).unwrap();
    key
}

// What a walk comes to where no directory stands: this is the end of the path.
fn at_end<T: Copy>(found: Option<Found<T>>, rest: &[u8]) -> Result<Way<T>, NameFault>
    ensures { seen shown_way result ≡ names.at_end found (path_of rest.now) }
{
    if rest.is_empty() {
        Ok(Way::Ends(found))
    } else {
        Err(NameFault::PathNotFound)
    }
}

impl<T: Copy + Eq> Names<T> {
    /// A name space in which the root alone stands. What it binds later takes memory from `alloc`.
    pub fn new(alloc: Global) -> Names<T>
        ensures { result.bindings ≡ [] }
    {
        Names {
            nodes: IndexMap::new(alloc),
        }
    }

    /// What a path leads to.
    ///
    /// # Errors
    ///
    /// `PathSyntax`: the path does not begin with a backslash. `NameInvalid`: a component is empty, the path has more
    /// than 256 bytes, at first or after a link gave way, or a 33rd link stands on the way. `PathNotFound`: a component
    /// before the last is missing, or is an item. `NameNotFound`: the last component is missing.
    pub fn lookup(&self, path: &[u8]) -> Result<Found<T>, NameFault>
        ensures { result ≡ names.lookup self.now.bindings path.now }
    {
        self.walk(path)?.found.ok_or(NameFault::NameNotFound)
    }

    /// Makes room for `more` bindings: so many calls that bind then need no memory.
    ///
    /// # Errors
    ///
    /// `OutOfMemory`: memory ran out. Nothing is bound or unbound in either case.
    pub fn reserve(&mut self, more: usize) -> Result<(), OutOfMemory>
        ensures room { OnOk result (more ≤ self.new.spare) }
        ensures wanting { OnErr result (self.old.spare < more) }
        ensures kept { self.new.bindings ≡ self.old.bindings }
        ensures spare { self.old.spare ≤ self.new.spare }
    {
        self.nodes.reserve(more).map_err(|_| OutOfMemory)
    }

    /// Gives an item a name.
    ///
    /// A path whose last component is a link to a path where nothing stands binds there.
    ///
    /// # Errors
    ///
    /// `Name`: a fault of the path as for `lookup`, or `Collision`: something stands where the path leads, as the root
    /// does; nothing is changed. `OutOfMemory`: the path is free, there was no spare room, and memory ran out; nothing
    /// is bound or unbound.
    pub fn bind(&mut self, path: &[u8], item: T) -> Result<(), BindFault>
        ensures bound { IsBound (with_item self.old.bindings path.now item) self.new result }
        ensures refused { RefusedBy (with_item self.old.bindings path.now item) result }
        ensures left { IfErr result (λ fault. binding.Leaves fault self.old self.new) }
        ensures room { 0 < self.old.spare → result ≢ Err BindFault.OutOfMemory }
        ensures spare { OnOk result (self.old.spare ≤ self.new.spare + 1) }
    {
        self.bind_node(path, Node::Stands(Found::Item(item)))
    }

    /// Makes a directory.
    ///
    /// # Errors
    ///
    /// As for `bind`.
    pub fn add_directory(&mut self, path: &[u8]) -> Result<(), BindFault>
        ensures bound { IsBound (with_directory self.old.bindings path.now) self.new result }
        ensures refused { RefusedBy (with_directory self.old.bindings path.now) result }
        ensures left { IfErr result (λ fault. binding.Leaves fault self.old self.new) }
        ensures room { 0 < self.old.spare → result ≢ Err BindFault.OutOfMemory }
        ensures spare { OnOk result (self.old.spare ≤ self.new.spare + 1) }
    {
        self.bind_node(path, Node::Stands(Found::Directory))
    }

    /// Makes a link from one path to another, at which nothing need stand.
    ///
    /// # Errors
    ///
    /// As for `bind`; but first of all `Name` with `PathSyntax` or `NameInvalid` where the target is no path.
    pub fn add_link(&mut self, path: &[u8], target: &[u8]) -> Result<(), BindFault>
        ensures bound { IsBound (with_link self.old.bindings path.now target.now) self.new result }
        ensures refused { RefusedBy (with_link self.old.bindings path.now target.now) result }
        ensures left { IfErr result (λ fault. binding.Leaves fault self.old self.new) }
        ensures room { 0 < self.old.spare → result ≢ Err BindFault.OutOfMemory }
        ensures spare { OnOk result (self.old.spare ≤ self.new.spare + 1) }
    {
        let target = read(target).map_err(BindFault::Name)?;
        self.bind_node(path, Node::Link(target))
    }

    /// Takes away an item's name, the first that it was given, and answers whether it had one.
    pub fn unbind(&mut self, item: T) -> bool
        ensures answer { result ≡ binding.has_name T.eq item self.old.bindings }
        ensures bindings { self.new.bindings ≡ binding.without_name T.eq item self.old.bindings }
        ensures spare { self.old.spare ≤ self.new.spare }
    {
        for index in 0..self.nodes.len() {
            if self.is_name(index, item) {
                self.nodes.shift_remove_index(index);
                return true;
            }
        }
        false
    }

    /// Takes away all names of an item. The others stay in their order, and no room is lost.
    pub fn unbind_all(&mut self, item: T)
        ensures bindings { self.new.bindings ≡ binding.without_names T.eq item self.old.bindings }
        ensures spare { self.old.spare ≤ self.new.spare }
    {
        self.nodes.retain(
            |_path: &Text, node: &mut Node<T>| -> bool
                ensures kept { result ≡ not (binding.is_item T.eq item (shown_node node.old)) }
                ensures same { node.new ≡ node.old }
            { !node.is_item(item) },
        );
    }

    /// Whether a name leads to an item.
    pub fn has_name(&self, item: T) -> bool
        ensures { result ≡ binding.has_name T.eq item self.now.bindings }
    {
        for place in 0..self.nodes.len() {
            if self.is_name(place, item) {
                return true;
            }
        }
        false
    }

    /// How many names are bound.
    pub fn count(&self) -> usize
        ensures { result ≡ length self.now.bindings }
    {
        self.nodes.len()
    }

    /// The binding at a place: its path, as a text without the first backslash, and what stands there. Places go from 0
    /// in the order of binding.
    pub fn binding_at(&self, place: usize) -> (&[u8], &Node<T>)
        requires { place < length self.now.bindings }
        ensures { slice_get self.now.bindings place
            ≡ Some (parts_of result.0.now, shown_node result.1.now) }
    {
        match self.nodes.get_index(place) {
            Some((path, node)) => (path.as_slice(), node),
            None => unreachable!(),
        }
    }

    /// Whether a new name can be bound at a path: the fault that `bind` would answer, if there is one.
    pub fn test_free(&self, path: &[u8]) -> Result<(), NameFault>
        ensures fault { IfErr result (λ f. names.free_path self.now.bindings path.now ≡ Err f) }
        ensures free { OnOk result (IsOk (names.free_path self.now.bindings path.now)) }
    {
        self.free_path(path)?;
        Ok(())
    }

    // What is bound at a path that isn't the root.
    fn node(&self, path: &[u8]) -> Option<&Node<T>>
        requires some { 0 < length path.now }
        requires fits { IsWithinPath path.now }
        ensures { seen_node result ≡ node_of self.now.bindings path.now }
    {
        self.nodes.get(&key_of(path))
    }

    // Along the path up to its end or to its first link.
    fn way(&self, path: &Text) -> Result<Way<T>, NameFault>
        ensures { seen shown_way result ≡ way_of self.now.bindings path.now.items }
    {
        let bytes = path.as_slice();
        let mut walked = 0;
        let mut rest = bytes;
        while let [_, names @ ..] = rest {
            let (name, more) = names.split_at(length_of_name(names));
            walked += 1 + name.len();
            match self.node(&bytes[..walked]) {
                Some(Node::Stands(Found::Directory)) => rest = more,
                Some(Node::Stands(Found::Item(item))) => {
                    return at_end(Some(Found::Item(*item)), more);
                }
                Some(Node::Link(target)) => return Ok(Way::Turns(join(target, more)?)),
                None => return at_end(None, more),
            }
        }
        Ok(Way::Ends(Some(Found::Directory)))
    }

    // The walk of what a text spells.
    #[tactic(auto, unfolding(crate::specs::Walk::walk))]
    fn walk(&self, text: &[u8]) -> Result<Place<T>, NameFault>
        ensures { seen shown_place result ≡ names.walk self.now.bindings text.now }
    {
        let mut path = read(text)?;
        let mut left = LINK_LIMIT;
        loop {
            match self.way(&path)? {
                Way::Ends(found) => return Ok(Place { path, found }),
                Way::Turns(_) if left == 0 => return Err(NameFault::NameInvalid),
                Way::Turns(other) => path = other,
            }
            left -= 1;
        }
    }

    // The path at which a new name goes.
    fn free_path(&self, text: &[u8]) -> Result<Text, NameFault>
        ensures path { seen_path result ≡ names.free_path self.now.bindings text.now }
        ensures free { IfOk result (λ path. node_of self.now.bindings path.items ≡ None) }
        ensures some { IfOk result (λ path. 0 < length path.items) }
    {
        let place = self.walk(text)?;
        match place.found {
            None => Ok(place.path),
            Some(_) => Err(NameFault::Collision),
        }
    }

    // One more binding, at a path where nothing is bound.
    fn put(&mut self, path: &Text, node: Node<T>) -> Result<(), OutOfMemory>
        requires some { 0 < length path.now.items }
        requires free { node_of self.old.bindings path.now.items ≡ None }
        ensures bound { OnOk result (self.new.bindings
            ≡ with_node_at self.old.bindings path.now.items (shown_node node)) }
        ensures left { OnErr result (self.new.bindings ≡ self.old.bindings) }
        ensures room { 0 < self.old.spare → IsOk result }
        ensures spare { self.old.spare ≤ self.new.spare + 1 }
    {
        if self.nodes.insert(key_of(path), node).is_err() {
            return Err(OutOfMemory);
        }
        Ok(())
    }

    // One more binding, where a text leads.
    fn bind_node(&mut self, text: &[u8], node: Node<T>) -> Result<(), BindFault>
        ensures bound { IsBound (bound_node self.old.bindings text.now node) self.new result }
        ensures refused { RefusedBy (bound_node self.old.bindings text.now node) result }
        ensures left { IfErr result (λ fault. binding.Leaves fault self.old self.new) }
        ensures room { 0 < self.old.spare → result ≢ Err BindFault.OutOfMemory }
        ensures spare { OnOk result (self.old.spare ≤ self.new.spare + 1) }
    {
        let path = self.free_path(text).map_err(BindFault::Name)?;
        self.put(&path, node).map_err(|_| BindFault::OutOfMemory)
    }

    // The binding at an index is a name of the item.
    fn is_name(&self, index: usize, item: T) -> bool
        ensures { result ≡ binding.is_name_at T.eq item self.now.bindings index }
    {
        match self.nodes.get_index(index) {
            Some((_, node)) => node.is_item(item),
            None => false,
        }
    }
}
