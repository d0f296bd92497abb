// Names against answers that the rules give.
use crate::common::says;
use lpc_base::Status;
use lpc_names::{BindFault, Found, NameFault, Names, status_of};
use std::alloc::Global;
use std::process::Abort;
use std::test::Fail;

// A call that binds succeeds, or is refused by this fault of the names.
fn answers(rt: &impl Abort, answer: Result<(), BindFault>, fault: Option<NameFault>) {
    match (answer, fault) {
        (Ok(()), None) => {}
        (Err(BindFault::Name(found)), Some(fault)) => assert!(rt; found == fault),
        _ => assert!(rt; false),
    }
}

// An item gets a name, or the path is at fault.
fn binds(
    rt: &impl Abort,
    names: &mut Names<u32>,
    path: &[u8],
    item: u32,
    fault: Option<NameFault>,
) {
    answers(rt, names.bind(path, item), fault);
}

// A directory is made.
fn makes_directory(rt: &impl Abort, names: &mut Names<u32>, path: &[u8]) {
    answers(rt, names.add_directory(path), None);
}

// A link is made, or one of the two paths is at fault.
fn links(
    rt: &impl Abort,
    names: &mut Names<u32>,
    path: &[u8],
    target: &[u8],
    fault: Option<NameFault>,
) {
    answers(rt, names.add_link(path, target), fault);
}

// A path leads to this item.
fn finds(rt: &impl Abort, names: &Names<u32>, path: &[u8], item: u32) {
    assert!(rt; names.lookup(path) == Ok(Found::Item(item)));
}

// A path leads to a directory.
fn finds_directory(rt: &impl Abort, names: &Names<u32>, path: &[u8]) {
    assert!(rt; names.lookup(path) == Ok(Found::Directory));
}

// A path leads to nothing, by this fault.
fn misses(rt: &impl Abort, names: &Names<u32>, path: &[u8], fault: NameFault) {
    assert!(rt; names.lookup(path) == Err(fault));
}

// A directory, a link to it and a link to itself; a path without a backslash in front, with one at its end, and under a
// missing directory.
fn has_faults_of_form(rt: &impl Abort, names: &mut Names<u32>) {
    makes_directory(rt, names, b"\\Windows");
    links(rt, names, b"\\L", b"\\Windows", None);
    links(rt, names, b"\\Q", b"\\Q", None);
    binds(rt, names, b"Windows", 4, Some(NameFault::PathSyntax));
    binds(rt, names, b"\\Windows\\", 4, Some(NameFault::NameInvalid));
    binds(rt, names, b"\\A\\B", 4, Some(NameFault::PathNotFound));
}

// A name is bound through a link; nothing is bound there again, through a circle of links, or under an item.
fn has_faults_of_binding(rt: &impl Abort, names: &mut Names<u32>) {
    binds(rt, names, b"\\L\\P", 4, None);
    binds(rt, names, b"\\Windows\\P", 8, Some(NameFault::Collision));
    binds(rt, names, b"\\Q\\P", 8, Some(NameFault::NameInvalid));
    binds(
        rt,
        names,
        b"\\Windows\\P\\X",
        8,
        Some(NameFault::PathNotFound),
    );
}

// What look-ups find then.
fn has_faults_of_looking_up(rt: &impl Abort, names: &Names<u32>) {
    misses(rt, names, b"\\Windows\\R", NameFault::NameNotFound);
    finds_directory(rt, names, b"\\Windows");
    finds(rt, names, b"\\Windows\\P", 4);
    misses(rt, names, b"\\Windows\\P\\X", NameFault::PathNotFound);
}

#[test]
fn each_fault_of_a_path_is_found(rt: HostRuntime) {
    let mut names: Names<u32> = Names::new(rt.alloc());
    has_faults_of_form(&rt, &mut names);
    has_faults_of_binding(&rt, &mut names);
    has_faults_of_looking_up(&rt, &names);
}

// A free name is bound, and free no more.
fn tells_free_names(rt: &impl Abort, names: &mut Names<u32>) {
    assert!(rt; names.test_free(b"\\A") == Ok(()));
    binds(rt, names, b"\\A", 4, None);
    assert!(rt; names.test_free(b"\\A") == Err(NameFault::Collision));
    assert!(rt; names.test_free(b"A") == Err(NameFault::PathSyntax));
}

#[test]
fn free_name_is_told_before_it_is_bound(rt: HostRuntime) {
    let mut names: Names<u32> = Names::new(rt.alloc());
    tells_free_names(&rt, &mut names);
}

// The root, and paths that don't lead there.
fn has_a_root(rt: &impl Abort, names: &mut Names<u32>) {
    finds_directory(rt, names, b"\\");
    answers(rt, names.add_directory(b"\\"), Some(NameFault::Collision));
    misses(rt, names, b"", NameFault::PathSyntax);
    misses(rt, names, b"\\\\A", NameFault::NameInvalid);
}

#[test]
fn root_always_stands(rt: HostRuntime) {
    let mut names: Names<u32> = Names::new(rt.alloc());
    has_a_root(&rt, &mut names);
}

// One of two names is unbound.
fn unbinds_a_name(rt: &impl Abort, names: &mut Names<u32>) {
    assert!(rt; names.reserve(2) == Ok(()));
    binds(rt, names, b"\\A", 4, None);
    binds(rt, names, b"\\B", 8, None);
    assert!(rt; names.has_name(4) && names.unbind(4));
    assert!(rt; !names.has_name(4) && names.has_name(8));
    assert!(rt; !names.unbind(4));
}

// What is left, and another name in its place.
fn binds_again(rt: &impl Abort, names: &mut Names<u32>) {
    misses(rt, names, b"\\A", NameFault::NameNotFound);
    finds(rt, names, b"\\B", 8);
    binds(rt, names, b"\\A", 12, None);
    finds(rt, names, b"\\A", 12);
}

#[test]
fn item_has_its_name_until_it_is_unbound(rt: HostRuntime) {
    let mut names: Names<u32> = Names::new(rt.alloc());
    unbinds_a_name(&rt, &mut names);
    binds_again(&rt, &mut names);
}

// An item has two names, and another one has a name between them; the two go.
fn unbinds_both(rt: &impl Abort, names: &mut Names<u32>) {
    assert!(rt; names.reserve(3) == Ok(()));
    binds(rt, names, b"\\A", 4, None);
    binds(rt, names, b"\\B", 8, None);
    binds(rt, names, b"\\C", 4, None);
    names.unbind_all(4);
}

// The name of the other item is left.
fn finds_the_other(rt: &impl Abort, names: &Names<u32>) {
    misses(rt, names, b"\\A", NameFault::NameNotFound);
    finds(rt, names, b"\\B", 8);
    misses(rt, names, b"\\C", NameFault::NameNotFound);
}

#[test]
fn item_loses_all_its_names(rt: HostRuntime) {
    let mut names: Names<u32> = Names::new(rt.alloc());
    unbinds_both(&rt, &mut names);
    finds_the_other(&rt, &names);
}

// A link to a path where nothing stands, and one to the root; then a name is bound where the first leads.
fn binds_through_links(rt: &impl Abort, names: &mut Names<u32>) {
    links(rt, names, b"\\L", b"\\D\\P", None);
    links(rt, names, b"\\R", b"\\", None);
    misses(rt, names, b"\\L", NameFault::PathNotFound);
    makes_directory(rt, names, b"\\D");
    binds(rt, names, b"\\R\\L", 4, None);
}

// What the paths through them lead to.
fn finds_through_links(rt: &impl Abort, names: &Names<u32>) {
    finds(rt, names, b"\\D\\P", 4);
    finds(rt, names, b"\\R\\R\\L", 4);
    finds_directory(rt, names, b"\\R");
}

#[test]
fn link_gives_way_to_its_target(rt: HostRuntime) {
    let mut names: Names<u32> = Names::new(rt.alloc());
    binds_through_links(&rt, &mut names);
    finds_through_links(&rt, &names);
}

// Both paths of a link are at fault, and then one alone.
fn has_faults_of_targets(rt: &impl Abort, names: &mut Names<u32>) {
    links(rt, names, b"L", b"\\A\\", Some(NameFault::NameInvalid));
    links(rt, names, b"\\L\\", b"A", Some(NameFault::PathSyntax));
    links(rt, names, b"L", b"\\A", Some(NameFault::PathSyntax));
}

#[test]
fn faults_of_a_target_come_first(rt: HostRuntime) {
    let mut names: Names<u32> = Names::new(rt.alloc());
    has_faults_of_targets(&rt, &mut names);
}

// A path of 257 bytes, and one of 256, without a link.
fn has_long_paths(rt: &impl Abort, names: &mut Names<u32>, path: &[u8; 257]) {
    binds(rt, names, path, 4, Some(NameFault::NameInvalid));
    binds(rt, names, &path[..256], 4, None);
    finds(rt, names, &path[..256], 4);
}

// A link to 255 bytes has room for one byte more, where a part has two at least.
fn turns_to_255_bytes(rt: &impl Abort, names: &mut Names<u32>, path: &[u8; 257]) {
    links(rt, names, b"\\L", &path[..255], None);
    misses(rt, names, b"\\L\\", NameFault::NameInvalid);
    misses(rt, names, b"\\L\\y", NameFault::NameInvalid);
    misses(rt, names, b"\\L", NameFault::NameNotFound);
}

// A link to 254 bytes has room for a part of one byte.
fn turns_to_254_bytes(rt: &impl Abort, names: &mut Names<u32>, path: &[u8; 257]) {
    links(rt, names, b"\\M", &path[..254], None);
    misses(rt, names, b"\\M\\y", NameFault::PathNotFound);
    misses(rt, names, b"\\M\\yz", NameFault::NameInvalid);
}

#[test]
fn path_has_256_bytes_at_most(rt: HostRuntime) {
    let mut names: Names<u32> = Names::new(rt.alloc());
    let mut path = [b'x'; 257];
    path[0] = b'\\';
    has_long_paths(&rt, &mut names, &path);
    turns_to_255_bytes(&rt, &mut names, &path);
    turns_to_254_bytes(&rt, &mut names, &path);
}

// A chain of 33 links, each to the next.
fn makes_a_chain(rt: &impl Abort, names: &mut Names<u32>) {
    for letter in b'1'..b'1' + 33 {
        links(rt, names, &[b'\\', letter - 1], &[b'\\', letter], None);
    }
}

// Its end is found over 32 links, and not over 33.
fn follows_the_chain(rt: &impl Abort, names: &mut Names<u32>) {
    binds(rt, names, &[b'\\', b'0' + 33], 4, None);
    finds(rt, names, b"\\2", 4);
    finds(rt, names, b"\\1", 4);
    misses(rt, names, b"\\0", NameFault::NameInvalid);
}

#[test]
fn links_are_followed_32_times_at_most(rt: HostRuntime) {
    let mut names: Names<u32> = Names::new(rt.alloc());
    makes_a_chain(&rt, &mut names);
    follows_the_chain(&rt, &mut names);
}

#[test]
fn faults_have_their_statuses(rt: HostRuntime) {
    assert!(rt; status_of(NameFault::PathSyntax) == Status(0xC000_003B));
    assert!(rt; status_of(NameFault::NameInvalid) == Status(0xC000_0033));
    assert!(rt; status_of(NameFault::PathNotFound) == Status(0xC000_003A));
    assert!(rt; status_of(NameFault::NameNotFound) == Status(0xC000_0034));
    assert!(rt; status_of(NameFault::Collision) == Status(0xC000_0035));
}

// The text of a fault of the names is the same with and without the rest around it.
fn says_name(rt: &impl Abort, alloc: Global, fault: NameFault, text: &str) -> Result<(), Fail> {
    says(rt, alloc, &fault, text)?;
    says(rt, alloc, &BindFault::Name(fault), text)
}

// The texts of the faults that a path has by itself.
fn says_faults_of_form(rt: &impl Abort, alloc: Global) -> Result<(), Fail> {
    says_name(
        rt,
        alloc,
        NameFault::PathSyntax,
        "the path does not begin with a backslash",
    )?;
    let words = "the path has an empty component, too many bytes or too many links";
    says_name(rt, alloc, NameFault::NameInvalid, words)
}

// The texts of the others.
fn says_faults_of_walks(rt: &impl Abort, alloc: Global) -> Result<(), Fail> {
    says_name(
        rt,
        alloc,
        NameFault::PathNotFound,
        "an inner component is no directory",
    )?;
    says_name(rt, alloc, NameFault::NameNotFound, "nothing has the name")?;
    says_name(
        rt,
        alloc,
        NameFault::Collision,
        "something has the name already",
    )?;
    says(rt, alloc, &BindFault::OutOfMemory, "out of memory")
}

#[test]
fn faults_say_what_is_wrong(rt: HostRuntime) -> Result<(), Fail> {
    says_faults_of_form(&rt, rt.alloc())?;
    says_faults_of_walks(&rt, rt.alloc())
}
