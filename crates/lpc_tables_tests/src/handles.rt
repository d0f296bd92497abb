// The calls with ample memory, over values worked out by hand.
use lpc_handles::{Row, Table};
use std::process::Abort;
use std::test::Fail;

// Room is made, and a handle to the object gets this value.
fn adds(
    rt: &impl Abort,
    table: &mut Table<u8>,
    object: u8,
    access: u32,
    value: u32,
) -> Result<(), Fail> {
    table.reserve(1)?;
    assert!(rt; table.add(object, access).ok() == Some(value));
    Ok(())
}

// The handle with a value names this object and grants these rights.
fn names(rt: &impl Abort, row: Option<Row<u8>>, object: u8, access: u32) {
    assert!(rt; row == Some(Row { object, access }));
}

// Three handles, of which the middle one is closed.
fn closes_the_second(rt: &impl Abort, table: &mut Table<u8>) -> Result<(), Fail> {
    adds(rt, table, b'a', 1, 4)?;
    adds(rt, table, b'b', 2, 8)?;
    adds(rt, table, b'c', 3, 12)?;
    names(rt, table.get(8), b'b', 2);
    names(rt, table.close(8), b'b', 2);
    assert!(rt; table.get(8) == None);
    Ok(())
}

// A fourth handle takes the value that is free.
fn gives_the_second_again(rt: &impl Abort, table: &mut Table<u8>) -> Result<(), Fail> {
    assert!(rt; table.first_from(5) == Some(12));
    adds(rt, table, b'd', 4, 8)?;
    names(rt, table.get(8), b'd', 4);
    assert!(rt; table.first_from(13) == None);
    assert!(rt; table.names(b'd') && !table.names(b'b'));
    Ok(())
}

// A second handle to one object, while there is none to another any more.
fn counts_what_is_named_twice(rt: &impl Abort, table: &mut Table<u8>) -> Result<(), Fail> {
    adds(rt, table, b'd', 5, 16)?;
    assert!(rt; table.count_of(b'd') == 2);
    assert!(rt; table.count_of(b'c') == 1 && table.count_of(b'b') == 0);
    Ok(())
}

// The calls that the test makes.
fn handles_come_and_go(rt: &impl Abort, table: &mut Table<u8>) -> Result<(), Fail> {
    closes_the_second(rt, table)?;
    gives_the_second_again(rt, table)?;
    counts_what_is_named_twice(rt, table)
}

#[test]
fn handle_takes_the_least_free_multiple_of_four(rt: HostRuntime) -> Result<(), Fail> {
    let mut table: Table<u8> = Table::new(rt.alloc());
    handles_come_and_go(&rt, &mut table)
}
