// The table at one type, with ample memory.
ghost use Rattle.std.specs.Prelude.{◌≡◌, ◌<◌, ◌≤◌};

use lpc_slots::{Key, Slots};
use std::process::Abort;
use std::test::Fail;

// The row of a key holds this value, or there is none.
fn holds(rt: &impl Abort, slots: &Slots<u8>, key: Key, value: Option<&u8>) {
    assert!(rt; slots.get(key) == value);
}

// The row of a key is taken away, and held this value.
fn takes(rt: &impl Abort, slots: &mut Slots<u8>, key: Key, value: u8)
    ensures spare { slots.old.spare ≤ slots.new.spare }
    ensures made { slots.new.made ≡ slots.old.made }
{
    assert!(rt; slots.remove(key) == Some(value));
}

// The row at a place is this one.
fn stands(rt: &impl Abort, slots: &Slots<u8>, place: usize, key: Key, value: u8) {
    assert!(rt; place < slots.count());
    assert!(rt; slots.row(place) == (key, &value));
}

// The first of two rows is changed and taken away.
fn finds_values(rt: &impl Abort, slots: &mut Slots<u8>, first: Key, second: Key) {
    if let Some(value) = slots.get_mut(first) {
        *value = b'c';
    }
    holds(rt, slots, first, Some(&b'c'));
    takes(rt, slots, first, b'c');
    holds(rt, slots, first, None);
    holds(rt, slots, second, Some(&b'b'));
}

#[test]
fn room_is_made_and_keys_find_their_values(rt: HostRuntime) -> Result<(), Fail> {
    let mut slots = Slots::new(rt.alloc());
    slots.reserve(2)?;
    let first = slots.insert_reserved(b'a');
    let second = slots.insert_reserved(b'b');
    finds_values(&rt, &mut slots, first, second);
    Ok(())
}

// Three rows, of which the middle one is taken away. Its key is not given again.
fn rows_move_up(rt: &impl Abort, slots: &mut Slots<u8>, first: Key, second: Key, third: Key)
    requires room { 0 < slots.old.spare }
    requires few { slots.old.made < 1000 }
{
    assert!(rt; slots.count() == 3);
    stands(rt, slots, 1, second, b'b');
    takes(rt, slots, second, b'b');
    assert!(rt; slots.count() == 2);
    stands(rt, slots, 0, first, b'a');
    stands(rt, slots, 1, third, b'c');
    let fourth = slots.insert_reserved(b'd');
    assert!(rt; fourth != first && fourth != second && fourth != third);
}

#[test]
fn rows_stand_in_the_order_of_making(rt: HostRuntime) -> Result<(), Fail> {
    let mut slots = Slots::new(rt.alloc());
    slots.reserve(4)?;
    let first = slots.insert_reserved(b'a');
    let second = slots.insert_reserved(b'b');
    let third = slots.insert_reserved(b'c');
    rows_move_up(&rt, &mut slots, first, second, third);
    Ok(())
}
