// What connects offer to show to servers, with ample memory.
ghost use Rattle.std.specs.Prelude.{IsSome};
ghost use Rattle.lpc_waits.specs.Table.{row_of};

use arrayvec::ArrayVec;
use lpc_slots::Key;
use lpc_waits::{Accepted, Offer, Wait, WaitKind, Waits};
use std::process::Abort;
use std::test::Fail;

fn key(generation: u64) -> Key {
    Key {
        index: 0,
        generation,
    }
}

// A connect on port 1, in queue 2.
fn connect() -> Wait {
    Wait {
        process: 2,
        kind: WaitKind::Connect,
        port: key(1),
        queue: key(2),
        identifier: 7,
        received: false,
    }
}

// The second page of section 5.
fn offer() -> Offer {
    Offer {
        section: key(5),
        offset: 4096,
        size: 4096,
    }
}

fn accepted() -> Accepted {
    Accepted {
        reply: ArrayVec::new(),
        target: Some(0x10000),
        vbase: None,
        vsize: None,
    }
}

// So many connects that aren't accepted offer section 5, and none offers another.
fn offers(rt: &impl Abort, waits: &Waits, count: usize) {
    assert!(rt; waits.offers(key(5)) == count && waits.offers(key(6)) == 0);
    assert!(rt; waits.is_section_offered(key(5)) == (count > 0));
    assert!(rt; !waits.is_section_offered(key(6)));
}

// The connect of thread 4 offers the second page of section 5, or nothing.
fn fourth_offers(rt: &impl Abort, waits: &Waits, something: bool)
    requires { IsSome (row_of waits.now 4) }
{
    match waits.offer(4) {
        Some(offer) => {
            assert!(rt; something && offer.section == key(5));
            assert!(rt; offer.offset == 4096 && offer.size == 4096);
        }
        None => assert!(rt; !something),
    }
}

#[test]
fn connect_offers_a_part_of_a_section(rt: HostRuntime) -> Result<(), Fail> {
    let mut waits = Waits::new(rt.alloc());
    waits.reserve(1)?;
    waits.add(4, connect());
    fourth_offers(&rt, &waits, false);
    offers(&rt, &waits, 0);
    waits.set_offer(4, Some(offer()));
    fourth_offers(&rt, &waits, true);
    offers(&rt, &waits, 1);
    Ok(())
}

#[test]
fn offer_ends_with_the_accept(rt: HostRuntime) -> Result<(), Fail> {
    let mut waits = Waits::new(rt.alloc());
    waits.reserve(2)?;
    waits.add(4, connect());
    waits.set_offer(4, Some(offer()));
    waits.add(5, connect());
    waits.set_offer(5, Some(offer()));
    offers(&rt, &waits, 2);
    waits.set_accepted(4, Some(accepted()));
    offers(&rt, &waits, 1);
    Ok(())
}

#[test]
fn offer_is_taken_back(rt: HostRuntime) -> Result<(), Fail> {
    let mut waits = Waits::new(rt.alloc());
    waits.reserve(1)?;
    waits.add(4, connect());
    waits.set_offer(4, Some(offer()));
    waits.set_offer(4, None);
    offers(&rt, &waits, 0);
    Ok(())
}
