// The rows of a small world with ample memory, written out by hand.
use crate::common::boots;
use lpc_base::status::SUCCESS;
use lpc_snapshot::print_rows;
use lpc_tokens::TokenArena;
use lpc_world::World;
use std::test::Fail;

// A process and its thread, made by a directive: each has one live thread to count for it, and no handle.
const ROWS: &[u8] = b"\"process 0.20\",\"number\":20,\"maker\":null,\
\"token\":{\"user\":\"S-1-5-18\",\"groups\":[\"S-1-5-32-544\",\"S-1-1-0\"]},\
\"debug_port\":null,\"exception_port\":null,\"doom\":null,\"handles\":0,\"pointers\":1\n\
\"thread 0.24\",\"number\":24,\"process\":20,\"live\":true,\"next_identifier\":1,\"next_ordinal\":1,\
\"registrations\":[],\"acts_as\":null,\"handles\":0,\"pointers\":1\n";

#[test]
fn a_world_shows_its_rows(rt: HostRuntime) -> Result<(), Fail> {
    let arena = TokenArena::new(rt.alloc());
    let mut world = World::empty(rt.alloc(), &arena);
    let mut text = Vec::new(rt.alloc());
    print_rows(&world, &mut text)?;
    assert!(rt; text.is_empty());
    boots(&rt, &mut world, 20, 24, SUCCESS)?;
    print_rows(&world, &mut text)?;
    assert!(rt; text.as_slice() == ROWS);
    Ok(())
}
