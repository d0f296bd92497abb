// The resident server's core with ample memory, against replies worked out by hand.
ghost use Rattle.std.specs.Prelude.{◌≤◌};

use arrayvec::ArrayVec;
use lpc_message::{ClientId, Header, MessageRef, kind, write_header};
use lpc_subsys::Server;
use std::process::Abort;
use std::test::Fail;

// A request of process 32 with these data is answered so, where the client's view has these bytes then.
fn answers(
    rt: &impl Abort,
    server: &mut Server,
    data: &[u8],
    view: Option<&[u8]>,
    wanted: &[u8],
) -> Result<(), Fail> {
    let size = data.len().min(232);
    let mut bytes = [0; 256];
    bytes[..24].copy_from_slice(&front(size as u16));
    bytes[24..24 + size].copy_from_slice(&data[..size]);
    let Ok(message) = MessageRef::read(&bytes[..24 + size]) else {
        assert!(rt; false, "these bytes are a message");
        return Ok(());
    };
    let mut reply = ArrayVec::new();
    server.turn(&message, view, &mut reply)?;
    assert!(rt; reply.as_slice() == wanted);
    Ok(())
}

// The header of a request of process 32 with so many bytes of data.
fn front(size: u16) -> [u8; 24]
    requires { size ≤ 232 }
{
    let header = Header {
        data_size: size,
        message_size: size + 24,
        kind: kind::REQUEST,
        ranges_offset: 0,
        client: ClientId {
            process: 32,
            thread: 36,
        },
        message_id: 2,
        section_size: 0,
    };
    let mut bytes = [0; 24];
    write_header(&mut bytes, &header);
    bytes
}

// Two texts get atoms, and one that comes again has the atom that it has.
fn names_texts(rt: &impl Abort, server: &mut Server) -> Result<(), Fail> {
    answers(rt, server, b"\x01\0\0\0OK", None, b"\0\0\0\0\0\xC0\0\0")?;
    answers(rt, server, b"\x01\0\0\0a", None, b"\0\0\0\0\x01\xC0\0\0")?;
    answers(rt, server, b"\x01\0\0\0OK", None, b"\0\0\0\0\0\xC0\0\0")
}

// The text of an atom, one without a text, and a text of no bytes.
fn finds_texts(rt: &impl Abort, server: &mut Server) -> Result<(), Fail> {
    answers(rt, server, b"\x02\0\0\0\x01\xC0\0\0", None, b"\0\0\0\0a")?;
    answers(rt, server, b"\x02\0\0\0\x02\xC0\0\0", None, b"\x34\0\0\xC0")?;
    answers(rt, server, b"\x01\0\0\0", None, b"\x0D\0\0\xC0")
}

// 3,000 bytes come from the view, and one more from a message.
fn writes(rt: &impl Abort, server: &mut Server) -> Result<(), Fail> {
    let view = [0x61; 3000];
    let write = b"\x04\0\0\0\0\0\0\0\xB8\x0B\0\0";
    answers(rt, server, write, Some(&view), b"\0\0\0\0\xB8\x0B\0\0")?;
    answers(rt, server, write, Some(&view[1..]), b"\x0D\0\0\xC0")?;
    answers(rt, server, b"\x03\0\0\0b", None, b"\0\0\0\0\xB9\x0B\0\0")
}

// From place 2,999 on stand two bytes, at place 3,001 the end, and place 3,002 is past it.
fn reads(rt: &impl Abort, server: &mut Server) -> Result<(), Fail> {
    answers(
        rt,
        server,
        b"\x05\0\0\0\xB7\x0B\0\0\xC8\0\0\0",
        None,
        b"\0\0\0\0ab",
    )?;
    answers(
        rt,
        server,
        b"\x05\0\0\0\xB9\x0B\0\0\xC8\0\0\0",
        None,
        b"\0\0\0\0",
    )?;
    answers(
        rt,
        server,
        b"\x05\0\0\0\xBA\x0B\0\0\xC8\0\0\0",
        None,
        b"\x0D\0\0\xC0",
    )
}

// The level is 640 until it is set, and 1,279 at most.
fn sets_the_level(rt: &impl Abort, server: &mut Server) -> Result<(), Fail> {
    answers(rt, server, b"\x07\0\0\0", None, b"\0\0\0\0\x80\x02\0\0")?;
    answers(rt, server, b"\x06\0\0\0\xFF\x04\0\0", None, b"\0\0\0\0")?;
    answers(rt, server, b"\x06\0\0\0\0\x05\0\0", None, b"\x0D\0\0\xC0")?;
    answers(rt, server, b"\x07\0\0\0", None, b"\0\0\0\0\xFF\x04\0\0")
}

// What a client with a state is answered.
fn serves(rt: &impl Abort, server: &mut Server) -> Result<(), Fail> {
    names_texts(rt, server)?;
    finds_texts(rt, server)?;
    writes(rt, server)?;
    reads(rt, server)?;
    sets_the_level(rt, server)
}

#[test]
fn client_is_served(rt: HostRuntime) -> Result<(), Fail> {
    let mut server = Server::new(rt.alloc());
    server.join(32)?;
    serves(&rt, &mut server)
}

#[test]
fn client_that_left_is_a_stranger(rt: HostRuntime) -> Result<(), Fail> {
    let mut server = Server::new(rt.alloc());
    server.join(32)?;
    server.leave(32);
    answers(&rt, &mut server, b"\x07\0\0\0", None, b"\x22\0\0\xC0")
}
