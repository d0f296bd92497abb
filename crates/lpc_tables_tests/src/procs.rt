// The calls with ample memory, over rows written out by hand.
ghost use Rattle.std.specs.Prelude.{◌≡◌, ◌<◌, IsSomeAnd, is_some, length, true};
ghost use Rattle.lpc_procs.specs.Procs.{HasOrdinalLeft, birth_of, process_at, thread_at};
ghost use Rattle.lpc_procs.specs.declared.rows.Number.TheVariants as number;

use crate::common::guest;
use lpc_base::Birth;
use lpc_message::ClientId;
use lpc_procs::{Number, Procs};
use lpc_sid::Token;
use lpc_slots::Key;
use lpc_tokens::level::IDENTIFICATION;
use lpc_tokens::{Impersonation, TokenRef};
use std::process::Abort;
use std::test::Fail;

// The name of what a directive makes.
fn made(number: u32) -> Birth {
    Birth {
        maker: 0,
        ordinal: number,
        process: 0,
    }
}

// These numbers were used, and are of one process.
fn shows_used(rt: &impl Abort, procs: &Procs, pid: u32, tid: u32) {
    assert!(rt; procs.was_used(Number::Process(pid)));
    assert!(rt; procs.was_used(Number::Thread(tid)));
    assert!(rt; procs.process_of(tid) == Some(pid));
}

// How many rows there are, and how many live threads, in process 20 and in all.
fn counts(rt: &impl Abort, procs: &Procs, rows: (usize, usize), live: (usize, usize)) {
    assert!(rt; (procs.processes(), procs.threads()) == rows);
    assert!(rt; (procs.live_count(20), procs.alive()) == live);
}

// A process has a number that no thread has.
fn shows_a_process_alone(rt: &impl Abort, procs: &Procs) {
    assert!(rt; procs.was_used(Number::Process(20)));
    assert!(rt; !procs.was_used(Number::Thread(20)));
}

// The key of a port.
fn key(generation: u64) -> Key {
    Key {
        index: 0,
        generation,
    }
}

// Thread 20 draws its first birth.
fn draws_a_birth(rt: &impl Abort, procs: &mut Procs)
    requires present { is_some (thread_at procs.old 20) ≡ true }
    requires left { IsSomeAnd (thread_at procs.old 20) HasOrdinalLeft }
{
    let first = Birth {
        maker: 20,
        ordinal: 1,
        process: 20,
    };
    assert!(rt; procs.next_birth(20) == first);
    assert!(rt; procs.draw_birth(20) == first);
}

#[test]
fn thread_of_a_directive_draws_from_one(rt: HostRuntime) -> Result<(), Fail> {
    let guest = guest();
    let mut procs = Procs::new(rt.alloc());
    procs.reserve(1, 1)?;
    procs.add_process(20, None, made(20), &TokenRef::new(&guest));
    shows_a_process_alone(&rt, &procs);
    procs.add_thread(20, 20, made(20));
    let first = procs.draw_identifier(20);
    let second = procs.draw_identifier(20);
    assert!(rt; (first, second) == (1, 2));
    shows_used(&rt, &procs, 20, 20);
    draws_a_birth(&rt, &mut procs);
    Ok(())
}

// The thread 24 of process 20 is live or not.
fn lives(rt: &impl Abort, procs: &Procs, live: bool)
    requires { is_some (thread_at procs.now 24) ≡ true }
{
    let client = ClientId {
        process: 20,
        thread: 24,
    };
    assert!(rt; procs.live_thread(client) == live);
    assert!(rt; procs.live(24) == live);
    assert!(rt; procs.live_row(24).is_some() == live);
    assert!(rt; procs.is_live(20) && !procs.is_live(24));
}

// What the row of thread 24 shows.
fn shows_its_row(rt: &impl Abort, procs: &Procs) {
    let Some(row) = procs.live_row(24) else {
        assert!(rt; false);
        return;
    };
    assert!(rt; (row.number, row.process) == (24, 20));
    assert!(rt; (row.next_identifier, row.next_ordinal) == (1, 1));
    assert!(rt; row.birth == made(24));
}

#[test]
fn thread_lives_until_it_ends(rt: HostRuntime) -> Result<(), Fail> {
    let guest = guest();
    let mut procs = Procs::new(rt.alloc());
    procs.reserve(1, 2)?;
    procs.add_process(20, Some(16), made(20), &TokenRef::new(&guest));
    procs.add_thread(24, 20, made(24));
    procs.add_thread(28, 20, made(28));
    shows_its_row(&rt, &procs);
    lives(&rt, &procs, true);
    counts(&rt, &procs, (1, 2), (2, 2));
    procs.end_thread(24);
    lives(&rt, &procs, false);
    counts(&rt, &procs, (1, 2), (1, 1));
    Ok(())
}

// Who made process 20, and the births of its row and its thread's.
fn shows_births(rt: &impl Abort, procs: &Procs)
    requires maker { is_some (process_at procs.now 20) ≡ true }
    requires process { is_some (birth_of procs.now (number.Process 20)) ≡ true }
    requires thread { is_some (birth_of procs.now (number.Thread 24)) ≡ true }
{
    assert!(rt; procs.maker(20) == Some(16));
    assert!(rt; procs.birth(Number::Process(20)) == made(20));
    assert!(rt; procs.birth(Number::Thread(24)) == made(24));
}

#[test]
fn number_of_a_row_that_goes_stays_used(rt: HostRuntime) -> Result<(), Fail> {
    let guest = guest();
    let mut procs = Procs::new(rt.alloc());
    procs.reserve(1, 1)?;
    procs.add_process(20, Some(16), made(20), &TokenRef::new(&guest));
    procs.add_thread(24, 20, made(24));
    shows_births(&rt, &procs);
    procs.end_thread(24);
    procs.free_thread_born(made(24));
    procs.free_process_born(made(20));
    counts(&rt, &procs, (0, 0), (0, 0));
    shows_used(&rt, &procs, 20, 24);
    Ok(())
}

// What thread 24 registered: whether the first and the second port, and how many.
fn shows_registered(rt: &impl Abort, procs: &Procs, ports: (bool, bool), count: usize)
    requires { is_some (thread_at procs.now 24) ≡ true }
{
    let registered = (
        procs.is_registered(24, made(4)),
        procs.is_registered(24, made(8)),
    );
    assert!(rt; registered == ports);
    assert!(rt; procs.registration_count(24) == count);
    assert!(rt; procs.registrations_of(24).len() == count);
}

// How many registrations there are, and how many of live threads are of the first port.
fn counts_registered(rt: &impl Abort, procs: &Procs, all: usize, first: usize) {
    assert!(rt; procs.registrations() == all);
    assert!(rt; procs.registered_to(made(4)) == first);
    assert!(rt; procs.names(made(4)) == (all == 2));
}

#[test]
fn thread_registers_ports_until_they_are_taken_away(rt: HostRuntime) -> Result<(), Fail> {
    let guest = guest();
    let mut procs = Procs::new(rt.alloc());
    procs.reserve(1, 1)?;
    procs.add_process(20, None, made(20), &TokenRef::new(&guest));
    procs.add_thread(24, 20, made(24));
    procs.register(24, key(1), made(4));
    procs.register(24, key(2), made(8));
    shows_registered(&rt, &procs, (true, true), 2);
    counts_registered(&rt, &procs, 2, 1);
    procs.unregister(24, made(4));
    shows_registered(&rt, &procs, (false, true), 1);
    counts_registered(&rt, &procs, 1, 0);
    Ok(())
}

// Thread 24 is the one that is told of next, and this port the one that is told.
fn tells(rt: &impl Abort, procs: &Procs, port: Key, birth: Birth) {
    let Some((tid, r)) = procs.first_to_tell(20) else {
        assert!(rt; false);
        return;
    };
    assert!(rt; tid == 24 && r.port == port && r.birth == birth);
}

#[test]
fn ended_thread_tells_its_ports_in_their_order(rt: HostRuntime) -> Result<(), Fail> {
    let guest = guest();
    let mut procs = Procs::new(rt.alloc());
    procs.reserve(1, 1)?;
    procs.add_process(20, None, made(20), &TokenRef::new(&guest));
    procs.add_thread(24, 20, made(24));
    procs.register(24, key(1), made(4));
    procs.register(24, key(2), made(8));
    assert!(rt; procs.first_to_tell(20).is_none());
    procs.end_thread(24);
    counts_registered(&rt, &procs, 2, 0);
    tells(&rt, &procs, key(1), made(4));
    procs.unregister(24, made(4));
    tells(&rt, &procs, key(2), made(8));
    procs.unregister(24, made(8));
    assert!(rt; procs.first_to_tell(20).is_none());
    Ok(())
}

// The first live thread of process 20.
fn finds(rt: &impl Abort, procs: &Procs, live: Option<u32>) {
    assert!(rt; procs.first_live(20) == live);
}

#[test]
fn what_lives_is_found_in_the_order_of_making(rt: HostRuntime) -> Result<(), Fail> {
    let guest = guest();
    let mut procs = Procs::new(rt.alloc());
    procs.reserve(1, 2)?;
    procs.add_process(20, None, made(20), &TokenRef::new(&guest));
    finds(&rt, &procs, None);
    procs.add_thread(28, 20, made(28));
    procs.add_thread(24, 20, made(24));
    finds(&rt, &procs, Some(28));
    procs.end_thread(28);
    finds(&rt, &procs, Some(24));
    Ok(())
}

// Process 20 and thread 24 are found under their names, and no process under the thread's.
fn finds_by_name(rt: &impl Abort, procs: &Procs, live: bool) {
    assert!(rt; procs.process_born(made(20)) == Some(20));
    assert!(rt; procs.process_born(made(24)).is_none());
    let Some(found) = procs.thread_born(made(24)) else {
        assert!(rt; false);
        return;
    };
    assert!(rt; (found.number, found.process, found.live) == (24, 20, live));
}

// Whether process 20 and thread 24, each the first of its kind, are live, as their places and their names tell it.
fn tells_lives(rt: &impl Abort, procs: &Procs, live: bool)
    requires process { 0 < length procs.now.processes }
    requires thread { 0 < length procs.now.threads }
{
    let (process, thread) = (procs.process_in(0), procs.thread_in(0));
    assert!(rt; process.birth == made(20) && process.live == live);
    assert!(rt; thread.birth == made(24) && thread.live == live);
    assert!(rt; (procs.lives_of_thread(made(24)) == 1) == live);
}

// How many live children process 16 has, of which process 20 is one, and process 20 has none.
fn counts_children(rt: &impl Abort, procs: &Procs, live: usize) {
    assert!(rt; (procs.live_children(16), procs.live_children(20)) == (live, 0));
}

#[test]
fn what_has_ended_is_found_and_told_as_not_live(rt: HostRuntime) -> Result<(), Fail> {
    let guest = guest();
    let mut procs = Procs::new(rt.alloc());
    procs.reserve(1, 1)?;
    procs.add_process(20, Some(16), made(20), &TokenRef::new(&guest));
    procs.add_thread(24, 20, made(24));
    finds_by_name(&rt, &procs, true);
    tells_lives(&rt, &procs, true);
    counts_children(&rt, &procs, 1);
    procs.end_thread(24);
    finds_by_name(&rt, &procs, false);
    tells_lives(&rt, &procs, false);
    counts_children(&rt, &procs, 0);
    Ok(())
}

// Process 20 is who it was made as; its thread 24 acts as the local system, or with the token of the process.
fn shows_tokens(rt: &impl Abort, procs: &Procs, acts: bool)
    requires process { is_some (process_at procs.now 20) ≡ true }
    requires thread { is_some (thread_at procs.now 24) ≡ true }
{
    assert!(rt; *procs.token(20).get() == guest());
    match procs.own(24) {
        Some(own) => {
            assert!(rt; acts && *own.token.get() == Token::system());
            assert!(rt; own.level == IDENTIFICATION);
        }
        None => assert!(rt; !acts),
    }
}

// The local system as a client.
fn client(system: &Token) -> Impersonation<'_> {
    Impersonation {
        token: TokenRef::new(system),
        level: IDENTIFICATION,
    }
}

#[test]
fn thread_acts_with_a_token_of_its_own_until_it_is_taken_away(rt: HostRuntime) -> Result<(), Fail> {
    let (guest, system) = (guest(), Token::system());
    let mut procs = Procs::new(rt.alloc());
    procs.reserve(1, 1)?;
    procs.add_process(20, None, made(20), &TokenRef::new(&guest));
    procs.add_thread(24, 20, made(24));
    shows_tokens(&rt, &procs, false);
    procs.set_own(24, Some(client(&system)));
    shows_tokens(&rt, &procs, true);
    procs.set_own(24, None);
    shows_tokens(&rt, &procs, false);
    Ok(())
}

// Whether process 20 has a debug port and an exception port, and how many of the two are the first port.
fn shows_event_ports(rt: &impl Abort, procs: &Procs, set: (bool, bool), first: usize)
    requires { is_some (process_at procs.now 20) ≡ true }
{
    let (debug, exception) = (procs.debug_port(20), procs.exception_port(20));
    assert!(rt; (debug.is_some(), exception.is_some()) == set);
    assert!(rt; procs.event_ports_to(made(4)) == first);
    assert!(rt; procs.is_event_port(made(4)) == (first > 0));
}

// The debug port of process 20 is the first port.
fn shows_its_debug_port(rt: &impl Abort, procs: &Procs)
    requires { is_some (process_at procs.now 20) ≡ true }
{
    let port = procs.debug_port(20).unwrap_or_default();
    assert!(rt; port.port == key(1) && port.birth == made(4));
}

#[test]
fn process_has_event_ports_until_it_lets_them_go(rt: HostRuntime) -> Result<(), Fail> {
    let guest = guest();
    let mut procs = Procs::new(rt.alloc());
    procs.reserve(1, 0)?;
    procs.add_process(20, None, made(20), &TokenRef::new(&guest));
    shows_event_ports(&rt, &procs, (false, false), 0);
    procs.set_debug_port(20, key(1), made(4));
    shows_event_ports(&rt, &procs, (true, false), 1);
    procs.set_exception_port(20, key(1), made(4));
    shows_event_ports(&rt, &procs, (true, true), 2);
    shows_its_debug_port(&rt, &procs);
    procs.let_go(20);
    shows_event_ports(&rt, &procs, (false, false), 0);
    Ok(())
}

// This process is the next to end, with this code.
fn ends_next(rt: &impl Abort, procs: &Procs, number: u32, code: u32) {
    let Some(next) = procs.least_doomed() else {
        assert!(rt; false);
        return;
    };
    assert!(rt; (next.number, next.code) == (number, code));
}

// The codes with which processes 28 and 20 are to end.
fn shows_dooms(rt: &impl Abort, procs: &Procs, first: Option<u32>, second: Option<u32>)
    requires first { is_some (process_at procs.now 28) ≡ true }
    requires second { is_some (process_at procs.now 20) ≡ true }
{
    assert!(rt; procs.doom(28) == first);
    assert!(rt; procs.doom(20) == second);
}

#[test]
fn process_of_the_least_number_ends_next_with_its_first_code(rt: HostRuntime) -> Result<(), Fail> {
    let guest = guest();
    let mut procs = Procs::new(rt.alloc());
    procs.reserve(2, 2)?;
    procs.add_process(28, None, made(28), &TokenRef::new(&guest));
    procs.add_process(20, None, made(20), &TokenRef::new(&guest));
    procs.add_thread(32, 28, made(32));
    procs.add_thread(24, 20, made(24));
    assert!(rt; procs.least_doomed().is_none());
    shows_dooms(&rt, &procs, None, None);
    procs.set_doom(28, 5);
    procs.set_doom(20, 6);
    procs.set_doom(20, 7);
    shows_dooms(&rt, &procs, Some(5), Some(6));
    ends_next(&rt, &procs, 20, 6);
    procs.end_thread(24);
    ends_next(&rt, &procs, 28, 5);
    Ok(())
}
