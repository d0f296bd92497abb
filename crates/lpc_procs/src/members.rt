// The threads of each process.
ghost use Rattle.std.specs.Prelude.{◌≡◌, [], false, true, IfNone, IfSome};
ghost use Rattle.std.specs.List.{position, prefix_len};
ghost use Rattle.lpc_base.specs.Rows.{which, without_first};
ghost use Rattle.lpc_procs.specs.Members.{Enters, comes_before, comes_within, is_member, is_of_rank, names_thread, rise};

use lpc_base::reserve_rows;
use std::alloc::Global;
use std::marker::Model;

/// A thread of a process.
#[derive(Clone, Copy)]
pub struct Member {
    /// The rank of the process: how many processes were made before it.
    pub rank: u32,
    /// The number of the thread.
    pub thread: u32,
}

/// The threads of all processes, those of each process together, in the order of making, as long as each found room.
///
/// A process that was made later has a greater rank, and its threads stand behind those of the processes before it. So
/// the threads of a new process come at the end, where they move none. A thread that finds no room leaves them all
/// unfinished from then on, and nothing is answered from them.
#[derive(Drop)]
pub struct Members {
    rows: Vec<Member>,
    whole: bool,
}

impl Model for Members {
    ghost use Rattle.std.specs.Prelude.{◌≡◌, true};
    ghost use Rattle.lpc_procs.specs.Members.{Members, rise};

    ghost Value = { Members };

    ghost view = { λ s. record { rows = s.rows.items; whole = s.whole } };

    ghost invariant = { λ s. rise s.rows.items ≡ true };
}

impl Members {
    /// No process has a thread.
    pub fn new(alloc: Global) -> Members
        ensures rows { result.rows ≡ [] }
        ensures whole { result.whole ≡ true }
    {
        Members {
            rows: Vec::new(alloc),
            whole: true,
        }
    }

    /// Makes room for so many further threads, where there is memory.
    pub fn promise(&mut self, more: usize)
        ensures { self.new ≡ self.old }
    {
        // A thread that finds no room later leaves the members unfinished.
        let _ = reserve_rows(&mut self.rows, more);
    }

    /// Puts a thread behind those that the process of the rank has. It takes no memory.
    pub fn add(&mut self, rank: u32, thread: u32)
        ensures { self.new.whole ≡ true → Enters rank thread self.old self.new }
    {
        if self.rows.len() >= self.rows.capacity() {
            self.whole = false;
            return;
        }
        let place = places_within(&self.rows, rank);
        match self.rows.insert(place, Member { rank, thread }) {
            Ok(()) => {}
            Err(_) => unreachable!(),
        }
    }

    /// Takes the thread away from the process of the rank, where it is there.
    pub fn remove(&mut self, rank: u32, thread: u32)
        ensures rows { self.new.rows ≡ without_first (is_member rank thread) self.old.rows }
        ensures whole { self.new.whole ≡ self.old.whole }
    {
        let front = places_before(&self.rows, rank);
        match place_of(members_of(&self.rows, rank), thread) {
            Some(place) => {
                self.rows.remove(front + place);
            }
            None => {}
        }
    }

    /// The threads of the process of the rank, in the order of making; None where not each found room.
    pub fn of(&self, rank: u32) -> Option<&[Member]>
        ensures whole { IfSome result (λ members. self.now.whole ≡ true) }
        ensures members { IfSome result (λ members.
            members.now ≡ which (is_of_rank rank) self.now.rows) }
        ensures unfinished { IfNone result (self.now.whole ≡ false) }
    {
        if self.whole {
            Some(members_of(&self.rows, rank))
        } else {
            None
        }
    }
}

// The threads of the process of the rank among these, which rise by their ranks.
fn members_of(rows: &[Member], rank: u32) -> &[Member]
    requires { rise rows.now ≡ true }
    ensures { result.now ≡ which (is_of_rank rank) rows.now }
{
    let (_, behind) = rows.split_at(places_before(rows, rank));
    let (members, _) = behind.split_at(places_within(behind, rank));
    members
}

// How many of these, which rise by their ranks, are of processes before the one of the rank.
fn places_before(rows: &[Member], rank: u32) -> usize
    requires { rise rows.now ≡ true }
    ensures { result ≡ prefix_len (comes_before rank) rows.now }
{
    rows.partition_point(
        |member: &Member| -> bool
            ensures { result ≡ comes_before rank member.now }
        { member.rank < rank },
    )
}

// How many of these, which rise by their ranks, are of processes before the one of the rank, or of that one.
fn places_within(rows: &[Member], rank: u32) -> usize
    requires { rise rows.now ≡ true }
    ensures { result ≡ prefix_len (comes_within rank) rows.now }
{
    rows.partition_point(
        |member: &Member| -> bool
            ensures { result ≡ comes_within rank member.now }
        { member.rank <= rank },
    )
}

// The first place of the thread among these.
fn place_of(members: &[Member], thread: u32) -> Option<usize>
    ensures { result ≡ position (names_thread thread) members.now }
{
    members.iter().position(|member| member.thread == thread)
}
