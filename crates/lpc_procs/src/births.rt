// What is asked of processes and threads by their makers and the names that they were made under.
ghost use Rattle.std.specs.Prelude.{◌≡◌, if◌then◌else◌, true};
ghost use Rattle.lpc_base.specs.Births.{same_birth};
ghost use Rattle.lpc_procs.specs.Kept.{Moves, Retells, is_peopled, is_peopled_child};
ghost use Rattle.lpc_procs.specs.Procs.{born_thread, is_life, is_made_by};

use crate::rows::Counted;
use crate::searches::Test;
use crate::{BornThread, ProcessRow, ThreadRow};
use lpc_base::Birth;
use lpc_numbers::Tally;

// The name is this one.
fn is_name(name: Birth, birth: Birth) -> bool
    ensures { result ≡ same_birth name birth }
{
    name == birth
}

// The process was made by this one.
fn is_made_by(row: &ProcessRow, pid: u32) -> bool
    ensures { result ≡ is_made_by pid row.now }
{
    match row.maker {
        Some(maker) => maker == pid,
        None => false,
    }
}

/// A live thread is of the process, as its count tells.
pub fn is_peopled(p: &Counted) -> bool
    ensures { result ≡ is_peopled p.now }
{
    p.live > 0
}

// Counts one live process more for its maker where it comes to life, and one less where its life ends.
fn move_child(children: &mut Tally, maker: u32, was: bool, is: bool)
    ensures { children.new.whole ≡ true → Moves maker was is children.old children.new }
{
    match (was, is) {
        (false, true) => children.add(maker),
        (true, false) => children.take(maker),
        (false, false) | (true, true) => {}
    }
}

/// Counts the process for its maker as one with so many live threads, in place of those that the count beside it tells.
pub fn retell(children: &mut Tally, p: &Counted, live: usize)
    ensures { children.new.whole ≡ true → Retells p.now live children.old children.new }
{
    if let Some(maker) = p.row.maker {
        move_child(children, maker, is_peopled(p), live > 0);
    }
}

// The process is a live one that this one made, as its count tells.
fn is_peopled_child(p: &Counted, pid: u32) -> bool
    ensures { result ≡ is_peopled_child pid p.now }
{
    is_made_by(&p.row, pid) && is_peopled(p)
}

/// A live process that this one made, as its count tells.
#[derive(Clone, Copy)]
pub struct ChildOf {
    /// The number of this one.
    pub pid: u32,
}

impl<'t> Test<Counted<'t>> for ChildOf {
    ghost use Rattle.lpc_procs.specs.Kept.{is_peopled_child};

    ghost test = { λ asked p. is_peopled_child asked.pid p };

    fn passes(&self, p: &Counted<'t>) -> bool {
        is_peopled_child(p, self.pid)
    }
}

/// A process of the name.
#[derive(Clone, Copy)]
pub struct ProcessNamed {
    /// The name.
    pub birth: Birth,
}

impl<'t> Test<Counted<'t>> for ProcessNamed {
    ghost use Rattle.lpc_procs.specs.Kept.{has_name};

    ghost test = { λ asked p. has_name asked.birth p };

    fn passes(&self, p: &Counted<'t>) -> bool {
        is_name(p.row.birth, self.birth)
    }
}

/// A thread of the name.
#[derive(Clone, Copy)]
pub struct ThreadNamed {
    /// The name.
    pub birth: Birth,
}

impl<'t> Test<ThreadRow<'t>> for ThreadNamed {
    ghost use Rattle.lpc_procs.specs.Procs.{is_thread_born};

    ghost test = { λ asked t. is_thread_born asked.birth t };

    fn passes(&self, t: &ThreadRow<'t>) -> bool {
        is_name(t.birth, self.birth)
    }
}

// The thread is live, and has the name.
fn is_life(t: &ThreadRow, birth: Birth) -> bool
    ensures { result ≡ is_life birth t.now }
{
    t.live && is_name(t.birth, birth)
}

/// A live thread of the name.
#[derive(Clone, Copy)]
pub struct LifeOf {
    /// The name.
    pub birth: Birth,
}

impl<'t> Test<ThreadRow<'t>> for LifeOf {
    ghost use Rattle.lpc_procs.specs.Procs.{is_life};

    ghost test = { λ asked t. is_life asked.birth t };

    fn passes(&self, t: &ThreadRow<'t>) -> bool {
        is_life(t, self.birth)
    }
}

/// The thread as it is told to who knows its name.
pub fn born_thread(t: &ThreadRow) -> BornThread
    ensures { result ≡ born_thread t.now }
{
    BornThread {
        number: t.number,
        process: t.process,
        live: t.live,
    }
}

/// How many live threads the thread is: 1 or 0.
pub fn life_count(t: &ThreadRow) -> usize
    ensures { result ≡ (if t.now.live then 1 else 0) }
{
    usize::from(t.live)
}
