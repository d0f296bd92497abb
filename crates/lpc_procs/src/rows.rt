// What the table holds of a process, a thread, and a number that was used.
use arrayvec::ArrayVec;
use lpc_base::Birth;
use lpc_base::limits::REGISTRATION_LIMIT;
use lpc_slots::Key;
use lpc_tokens::{Impersonation, TokenRef};

/// The number of a process or of a thread. The two are spaces of their own: one number may name a process and a thread.
#[derive(Clone, Copy)]
pub enum Number {
    /// A process has the number.
    Process(u32),
    /// A thread has the number.
    Thread(u32),
}

/// A process.
#[derive(Drop)]
pub struct ProcessRow<'t> {
    /// From 1 to 2147483647.
    pub number: u32,
    /// The number of the process that made it, none where a directive did.
    pub maker: Option<u32>,
    /// The name that it was made under.
    pub birth: Birth,
    /// Who it is.
    pub token: TokenRef<'t>,
    /// The port that is told of its exceptions before its frame handlers are, and again behind them; None until it is
    /// set.
    pub debug_port: Option<Registration>,
    /// The port that is told of its exceptions at last; None until it is set.
    pub exception_port: Option<Registration>,
    /// The code with which it is to end; None until one of its exceptions was handled by nobody.
    pub doom: Option<u32>,
}

/// A process, and beside it the count of its live threads.
#[derive(Drop)]
pub struct Counted<'t> {
    /// The process.
    pub row: ProcessRow<'t>,
    /// How many live threads are of it.
    pub live: usize,
}

/// The name of a process or thread, and whether it is live.
#[derive(Clone, Copy)]
pub struct Life {
    /// The name that it was made under.
    pub birth: Birth,
    /// Not yet ended; of a process, that a live thread is of it.
    pub live: bool,
}

/// A thread as it is told to who knows its name.
#[derive(Clone, Copy)]
pub struct BornThread {
    /// From 1 to 2147483647.
    pub number: u32,
    /// The number of its process.
    pub process: u32,
    /// Not yet ended.
    pub live: bool,
}

/// A process that is to end.
#[derive(Clone, Copy)]
pub struct Doomed {
    /// From 1 to 2147483647.
    pub number: u32,
    /// The code with which it is to end.
    pub code: u32,
}

/// A port that is to be told of a thread's end, or of a process's exceptions.
#[derive(Clone, Copy, Default)]
pub struct Registration {
    /// Its key.
    pub port: Key,
    /// The name that it was made under.
    pub birth: Birth,
}

/// A thread.
#[derive(Drop)]
pub struct ThreadRow<'t> {
    /// From 1 to 2147483647.
    pub number: u32,
    /// The number of its process.
    pub process: u32,
    /// The name that it was made under.
    pub birth: Birth,
    /// Not yet ended.
    pub live: bool,
    /// The message identifier that it draws next, from 1.
    pub next_identifier: u32,
    /// The ordinal of the object that it makes next, from 1.
    pub next_ordinal: u32,
    /// The ports that are to be told of its end, in the order in which it registered them.
    pub registered: ArrayVec<Registration, REGISTRATION_LIMIT>,
    /// The token as which it acts for a client; None where it acts with that of its process.
    pub own: Option<Impersonation<'t>>,
}

/// What a call knows of the thread that makes it: the thread's row, but for its registrations and the token as which it
/// acts for a client.
#[derive(Clone, Copy)]
pub struct Caller {
    /// From 1 to 2147483647.
    pub number: u32,
    /// The number of its process.
    pub process: u32,
    /// The name that it was made under.
    pub birth: Birth,
    /// The message identifier that it draws next, from 1.
    pub next_identifier: u32,
    /// The ordinal of the object that it makes next, from 1.
    pub next_ordinal: u32,
}

/// A thread number that was ever used, and the process of that thread. It stays when the thread's row goes.
#[derive(Clone, Copy)]
pub struct UsedThread {
    /// The number of the thread.
    pub number: u32,
    /// The number of its process.
    pub process: u32,
}
