// The numbers by which rows stand on chains.
ghost use Rattle.std.specs.Prelude.{◌≡◌};
ghost use Rattle.lpc_waits.specs.Numbers.{apart, numbers_of};

use crate::Wait;

/// The numbers by which a row stands on its chains.
#[derive(Clone, Copy)]
pub(crate) struct Numbers {
    /// Among the waits of threads: the number of its thread.
    pub thread: usize,
    /// Among the waits that were made on ports.
    pub port: usize,
    /// Among the waits on queues. What takes what comes is kept apart from what was sent.
    pub queue: usize,
    /// Among the waits of processes. Connects are kept apart from the others.
    pub process: usize,
}

/// The numbers of a thread's wait.
pub(crate) fn numbers_of(thread: u32, wait: &Wait) -> Numbers
    ensures { result ≡ numbers_of thread wait.now }
{
    Numbers {
        thread: thread as usize,
        port: wait.port.index,
        queue: apart(wait.queue.index, wait.kind.takes(true)),
        process: apart(wait.process as usize, wait.kind.is_connect()),
    }
}

/// The number itself, or as far from the greatest as it is from 0.
pub(crate) fn apart(number: usize, itself: bool) -> usize
    ensures { result ≡ apart number itself }
{
    if itself { number } else { usize::MAX - number }
}
