// The console of a client.
ghost use Rattle.std.specs.Prelude.{◌≡◌, ◌≤◌, [], length, IfOk, OnErr, OnOk, IfSome};
ghost use Rattle.std.specs.Option.{option_copied};
ghost use Rattle.lpc_subsys.specs.Replies.{read_from, size_with, with_bytes};

use crate::profile::CONSOLE_LIMIT;
use lpc_base::OutOfMemory;
use std::alloc::Global;
use std::marker::Model;

/// The bytes that a client wrote, at most 16,384. A clause sees the bytes.
#[derive(Drop)]
pub(crate) struct Console {
    bytes: Vec<u8>,
}

impl Model for Console {
    ghost use Rattle.std.specs.Prelude.{◌≤◌, List, ℕ, length};
    ghost use Rattle.lpc_subsys.specs.declared.profile.TheConstants.{CONSOLE_LIMIT};

    ghost Value = { List ℕ };

    ghost view = { λ console. console.bytes.items };

    ghost invariant = { λ console. length console.bytes.items ≤ CONSOLE_LIMIT };
}

impl Console {
    /// An empty console. It takes no memory, and keeps the allocator.
    pub(crate) fn new(alloc: Global) -> Console
        ensures { result ≡ [] }
    {
        Console {
            bytes: Vec::new(alloc),
        }
    }

    /// Puts bytes behind the others, and answers how many there are then; None where they would be more than 16,384, and
    /// then nothing changes.
    ///
    /// After `OutOfMemory` nothing has changed.
    pub(crate) fn write(&mut self, bytes: &[u8]) -> Result<Option<u32>, OutOfMemory>
        ensures size { IfOk result (λ size. size ≡ size_with self.old bytes.now) }
        ensures bytes { OnOk result (self.new ≡ with_bytes self.old bytes.now) }
        ensures same { OnErr result (self.new ≡ self.old) }
    {
        if bytes.len() > CONSOLE_LIMIT - self.bytes.len() {
            return Ok(None);
        }
        match self.bytes.extend_from_slice(bytes) {
            Ok(()) => Ok(Some(self.bytes.len() as u32)),
            Err(_) => Err(OutOfMemory),
        }
    }

    /// The bytes from a place on, so many at most; None where the place is past the end.
    pub(crate) fn read(&self, from: usize, count: usize) -> Option<&[u8]>
        ensures bytes { option_copied result ≡ read_from self.now from count }
        ensures few { IfSome result (λ bytes. length bytes.now ≤ count) }
    {
        let rest = self.bytes.get(from..)?;
        if count < rest.len() {
            Some(&rest[..count])
        } else {
            Some(rest)
        }
    }
}
