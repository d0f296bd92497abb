// What the services of connections look up in the world.
ghost use Rattle.std.specs.Prelude.{◌≡◌, IfOk, IfSome, None, Some, Ok, Err, false, true, option_map};
ghost use Rattle.lpc_base.specs.Rows.{has};
ghost use Rattle.lpc_model.specs.Connect as connect;
ghost use Rattle.lpc_model.specs.Connect.{acceptance_of, is_accepted_on};
ghost use Rattle.lpc_model.specs.Found.{is_accepted, is_offered, is_table, offer_of, waits_as};
ghost use Rattle.lpc_model.specs.Named.{named_port};
ghost use Rattle.lpc_rows.specs.Kept.{has_queued, is_pending_in};
ghost use Rattle.lpc_rows.specs.Names.{stands};
ghost use Rattle.lpc_rows.specs.Ready.{waiter};
ghost use Rattle.lpc_rows.specs.Clauses.{Answers, FindsWait, IsOwnWait, birth_at, has_section};
ghost use Rattle.lpc_rows.specs.Shown.{birth_of, shown_acceptance, shown_offer};

use crate::world::World;
use lpc_base::status::OBJECT_TYPE_MISMATCH;
use lpc_base::{Status, held};
use lpc_names::{Found, status_of};
use lpc_slots::Key;
use lpc_waits::{Accepted, Offer, WaitKind};

impl<'t> World<'t> {
    /// The port that a path leads to: the status of the path's fault, and OBJECT_TYPE_MISMATCH where a directory stands
    /// there.
    pub fn named_port(&self, path: &[u8]) -> Result<Key, Status>
        ensures port { Answers result (birth_at self.now) (named_port self.now.rows path.now) }
        ensures stands { IfOk result (λ key. stands self.now.births.ports key ≡ true) }
    {
        match self.names.lookup(path) {
            Ok(Found::Item(port)) => Ok(port),
            Ok(Found::Directory) => Err(OBJECT_TYPE_MISMATCH),
            Err(fault) => Err(status_of(fault)),
        }
    }

    /// The wait of a thread that waits is a connect that isn't accepted.
    pub fn is_offered(&self, tid: u32) -> bool
        requires { has (waits_as tid) self.now.rows.waits ≡ true }
        ensures { result ≡ is_offered (waiter self.now.rows tid) }
    {
        match self.waiting(tid).kind {
            WaitKind::Connect => self.waits.accepted(tid).is_none(),
            _ => false,
        }
    }

    /// A handle of the process names the port.
    pub fn reaches(&self, pid: u32, port: Key) -> bool
        requires table { has (is_table pid) self.now.rows.handles ≡ true }
        requires port { stands self.now.births.ports port ≡ true }
        ensures { result ≡ connect.reaches self.now.rows pid (birth_at self.now port) }
    {
        self.parts.reaches_port(pid, port)
    }

    /// What the connect of a thread was accepted with.
    pub fn acceptance(&self, tid: u32) -> Accepted
        requires waits { has (waits_as tid) self.now.rows.waits ≡ true }
        requires accepted { is_accepted (waiter self.now.rows tid) ≡ true }
        ensures { shown_acceptance result ≡ acceptance_of (waiter self.now.rows tid) }
    {
        match self.waits.accepted(tid) {
            Some(accepted) => Accepted {
                reply: held(accepted.reply.as_slice()),
                target: accepted.target,
                vbase: accepted.vbase,
                vsize: accepted.vsize,
            },
            None => unreachable!(),
        }
    }

    /// The part of a section that a waiting thread's connect offers, which isn't accepted: None where it offers nothing,
    /// where it is accepted, and where the thread waits for something else.
    pub fn waits_offer(&self, tid: u32) -> Option<Offer>
        requires { has (waits_as tid) self.now.rows.waits ≡ true }
        ensures offer { option_map (shown_offer (birth_of self.now.births)) result
            ≡ offer_of (waiter self.now.rows tid) }
        ensures stands { has_section self.now result ≡ true }
    {
        if self.is_offered(tid) {
            self.waits.offer(tid).copied()
        } else {
            None
        }
    }

    /// The thread whose accepted connect waits on a client port: None exactly where there is none.
    pub fn accepted_on(&self, client: Key) -> Option<u32>
        requires { stands self.now.births.ports client ≡ true }
        ensures found { FindsWait self.now (is_accepted_on (birth_at self.now client)) result }
        ensures waits { IfSome result (λ tid. has (waits_as tid) self.now.rows.waits ≡ true) }
        ensures thread { IfSome result (λ tid. IsOwnWait self.now.rows tid) }
        ensures accepted { IfSome result (λ tid. is_accepted (waiter self.now.rows tid) ≡ true) }
        ensures idle { IfSome result (λ tid. is_pending_in self.now.rows tid ≡ false) }
        ensures left { IfSome result (λ tid. has_queued self.now.rows tid ≡ false) }
    {
        self.waits.accepted_on(client)
    }
}
