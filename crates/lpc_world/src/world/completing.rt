// The end of a connect that is completed: it gets the handle that it was promised.
ghost use Rattle.std.specs.Prelude.{◌≡◌, ◌+◌, ◌≤◌, true, false};
ghost use Rattle.lpc_base.specs.Rows.{has};
ghost use Rattle.lpc_model.specs.Found.{free_handle, is_connect, waits_as};
ghost use Rattle.lpc_rows.specs.Kept.{CanMake, has_queued, owed_rows};
ghost use Rattle.lpc_rows.specs.Ready.{waiter};
ghost use Rattle.lpc_rows.specs.Shown.{object_stands};
ghost use Rattle.lpc_rows.specs.Clauses.{finished};

use crate::world::{World, port_of};
use lpc_homes::Object;

impl<'t> World<'t> {
    /// Gives the process of a thread that waits in a connect the least free handle, which was promised to it, and ends
    /// the wait. Answers the handle's value. The connection request stands in no queue.
    pub fn connects_finish(&mut self, tid: u32, object: Object, access: u32) -> u32
        requires waits { has (waits_as tid) self.old.rows.waits ≡ true }
        requires connect { is_connect (waiter self.old.rows tid) ≡ true }
        requires left { has_queued self.old.rows tid ≡ false }
        requires budget { CanMake self.old }
        requires object { object_stands self.old.births object ≡ true }
        ensures value { let x = waiter self.old.rows tid in
            result ≡ free_handle self.old.rows x.process }
        ensures rows { self.new.rows ≡ finished self.old tid result object access }
        ensures births { self.new.births ≡ self.old.births }
        ensures calls { self.new.calls ≡ self.old.calls }
        ensures loose { self.new.loose ≡ true }
        ensures made { self.new.made ≤ self.old.made + 1 }
        ensures counted { self.new.made + owed_rows self.old.rows
            ≡ self.old.made + owed_rows self.new.rows }
        ensures capacity { self.new.capacity ≡ self.old.capacity }
    {
        let wait = self.waiting(tid);
        match self.parts.add_handle(wait.process, object, access) {
            Ok(value) => {
                self.loose = true;
                self.marks.remove(tid);
                let ended = self.waits.end(tid);
                self.suspects.add_some(port_of(&ended));
                value
            }
            Err(_) => unreachable!(),
        }
    }
}
