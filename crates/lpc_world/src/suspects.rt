// The ports that may have lost the last row that counted for them.
ghost use Rattle.std.specs.Prelude.{◌≡◌, [], false, true, slice_get};
ghost use Rattle.lpc_base.specs.Rows.{without};
ghost use Rattle.lpc_slots.specs.Table.{is_key};
ghost use Rattle.lpc_world.specs.Suspected.{suspect_of, suspecting_each, suspecting_owners};
ghost use Rattle.lpc_world.specs.declared.suspects.Suspect.TheVariants.{Anybody};
ghost use Rattle.lpc_rows.specs.Suspects.{suspecting, suspecting_if, suspecting_some};

use arrayvec::ArrayVec;
use lpc_procs::Registration;
use lpc_slots::Key;
use lpc_views::View;
use std::marker::Model;

/// Whom a sweep is to look at.
#[derive(Clone, Copy)]
pub enum Suspect {
    /// No port may have lost the last row that counted for it.
    Nobody,
    /// The port at a key may have, where one stands there still.
    Port(Key),
    /// Any port may have.
    Anybody,
}

/// The ports that may have lost the last row that counted for them since the last sweep, as long as there is a place
/// for each; else any port may have.
#[derive(Drop)]
pub(crate) struct Suspects {
    keys: ArrayVec<Key, 8>,
    any: bool,
}

impl Model for Suspects {
    ghost use Rattle.lpc_rows.specs.Suspects.{SuspectTable};

    ghost Value = { SuspectTable };

    ghost view = { λ s. record { keys = s.keys.items; any = s.any } };
}

impl Suspects {
    /// No port is suspected.
    pub(crate) fn none() -> Suspects
        ensures { result ≡ record { keys = []; any = false } }
    {
        Suspects {
            keys: ArrayVec::new(),
            any: false,
        }
    }

    /// No port is suspected any longer.
    pub(crate) fn clear(&mut self)
        ensures { self.new ≡ record { keys = []; any = false } }
    {
        self.keys.clear();
        self.any = false;
    }

    /// A port is suspected, and any port where there is no place for it.
    pub(crate) fn add(&mut self, port: Key)
        ensures { self.new ≡ suspecting port self.old }
    {
        if self.keys.len() < 8 {
            self.keys.push(port);
        } else {
            self.any = true;
        }
    }

    /// The port at an optional key is suspected, where there is one.
    pub(crate) fn add_some(&mut self, port: Option<Key>)
        ensures { self.new ≡ suspecting_some port self.old }
    {
        if let Some(port) = port {
            self.add(port);
        }
    }

    /// The ports at two optional keys are suspected, where there are such.
    pub(crate) fn add_both(&mut self, ports: (Option<Key>, Option<Key>))
        ensures { self.new ≡ suspecting_some ports.1 (suspecting_some ports.0 self.old) }
    {
        self.add_some(ports.0);
        self.add_some(ports.1);
    }

    /// The ports of registrations are suspected.
    pub(crate) fn add_each(&mut self, registered: &[Registration])
        ensures { self.new ≡ suspecting_each registered.now self.old }
    {
        for r in registered {
            self.add(r.port);
        }
    }

    /// The ports are suspected with which views go.
    pub(crate) fn add_owners(&mut self, views: &[View<Key>])
        ensures { self.new ≡ suspecting_owners views.now self.old }
    {
        for view in views {
            self.add_some(view.owner);
        }
    }

    /// Any port is suspected, where it is so.
    pub(crate) fn add_any_if(&mut self, so: bool)
        ensures { self.new ≡ suspecting_if so self.old }
    {
        self.any = self.any || so;
    }

    /// A port is suspected no longer by its key.
    pub(crate) fn remove(&mut self, port: Key)
        ensures { self.new ≡ record self.old { keys = without (is_key port) self.old.keys } }
    {
        forget(&mut self.keys, port);
    }

    /// Who is to be looked at next: the port that is suspected longest, where not any port is.
    pub(crate) fn first(&self) -> Suspect
        ensures any { self.now.any ≡ true → result ≡ Anybody }
        ensures port { self.now.any ≡ false →
            result ≡ suspect_of (slice_get self.now.keys 0) }
    {
        if self.any {
            return Suspect::Anybody;
        }
        match self.keys.first() {
            Some(port) => Suspect::Port(*port),
            None => Suspect::Nobody,
        }
    }
}

// Takes a key away; the others keep their order.
fn forget(keys: &mut ArrayVec<Key, 8>, port: Key)
    ensures { keys.new.items ≡ without (is_key port) keys.old.items }
{
    keys.retain(|key| port != *key);
}
