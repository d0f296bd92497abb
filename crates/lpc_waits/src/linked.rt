// How a row stands on chains.

use crate::WaitRow;
use lpc_slots::{Linked, Links};

impl Linked<0> for WaitRow {
    ghost use Rattle.lpc_waits.specs.declared.WaitRow.{WaitRow};
    ghost use Rattle.std.specs.Prelude.{refl};

    ghost links_of = { λ row. row.links };

    ghost with_links = { λ row links. record row { links = links } };

    fn links(&self) -> Links {
        self.links
    }

    fn set_links(&mut self, links: Links) {
        self.links = links;
    }

    ghost gives_back = { λ row links. refl };

    ghost overwrites = { λ row one two. refl };
}

impl Linked<1> for WaitRow {
    ghost use Rattle.lpc_waits.specs.declared.WaitRow.{WaitRow};
    ghost use Rattle.std.specs.Prelude.{refl};

    ghost links_of = { λ row. row.by_thread };

    ghost with_links = { λ row links. record row { by_thread = links } };

    fn links(&self) -> Links {
        self.by_thread
    }

    fn set_links(&mut self, links: Links) {
        self.by_thread = links;
    }

    ghost gives_back = { λ row links. refl };

    ghost overwrites = { λ row one two. refl };
}

impl Linked<2> for WaitRow {
    ghost use Rattle.lpc_waits.specs.declared.WaitRow.{WaitRow};
    ghost use Rattle.std.specs.Prelude.{refl};

    ghost links_of = { λ row. row.by_port };

    ghost with_links = { λ row links. record row { by_port = links } };

    fn links(&self) -> Links {
        self.by_port
    }

    fn set_links(&mut self, links: Links) {
        self.by_port = links;
    }

    ghost gives_back = { λ row links. refl };

    ghost overwrites = { λ row one two. refl };
}

impl Linked<3> for WaitRow {
    ghost use Rattle.lpc_waits.specs.declared.WaitRow.{WaitRow};
    ghost use Rattle.std.specs.Prelude.{refl};

    ghost links_of = { λ row. row.by_queue };

    ghost with_links = { λ row links. record row { by_queue = links } };

    fn links(&self) -> Links {
        self.by_queue
    }

    fn set_links(&mut self, links: Links) {
        self.by_queue = links;
    }

    ghost gives_back = { λ row links. refl };

    ghost overwrites = { λ row one two. refl };
}

impl Linked<4> for WaitRow {
    ghost use Rattle.lpc_waits.specs.declared.WaitRow.{WaitRow};
    ghost use Rattle.std.specs.Prelude.{refl};

    ghost links_of = { λ row. row.by_process };

    ghost with_links = { λ row links. record row { by_process = links } };

    fn links(&self) -> Links {
        self.by_process
    }

    fn set_links(&mut self, links: Links) {
        self.by_process = links;
    }

    ghost gives_back = { λ row links. refl };

    ghost overwrites = { λ row one two. refl };
}
