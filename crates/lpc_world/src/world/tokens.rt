// Tokens: those of processes and threads, those that are objects, those that have names, and who may use a port.
ghost use Rattle.std.specs.Prelude.{◌≡◌, ◌+◌, ◌<◌, ◌≤◌, true, false, is_some, length, option_copied, option_map, None, Some, OnErr, OnOk};
ghost use Rattle.lpc_base.specs.Room.{grown_room};
ghost use Rattle.lpc_base.specs.Rows.{has};
ghost use Rattle.lpc_model.specs.Basics.{Acts, Frees, NamesToken, Secures};
ghost use Rattle.lpc_model.specs.Found as found;
ghost use Rattle.lpc_model.specs.Found.{is_live_thread, is_process, is_thread, named_token, token_name, token_of, token_row};
ghost use Rattle.lpc_rows.specs.Held.{has_handles};
ghost use Rattle.lpc_rows.specs.Kept.{CanMake, GainsNoLives, IsStep, Roomy, Same, grown_tokens};
ghost use Rattle.lpc_rows.specs.Lawful.{drew};
ghost use Rattle.lpc_rows.specs.Names.{KeepsNames, KeepsOthers, name_of, stands};
ghost use Rattle.lpc_rows.specs.Ready.{caller};
ghost use Rattle.lpc_rows.specs.Shown.{shown_token};
ghost use Rattle.lpc_rows.specs.Clauses.{after, and_token, and_token_name, birth_at, port_at, token_at, with_token};
ghost use Rattle.lpc_sid.specs.WellKnown.{system_token};
ghost use Rattle.lpc_tokens.specs.declared.names.TheConstants.{TOKEN_NAME_LIMIT};

use crate::world::World;
use lpc_base::OutOfMemory;
use lpc_sid::Token;
use lpc_slots::Key;
use lpc_tokens::{Effective, Impersonation, Security, TokenRef, TokenRow, effective_token};

impl<'t> World<'t> {
    // What is found.

    /// The token of a process that stands.
    pub fn process_token(&self, pid: u32) -> &TokenRef<'t>
        requires { has (is_process pid) self.now.rows.processes ≡ true }
        ensures { token_of self.now.rows pid ≡ result.now }
    {
        self.procs.token(pid)
    }

    /// The token as which a live thread acts for a client: None where it acts with that of its process.
    pub fn own_token(&self, tid: u32) -> Option<&Impersonation<'t>>
        requires { has (is_live_thread tid) self.now.rows.threads ≡ true }
        ensures { let t = caller self.now.rows tid in t.own ≡ option_copied result }
    {
        self.procs.own(tid)
    }

    /// The token with which a live thread acts: the one as which it acts for a client, else that of its process.
    pub fn acting_token(&self, tid: u32) -> Effective<'t>
        requires { has (is_live_thread tid) self.now.rows.threads ≡ true }
        ensures token { result ≡ found.acting_token self.now.rows (caller self.now.rows tid) }
        ensures thread { found.live_thread self.now.rows tid ≡ Some (caller self.now.rows tid) }
    {
        match self.procs.live_row(tid) {
            Some(row) => effective_token(self.procs.token(row.process), self.procs.own(tid)),
            None => unreachable!(),
        }
    }

    /// Who may use a port that stands, and what it allows.
    pub fn port_security(&self, port: Key) -> &Security<'t>
        requires { stands self.now.births.ports port ≡ true }
        ensures { let p = port_at self.now port in p.security ≡ result.now }
    {
        &self.port(port).security
    }

    /// The token of a key.
    pub fn token(&self, token: Key) -> &TokenRow<'t>
        requires { stands self.now.births.tokens token ≡ true }
        ensures token { token_at self.now token ≡ Some (shown_token (token, result.now)) }
        ensures birth { let row = result.now in row.birth ≡ name_of self.now.births.tokens token }
    {
        match self.tokens.get(token) {
            Some(row) => row,
            None => unreachable!(),
        }
    }

    /// The token of a process for which no other is named: the local system's.
    pub fn system_token(&self) -> TokenRef<'t>
        ensures { result ≡ system_token }
    {
        self.token_names.system()
    }

    /// The token of a name: None exactly where no token has it.
    pub fn named_token(&self, name: &[u8]) -> Option<&TokenRef<'t>>
        ensures { option_copied result
            ≡ option_map (λ n. n.token) (named_token self.now.rows name.now) }
    {
        self.token_names.find(name)
    }

    // Changes.

    /// Says of a port who may use it, and what it allows.
    pub fn ports_set_security(&mut self, port: Key, security: Security<'t>)
        requires { stands self.old.births.ports port ≡ true }
        ensures step { let birth = birth_at self.old port in
            IsStep (after self.old (Secures birth security.entry)) self.old self.new }
        ensures loose { self.new.loose ≡ self.old.loose }
        ensures capacity { self.new.capacity ≡ self.old.capacity }
    {
        self.ports.set_security(port, security);
    }

    /// A thread acts for a client from now on, or with the token of its process again.
    pub fn procs_set_own(&mut self, tid: u32, own: Option<Impersonation<'t>>)
        requires { has (is_thread tid) self.old.rows.threads ≡ true }
        ensures step { IsStep (after self.old (Acts tid own.entry)) self.old self.new }
        ensures loose { self.new.loose ≡ self.old.loose }
        ensures capacity { self.new.capacity ≡ self.old.capacity }
    {
        self.procs.set_own(tid, own);
    }

    /// Adds a token as an object, and answers its key. Its birth was drawn, and no token has it. It takes no memory:
    /// there is room that `tokens_reserve` made.
    pub fn tokens_insert_reserved(&mut self, token: TokenRow<'t>) -> Key
        requires room { 0 < self.old.room.tokens }
        requires budget { CanMake self.old }
        requires fresh { token_row self.old.rows token.birth ≡ None }
        requires drawn { has (drew token.birth) self.old.rows.threads ≡ true }
        ensures rows { self.new.rows ≡ with_token self.old token.entry }
        ensures name { let row = token.entry in
            name_of self.new.births.tokens result ≡ row.birth }
        ensures stands { stands self.new.births.tokens result ≡ true }
        ensures others { KeepsNames self.old.births.tokens self.new.births.tokens }
        ensures ports { self.new.births.ports ≡ self.old.births.ports }
        ensures sections { self.new.births.sections ≡ self.old.births.sections }
        ensures calls { self.new.calls ≡ self.old.calls }
        ensures loose { self.new.loose ≡ self.old.loose }
        ensures made { self.new.made ≡ self.old.made + 1 }
        ensures room { Roomy self.old.room (and_token self.new.room) }
        ensures capacity { self.new.capacity ≡ self.old.capacity }
    {
        self.made += 1;
        self.tokens.insert_reserved(token)
    }

    /// Gives a token a name that no token has, of at most 32 bytes, for processes that are yet to come. It takes no
    /// memory: there is room that `token_names_reserve` made.
    pub fn names_token(&mut self, name: &[u8], token: Token)
        requires room { 0 < self.old.room.token_names }
        requires short { length name.now ≤ TOKEN_NAME_LIMIT }
        requires new { is_some (named_token self.old.rows name.now) ≡ false }
        ensures rows { self.new.rows
            ≡ after self.old (NamesToken (record { name = name.now; token = token })) }
        ensures births { self.new.births ≡ self.old.births }
        ensures calls { self.new.calls ≡ self.old.calls }
        ensures loose { self.new.loose ≡ self.old.loose }
        ensures made { self.new.made ≡ self.old.made }
        ensures room { Roomy self.old.room (and_token_name self.new.room) }
        ensures capacity { self.new.capacity ≡ self.old.capacity }
    {
        self.token_names.add(name, token);
    }

    /// A token goes that no handle names. Its room is spare then.
    pub fn tokens_free(&mut self, token: Key)
        requires stands { stands self.old.births.tokens token ≡ true }
        requires handles { let birth = name_of self.old.births.tokens token in
            has_handles self.old.rows (token_name birth) ≡ false }
        ensures rows { let birth = name_of self.old.births.tokens token in
            self.new.rows ≡ after self.old (Frees (token_name birth)) }
        ensures others { KeepsOthers token self.old.births.tokens self.new.births.tokens }
        ensures ports { self.new.births.ports ≡ self.old.births.ports }
        ensures sections { self.new.births.sections ≡ self.old.births.sections }
        ensures calls { self.new.calls ≡ self.old.calls }
        ensures made { self.new.made ≡ self.old.made }
        ensures loose { self.new.loose ≡ true }
        ensures room { Roomy self.old.room self.new.room }
        ensures capacity { self.new.capacity ≡ self.old.capacity }
        ensures lives { GainsNoLives self.old self.new }
    {
        self.loose = true;
        self.tokens.remove(token);
    }

    // Room.

    /// Makes room for so many further tokens.
    ///
    /// OutOfMemory comes only where that room wasn't there; nothing has changed then but the room.
    pub fn tokens_reserve(&mut self, more: usize) -> Result<(), OutOfMemory>
        ensures same { Same self.old self.new }
        ensures room { Roomy self.old.room self.new.room }
        ensures tokens { OnOk result (more ≤ self.new.room.tokens) }
        ensures wanting { OnErr result (self.old.room.tokens < more) }
        ensures most { let rows = length self.old.rows.tokens in
            self.new.room.tokens ≤ grown_room self.old.room.tokens more rows }
        ensures others { let new = self.new.room in
            new ≡ record self.old.room { tokens = new.tokens } }
        ensures capacity { let new = self.new.capacity in
            new ≡ record self.old.capacity { tokens = new.tokens } }
        ensures asked { let new = self.new.capacity in new.tokens ≤ grown_tokens self.old more }
        ensures enough { more ≤ self.old.room.tokens → self.new.capacity ≡ self.old.capacity }
    {
        self.tokens.reserve(more)
    }

    /// Makes room for so many further names of tokens.
    ///
    /// OutOfMemory comes only where that room wasn't there; nothing has changed then but the room.
    pub fn token_names_reserve(&mut self, more: usize) -> Result<(), OutOfMemory>
        ensures same { Same self.old self.new }
        ensures room { Roomy self.old.room self.new.room }
        ensures names { OnOk result (more ≤ self.new.room.token_names) }
        ensures wanting { OnErr result (self.old.room.token_names < more) }
        ensures others { let new = self.new.room in
            new ≡ record self.old.room { token_names = new.token_names } }
        ensures capacity { self.new.capacity ≡ self.old.capacity }
    {
        self.token_names.reserve(more)
    }
}
