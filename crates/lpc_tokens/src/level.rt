// The impersonation levels, with NT's own numbers.

/// How far a server may act as its client: the higher, the further.
pub type Level = u8;

/// The server may not know who its client is.
pub const ANONYMOUS: Level = 0;

/// The server may know who its client is, and not act as the client.
pub const IDENTIFICATION: Level = 1;

/// The server may act as its client on its own system.
pub const IMPERSONATION: Level = 2;

/// The server may act as its client on other systems too.
pub const DELEGATION: Level = 3;
