// The limits of one client, and where its atoms and its level begin.

/// The bytes of a text that has an atom.
pub const TEXT_LIMIT: usize = 64;

/// The texts of one client that have atoms.
pub const ATOM_LIMIT: usize = 64;

/// The first atom of each client. The others follow it in the order in which their texts came.
pub const FIRST_ATOM: u32 = 0xC000;

/// The bytes that a message writes to the console by itself.
pub const WRITE_LIMIT: usize = 228;

/// The bytes of one client's console.
pub const CONSOLE_LIMIT: usize = 16_384;

/// The bytes of the console that one request reads.
pub const READ_LIMIT: u32 = 200;

/// The highest shutdown level.
pub const LEVEL_LIMIT: u32 = 1279;

/// The shutdown level of a client that has set none.
pub const FIRST_LEVEL: u32 = 640;
