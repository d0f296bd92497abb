// A line of a script. Its messages, what it writes, its access list and its token lie in room that is lent, its names in the
// line itself, so that a line is small and cheap to hand on.
use lpc_sid::{Dacl, Token};
use lpc_tokens::Qos;

/// The process or thread that a call is about: the caller's own, spelled `self`, or that of a handle.
#[derive(Clone, Copy)]
pub enum ProcArg {
    /// The caller, or its process.
    Current,
    /// The one that the handle names.
    By(u32),
}

/// What a connect or its answer offers to be seen, spelled `w:H:OFFSET:SIZE`: the section that a handle names, from an
/// offset on, and so many bytes of it, or where that is 0 all up to its end.
#[derive(Clone, Copy)]
pub struct ViewWord {
    /// The handle to the section.
    pub handle: u32,
    /// Where in the section the view begins.
    pub offset: u32,
    /// How many bytes it shows.
    pub size: u32,
}

/// A system call with its arguments, as a line spells it.
///
/// A message is the whole message, header and data, and a name is a word as it stands; both are tested by the call, not
/// by the line.
#[derive(Drop)]
pub enum Call<'a> {
    /// `NtCreatePort NAME [DACL]`: makes a connection port of that name, to which only those may connect whom the access
    /// list grants it, if one is given; or an unnamed port where the word is `-`.
    CreatePort {
        name: Option<&'a [u8]>,
        dacl: Option<&'a Dacl>,
    },
    /// `NtConnectPort NAME QOS VIEW INFO`: asks the connection port of a name for a connection, with the bytes of INFO,
    /// none where the word is `-`, offers a view, none where VIEW is `-`, and waits until the server completes or refuses
    /// it. QOS says how far, and as whom, the server may act for the client.
    ConnectPort {
        name: &'a [u8],
        quality: Qos,
        view: Option<ViewWord>,
        info: &'a [u8],
    },
    /// `NtListenPort H`: takes the oldest connection request of a connection port's queue, or waits for one.
    ListenPort {
        handle: u32,
    },
    /// `NtAcceptConnectPort CTX MSG accept|refuse VIEW`: accepts or refuses the connect that the message names, and to
    /// accept it offers a view, none where VIEW is `-`.
    AcceptConnectPort {
        context: u32,
        message: &'a [u8],
        accept: bool,
        view: Option<ViewWord>,
    },
    /// `NtCompleteConnectPort H`: completes the connection of a server port, and wakes the client.
    CompleteConnectPort {
        handle: u32,
    },
    /// `NtRequestPort H MSG`: sends a datagram on a port and waits for nothing.
    RequestPort {
        handle: u32,
        message: &'a [u8],
    },
    /// `NtRequestWaitReplyPort H MSG`: sends a request on a port and waits for its reply.
    RequestWaitReplyPort {
        handle: u32,
        message: &'a [u8],
    },
    /// `NtReplyPort H MSG`: replies to the request that the message names.
    ReplyPort {
        handle: u32,
        message: &'a [u8],
    },
    /// `NtReplyWaitReceivePort H [MSG]`: replies where a message is given, and then takes the oldest message of a
    /// port's queue, or waits for one.
    ReplyWaitReceivePort {
        handle: u32,
        reply: Option<&'a [u8]>,
    },
    /// `NtRegisterThreadTerminatePort H`: registers a port with the thread, so that the thread's end is told to it.
    RegisterThreadTerminatePort {
        handle: u32,
    },
    /// `NtClose H`: closes a handle, and a port with its last one.
    Close {
        handle: u32,
    },
    /// `NtDuplicateObject H ACCESS`: makes another handle to the object of a handle, with the rights of ACCESS, or
    /// where that is `same` with those of the handle.
    DuplicateObject {
        handle: u32,
        access: Option<u32>,
    },
    /// `NtQueryObject H`: tells of the object that a handle names, and how many handles and rows count for it.
    QueryObject {
        handle: u32,
    },
    /// `NtCreateProcess PID TID`: makes a process with its first thread, and gives the caller a handle to each.
    CreateProcess {
        pid: u32,
        tid: u32,
    },
    /// `NtCreateThread H|self TID`: makes a further thread of a process, and gives the caller a handle to it.
    CreateThread {
        process: ProcArg,
        tid: u32,
    },
    /// `NtTerminateThread H|self CODE`: ends a thread.
    TerminateThread {
        thread: ProcArg,
        code: u32,
    },
    /// `NtTerminateProcess H|self CODE`: ends the live threads of a process.
    TerminateProcess {
        process: ProcArg,
        code: u32,
    },
    /// `NtCreateSection SIZE PROT`: makes a section of so many bytes, rounded up to whole pages, which hold zeros, and
    /// which may be read alone (2) or written too (4), and gives the caller a handle to it.
    CreateSection {
        size: u32,
        protection: u32,
    },
    /// `NtMapViewOfSection H OFFSET SIZE PROT`: maps a view of a section from an offset on into the caller's process, of
    /// so many bytes, or where that is 0 up to the section's end.
    MapViewOfSection {
        handle: u32,
        offset: u32,
        size: u32,
        protection: u32,
    },
    /// `NtUnmapViewOfSection ADDRESS`: takes the view away that holds the address.
    UnmapViewOfSection {
        address: u32,
    },
    /// `NtReadVirtualMemory ADDRESS LEN`: reads bytes of the caller's process.
    ReadVirtualMemory {
        address: u32,
        length: u32,
    },
    /// `NtWriteVirtualMemory ADDRESS HEX`: writes bytes of the caller's process.
    WriteVirtualMemory {
        address: u32,
        bytes: &'a [u8],
    },
    /// `NtReadRequestData H MSG INDEX LEN`: reads bytes of the client's process, from the beginning of the range of
    /// that number that the request describes which the message names.
    ReadRequestData {
        handle: u32,
        message: &'a [u8],
        index: u32,
        length: u32,
    },
    /// `NtWriteRequestData H MSG INDEX HEX`: writes bytes of the client's process, from the beginning of such a range.
    WriteRequestData {
        handle: u32,
        message: &'a [u8],
        index: u32,
        bytes: &'a [u8],
    },
    /// `NtImpersonateClientOfPort H MSG`: the thread acts from then on as the client of a server port whose request the
    /// message names.
    ImpersonateClientOfPort {
        handle: u32,
        message: &'a [u8],
    },
    /// `NtSetInformationThread CLASS null`: with CLASS 5 the thread acts as itself again.
    SetInformationThread {
        class: u32,
    },
    /// `NtOpenThreadToken`: makes a token of the one as which the thread acts, and gives the caller a handle to it.
    OpenThreadToken,
    /// `NtOpenProcessToken`: the same of the token of the caller's process.
    OpenProcessToken,
    /// `NtQueryInformationToken H CLASS`: tells the user of a token (1), its groups (2), or its level (9).
    QueryInformationToken {
        handle: u32,
        class: u32,
    },
    /// `NtSetInformationProcess H|self CLASS PORT`: gives a process its debug port, class 7, or its exception port,
    /// class 8.
    SetInformationProcess {
        process: ProcArg,
        class: u32,
        port: u32,
    },
    /// `raise CODE handled|unhandled`: raises an exception, which the frame handlers would handle or not.
    Raise {
        code: u32,
        handled: bool,
    },
}

/// The kinds of resident: what kind of server sits on a thread, spelled by a word.
#[derive(Clone, Copy, PartialEq, Eq)]
pub enum Kind {
    /// `win32`: a server like the one that serves the Win32 interface.
    Win32,
}

/// What one line of a script says. Process and thread numbers are from 1 to 2147483647. A path is a word as it stands;
/// it is tested by the directive, not by the line.
#[derive(Drop)]
pub enum Line<'a> {
    /// `boot PID TID [TOKEN]`: makes a process with its first thread, with the token of that name, or the default.
    Boot {
        pid: u32,
        tid: u32,
        token: Option<&'a [u8]>,
    },
    /// `thread TID PID`: makes a further thread of a process.
    Thread {
        tid: u32,
        pid: u32,
    },
    /// `token NAME USER [GROUP] ..`: gives a token a name.
    Token {
        name: &'a [u8],
        token: &'a Token,
    },
    /// `dir PATH`: makes a directory of the name space.
    Dir(&'a [u8]),
    /// `link PATH TARGET`: makes a link of the name space to another path.
    Link {
        path: &'a [u8],
        target: &'a [u8],
    },
    /// `resident TID KIND H`: puts a server of a kind on a thread, which serves the port of a handle.
    Resident {
        tid: u32,
        kind: Kind,
        handle: u32,
    },
    /// `turn TID`: lets the server on a thread make its next call.
    Turn(u32),
    /// `TID CALL WORDS`: a thread makes a call.
    Run {
        tid: u32,
        call: Call<'a>,
    },
}
