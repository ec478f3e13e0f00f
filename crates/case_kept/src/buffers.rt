// The buffers that are lent from function to function.
// The code, and a piece of the file.
pub type Bytes = [u8; 65536];

// The bytes of a line.
pub type LineBytes = [u8; 4000];

// A memory, and from COPY on what it held before the operation.
pub type Memory = [u8; 131072];

pub const COPY: usize = 65536;

// The stack cache, and from CACHE_COPY on what it held before the operation. There is one word more than the greatest stack
// cache has, so that a case with more words is lent a cache that is refused.
pub type Cache = [u32; 1026];

pub const CACHE_COPY: usize = 513;

// A record to go on from, or the room for one that is written.
pub type Record = [u8; 8192];

pub const RECORD_ROOM: usize = 8192;

// The list of interrupts as bytes, which is as long as a memory may be, and the table of handlers.
pub const LIST_ROOM: usize = 65536;

pub type Table = [u8; 256];

pub const TABLE_ROOM: usize = 256;

// What a line of the file has to report, before it is written out. The longest report is that of an operation which changes every
// word of both memories and of the stack cache: some 683,000 bytes.
pub type Report = [u8; 1048576];
