// What the programs that play a trace share: where they stand in their input, the line that is kept, its event, and the parts that are lent to the events.
// Nothing here reads or writes a descriptor.
#![tactic(auto)]

pub mod buffer;
pub mod input;

ghost use Rattle.std.specs.Prelude.{◌≡◌, length as ListN·length, take, replicate};
ghost use Rattle.console.specs.Sessions.{begun};

use buffer::Buffer;
use model::{Counts, Presentation};

// The bytes that are read or written at once.
pub const CHUNK_BYTES: usize = 65536;

pub type Chunk = [u8; CHUNK_BYTES];

// Room for a line: one byte more than a readable line has, so that a longer one is told.
pub const LINE_ROOM: usize = trace::LONGEST + 1;

// Room for the longest page of a trace.
pub const PAGE_ROOM: usize = 4096;

pub type PageRoom = [u8; PAGE_ROOM];

// Room for the longest list of a trace, of values or of codes.
pub const LIST_ROOM: usize = 1024;

pub type ListRoom = [u32; LIST_ROOM];

// A line, as far as it has been read.
pub type Line = Buffer<LINE_ROOM>;

// What is to be printed.
pub type Output = Buffer<CHUNK_BYTES>;

// Where a program stands: what was read at once, of which the bytes from `from` up to `to` are not gone through yet, the
// present line and whether it has ended, how many lines have ended, and whether the program goes on.
// Kept: `from` and `to` beside the chunk, and whether the line has ended: bytes behind `to` stand there too, and a line that goes on has bytes as well.
#[derive(Clone, Copy)]
pub struct Session {
    pub chunk: Chunk,
    pub from: usize,
    pub to: usize,
    pub line: Line,
    pub ended: bool,
    pub lines: u64,
    pub open: bool,
}

// What is lent to the events: the page, the values of a list and the codes that answer it.
#[derive(Clone, Copy)]
pub struct Parts {
    pub page: PageRoom,
    pub values: ListRoom,
    pub codes: ListRoom,
}

// What an event that is not refused gives. `Nothing` is what a line that names no event gives, and `state`.
// Kept: nothing is one of its five cases, and an Option round the others would be one more pattern at each.
#[derive(Clone, Copy)]
pub enum Answer {
    Nothing,
    Number(u64),
    Counts(Counts),
    Presentation(Presentation),
    Asked(bool),
}

impl Session {
    pub fn new() -> Self
        ensures { result ≡ begun result.chunk result.line.bytes }
    {
        let line = Buffer::new();
        Session {
            chunk: [0; CHUNK_BYTES],
            from: 0,
            to: 0,
            line,
            ended: false,
            lines: 0,
            open: true,
        }
    }
}

impl Parts {
    pub fn new() -> Self
        ensures page { result.page ≡ replicate 4096 0 }
        ensures values { result.values ≡ replicate 1024 0 }
        ensures codes { result.codes ≡ replicate 1024 0 }
    {
        Parts {
            page: [0; PAGE_ROOM],
            values: [0; LIST_ROOM],
            codes: [0; LIST_ROOM],
        }
    }
}

// The first `count` values, or all where there are no more.
pub fn first<T>(values: &[T], count: usize) -> &[T]
    ensures { result.now ≡ take count values.now }
{
    &values[..count.min(values.len())]
}

// The same of values that are lent to be written.
pub fn first_mut<T>(values: &mut [T], count: usize) -> &mut [T]
    ensures result_value { result.now ≡ take count values.old }
    ensures ref_ptr_value { result.ref_ptr ≡ values.entry.ref_ptr }
{
    let end = count.min(values.len());
    &mut values[..end]
}

// Kept: a length beside the list: the trace asks for it, and this public function takes any, also more than the list has.
// Sets each code to `fill`. Gives the first `length`, or all where there are no more.
pub fn blank_codes(codes: &mut [u32], length: usize, fill: u32) -> &mut [u32]
    ensures result_value { result.now ≡ take length (replicate (ListN·length codes.old) fill) }
    ensures ref_ptr_value { result.ref_ptr ≡ codes.entry.ref_ptr }
{
    codes.fill(fill);
    first_mut(codes, length)
}
