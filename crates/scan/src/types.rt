// Tokens, words, steps and faults of a script.
ghost use Rattle.std.specs.Prelude.{◌≡◌};
ghost use Rattle.scan.specs.declared.types.ReaderFault.TheVariants.{Memory};

use std::alloc::{AllocError, AllocFailed};

// A place in a script, counted from 1.
#[derive(Clone, Copy, PartialEq, Eq, Debug)]
pub struct Spot {
    pub line: u32,
    pub column: u32,
}

// One token. `Negative` is a number behind a minus; a word and a text are parts of the script.
#[derive(Clone, Copy)]
pub enum Token<'a> {
    Open,
    Close,
    Natural(u32),
    Negative(u32),
    Word(&'a [u8]),
    Text(&'a [u8]),
    LineEnd,
}

// A token and where it begins.
#[derive(Clone, Copy)]
pub struct Placed<'a> {
    pub at: Spot,
    pub token: Token<'a>,
}

// The words that a form begins with.
#[derive(Clone, Copy)]
pub enum Verb {
    Open,
    Null,
    Number,
    Copy,
    Make,
    Text,
    Name,
    Fetch,
    Store,
    Divide,
    Kind,
    Read,
    Same,
    Collect,
}

#[derive(Clone, Copy)]
pub enum Layout {
    Byte8,
    Sixbit,
}

// One call with its arguments.
#[derive(Clone, Copy)]
pub enum Step<'a> {
    Open(Layout, u32, u32),
    Null(u32),
    Number(u32, i32),
    Copy(u32, u32),
    Make(u32, u32, u32),
    Text(u32, &'a [u8]),
    Name(u32, u32, u32),
    Fetch(u32, u32),
    Store(u32, u32),
    Divide(u32, u32, u32),
    Kind(u32),
    Read(u32),
    Same(u32, u32),
    Collect(u32),
}

// Why a script is refused: number 18, 19 and 20, and want of memory.
#[derive(Clone, Copy, PartialEq, Eq, Debug)]
pub enum ReaderFault {
    NoToken(Spot),
    Unfit(Spot),
    TooLong,
    Memory,
}

impl From<AllocError> for ReaderFault {
    ghost from_gives = { λ _ r. r ≡ Memory };

    fn from(_e: AllocError) -> ReaderFault {
        ReaderFault::Memory
    }
}

impl<T: Drop> From<AllocFailed<T>> for ReaderFault {
    ghost from_gives = { λ _ r. r ≡ Memory };

    fn from(_e: AllocFailed<T>) -> ReaderFault {
        ReaderFault::Memory
    }
}
