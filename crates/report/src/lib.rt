// What the checker says of a file: SPEC, "The program". Its bytes go through a bay, and how reading ended decides the verdict.
// Nothing here opens, reads or writes a file.
#![tactic(auto)]

pub mod file; // file.rt: a file through a bay, from its first piece to its verdict
pub mod reads; // reads.rt: what the answer of a read says

use lines::Why;

// How reading a file ended.
#[derive(Clone, Copy, Debug, PartialEq, Eq)]
pub enum Ending {
    // all of its bytes were taken
    Whole,
    // a piece was not: the file is longer than the limit
    TooLong,
    // it could not be opened, or not be read to its end
    Unread(Why),
}

// What a read brought.
#[derive(Clone, Copy, Debug, PartialEq, Eq)]
pub enum Brought {
    // bytes, at the front of its buffer
    Bytes,
    // none, since the file ends
    End,
    // none, since a signal came in between: the read is to be made again
    Again,
    // none, since it failed
    Nothing(Why),
}
