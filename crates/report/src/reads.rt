// What the answer of a read says: its number of bytes, and the number of the error where that is negative.
ghost use Rattle.std.specs.Prelude.{◌≡◌};
ghost use Rattle.report.specs.Reads.{why_of, brought};

use crate::Brought;
use lines::Why;
use std::cmp::Ordering;

// The numbers of errors, as Linux has them.
const EPERM: i32 = 1;

const ENOENT: i32 = 2;

const EINTR: i32 = 4;

const EACCES: i32 = 13;

const ENOTDIR: i32 = 20;

const EISDIR: i32 = 21;

const ELOOP: i32 = 40;

pub fn reason(errno: i32) -> Why
    ensures { result ≡ why_of errno }
{
    match errno {
        ENOENT | ENOTDIR | ELOOP => Why::NotThere,
        EPERM | EACCES => Why::NoPermission,
        EISDIR => Why::Folder,
        _ => Why::Failed,
    }
}

pub fn brought(got: isize, errno: i32) -> Brought
    ensures { result ≡ brought got errno }
{
    match got.cmp(&0) {
        Ordering::Greater => Brought::Bytes,
        Ordering::Equal => Brought::End,
        Ordering::Less if errno == EINTR => Brought::Again,
        Ordering::Less => Brought::Nothing(reason(errno)),
    }
}
