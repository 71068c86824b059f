// Reading: what the programs ask of the system. A whole file at once, and a file piece by piece into a bay. A read may bring fewer bytes
// than were asked for, and one that a signal interrupts has failed only for that turn. Nothing says that a file ends, so each loop counts
// its turns, up to a number that no run reaches. What a file holds is the system's: the contracts say that there is such a file.
#![tactic(auto)]

ghost use Rattle.std.specs.Prelude.{◌≡◌, ◌<◌, ◌^◌, IfOk};
ghost use Rattle.lists.specs.Layout.{edition_in};
ghost use Rattle.report.specs.Code.Files.{Reading};
ghost use Rattle.report.specs.Code.Program.{File, Led};
ghost use Rattle.reading.specs.Filled.{Fills, Takes};
ghost use Rattle.reading.specs.Answers.{error_number, answered_as};

use lines::Why;
use report::{Ending, file, reads};
use std::fs::{self, Files};
use std::io::{self, ErrorKind, Read};

// The number of an error, as Linux has them; 0, which is none of them, where it is the library's own.
fn number(error: &io::Error) -> i32
    ensures { result ≡ error_number error.now }
{
    error.raw_os_error().unwrap_or(0)
}

// What a read answered as `report` reads it: its number of bytes, or one below 0 and the number of the error.
fn answered(got: io::Result<usize>) -> (isize, i32)
    requires { IfOk got (λ n. n < 2 ^ 63) }
    ensures { result ≡ answered_as got }
{
    match got {
        Ok(n) => (n as isize, 0),
        Err(e) => (-1, number(&e)),
    }
}

// The rest of a file at the front of a buffer: so many bytes, all of them or as many as there is room for. None where a read failed.
pub fn rest<R: Read>(from: &mut R, buffer: &mut [u8]) -> Option<usize>
    ensures fills { Fills result buffer.new }
    ensures bytes { Takes (R.remaining from.old) (R.remaining from.new) result buffer.new }
{
    let mut n = 0;
    for _ in 0..u64::MAX {
        match from.read(&mut buffer[n..]) {
            Ok(0) => return Some(n),
            Ok(more) => n += more,
            Err(e) if e.kind() == ErrorKind::Interrupted => {}
            Err(_) => return None,
        }
    }
    None
}

// Opens a file by its name. A name that is no UTF-8 text is one of no file here.
fn open<F: Files>(files: &F, name: &[u8]) -> io::Result<F::File> {
    let name = std::str::from_utf8(name).map_err(|_| ErrorKind::InvalidFilename)?;
    fs::File::open(files, name)
}

// The same of a file by its name. None where it could not be opened, too.
pub fn whole<F: Files>(files: &F, name: &[u8], buffer: &mut [u8]) -> Option<usize>
    ensures { Fills result buffer.new }
{
    let mut from = open(files, name).ok()?;
    rest(&mut from, buffer)
}

// Takes the rest of the file, piece by piece.
fn pieces<R: Read>(from: &mut R, table: &mut [u64]) -> Ending
    ensures { Reading table.old result table.new }
{
    let mut piece = [0u8; 4096];
    for _ in 0..u64::MAX {
        let (got, errno) = answered(from.read(&mut piece));
        if let Some(ending) = file::turn(table, &piece, got, errno) {
            return ending;
        }
    }
    Ending::Unread(Why::Failed)
}

// Leads a file through the bay of the table, in the list's edition.
pub fn through<F: Files>(files: &F, name: &[u8], list: &[u8], table: &mut [u64]) -> Ending
    ensures { (f : File) × Led table.old (edition_in list.now) f result table.new }
{
    match open(files, name) {
        Ok(mut from) => {
            file::begin(table, list);
            pieces(&mut from, table)
        }
        Err(e) => Ending::Unread(reads::reason(number(&e))),
    }
}
