// The list maker: SPEC, "The list maker". Names come on standard input, each ended by a zero byte; each file of the folder where it is
// started that has such a name is read through a bay, and its pair is put in a list by `writer`. The list is written to a new file, which
// takes the name `yard.man` at the end; whatever fails before leaves `yard.man` as it was. Its first argument is the edition, its second
// the new file's name. Which names are refused and in which words is `listing`'s; here files are read and written.
#![tactic(auto)]

ghost use Rattle.yardlist.specs.Entered.{Closed, Entered};

use listing::{Reason, names, says};
use lists::{entries, fields};
use report::Ending;
use slices::places::part;
use std::env::{Env, FillError};
use std::fs::{self, File, OpenOptions};
use std::io::{self, Cursor, ErrorKind, Write};

// All names that a list may have find room, and one more that is as long as a path can be.
const INPUT: usize = 20736;

// No list is made, and why is said on standard error already.
#[derive(Clone, Copy, Debug)]
struct Said;

// What is said on standard error and cannot be written is lost: the one line on standard output tells that a list is made.
fn say(text: &str, rt: &HostRuntime) -> Said {
    let _ = eprintln!(rt; "{text}");
    Said
}

// What failed, and the system's reason, without the number that the library puts behind it.
fn fail(what: &str, error: io::Error, rt: &HostRuntime) -> Said {
    let mut text = Cursor::new([0u8; 128]);
    let _ = write!(text, "{error}");
    let said = std::str::from_utf8(text.get_ref()).unwrap_or("");
    let whole = said.trim_end_matches('\0');
    let (reason, _) = whole.split_once(" (os error ").unwrap_or((whole, ""));
    let _ = eprintln!(rt; "{what}: {reason}");
    Said
}

fn refuse(name: &[u8], reason: Reason, rt: &HostRuntime) -> Said {
    let mut out = [0u8; says::ROOM];
    let n = says::refusal(name, reason, &mut out);
    let _ = rt.stderr().write_all(part(&out, 0, n));
    Said
}

// All names are judged before the first file is opened.
fn judge_all(input: &[u8], rt: &HostRuntime) -> Result<(), Said> {
    let n = names::count(input);
    for i in 0..n {
        let name = names::name(input, i);
        listing::judge(name, i).map_err(|reason| refuse(name, reason, rt))?;
    }
    if names::all_ended(input) {
        return Ok(());
    }
    let rest = names::name(input, n);
    listing::judge(rest, n).map_err(|reason| refuse(rest, reason, rt))?;
    Err(refuse(rest, Reason::Unended, rt))
}

// Closes the bay of a file that was read to its end, and puts its pair in the list.
fn put(name: &[u8], list: &mut [u8], table: &mut [u64]) -> Result<(), Reason>
    ensures { Closed list.old name.now table.old result list.new }
{
    let mut out = [0u8; 64];
    calls::close(table, 0, 0, 0, &mut out).map_err(|_| Reason::Unfit)?;
    let size = fips::lookup::digest_bytes(entries::edition(list));
    listing::answered(writer::put(list, name, &out[..size]))
}

fn enter(name: &[u8], list: &mut [u8], table: &mut [u64], rt: &HostRuntime) -> Result<(), Reason>
    ensures { Entered list.old name.now table.old result list.new }
{
    match reading::through(rt, name, list, table) {
        Ending::Whole => put(name, list, table),
        Ending::TooLong => Err(Reason::TooLong),
        Ending::Unread(why) => Err(Reason::Unread(why)),
    }
}

fn enter_all(input: &[u8], list: &mut [u8], rt: &HostRuntime) -> Result<(), Said> {
    let mut table = [0u64; bays::table::ONE_BAY];
    for i in 0..names::count(input) {
        let name = names::name(input, i);
        enter(name, list, &mut table, rt).map_err(|reason| refuse(name, reason, rt))?;
    }
    Ok(())
}

// All of the list is put in the file, and stored.
fn fill(mut file: File, list: &[u8]) -> io::Result<()> {
    file.write_all(list)?;
    file.sync_all()
}

fn fill_and_rename(file: File, new: &str, list: &[u8], rt: &HostRuntime) -> Result<(), Said> {
    fill(file, list).map_err(|e| fail("the new list cannot be written", e, rt))?;
    fs::rename(rt, new, "yard.man").map_err(|e| fail("yard.man cannot be replaced", e, rt))
}

// A file that has the new name already is another run's: it stays as it is.
fn save(new: &str, list: &[u8], rt: &HostRuntime) -> Result<(), Said> {
    let file = OpenOptions::new()
        .write(true)
        .create_new(true)
        .open(rt, new)
        .map_err(|e| fail("the new list cannot be made", e, rt))?;
    let saved = fill_and_rename(file, new, list, rt);
    if saved.is_err() {
        let _ = fs::remove_file(rt, new);
    }
    saved
}

// A name that is no UTF-8 text is none that a file can be made by here.
fn save_by_bytes(new: &[u8], list: &[u8], rt: &HostRuntime) -> Result<(), Said> {
    match std::str::from_utf8(new) {
        Ok(new) => save(new, list, rt),
        Err(_) => {
            let e = io::Error::from(ErrorKind::InvalidFilename);
            Err(fail("the new list cannot be made", e, rt))
        }
    }
}

// The new file's name is the second argument.
fn save_as_asked(list: &[u8], rt: &HostRuntime) -> Result<(), Said> {
    let mut new = [0u8; 64];
    match rt.arg(2, &mut new) {
        Err(FillError::NotPresent) => save("yard.man.new", list, rt),
        Ok(0) | Err(FillError::TooLong) => Err(say("no name for the new list", rt)),
        Ok(n) => save_by_bytes(&new[..n], list, rt),
    }
}

fn tell(list: &[u8], rt: &HostRuntime) {
    let mut out = [0u8; says::ROOM];
    let n = says::made(
        list.len() as u64,
        entries::count(list) as u64,
        entries::edition(list),
        &mut out,
    );
    let _ = rt.stdout().write_all(part(&out, 0, n));
}

// The edition is the first argument, a digit; 0, which names none, for any other text.
fn edition(rt: &HostRuntime) -> u64 {
    let mut digit = [0u8; 1];
    match rt.arg(1, &mut digit) {
        Err(FillError::NotPresent) => 2,
        Ok(1) => match digit[0] {
            d @ b'1'..=b'6' => u64::from(d - b'0'),
            _ => 0,
        },
        _ => 0,
    }
}

fn make(input: &[u8], rt: &HostRuntime) -> Result<(), Said> {
    let mut buffer = [0u8; lists::LONGEST];
    writer::start(edition(rt), &mut buffer).map_err(|_| say(
        "no such edition: there are 1 to 6",
        rt,
    ))?;
    judge_all(input, rt)?;
    enter_all(input, &mut buffer, rt)?;
    let whole = bigendian::rows::field(&buffer, fields::WHOLE_FIELD_AT, fields::OFFSET) as usize;
    let list = part(&buffer, 0, whole);
    save_as_asked(list, rt)?;
    tell(list, rt);
    Ok(())
}

fn main(rt: HostRuntime) {
    let mut input = [0u8; INPUT];
    let _ = match reading::rest(&mut rt.stdin(), &mut input) {
        Some(n) => make(&input[..n], &rt),
        None => Err(say("the names cannot be read from standard input", &rt)),
    };
}
