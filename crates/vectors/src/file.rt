// A file of vectors, line by line: how many lines it has, and how many of them hold.
use hexlines::Tally;
use std::fs::File;
use std::io;
use std::os::unix::fs::FileExt;

// The first line of a text; of no bytes there is none. A line that is longer than the text is cut there, and does not hold.
fn first(text: &[u8]) -> Option<&[u8]> {
    if text.is_empty() {
        return None;
    }
    Some(slices::places::part(text, 0, hexlines::find(text, b'\n')))
}

// Reads from where the next line starts, and counts it. Nothing says that a file ends, so the loop counts its turns, up to a number that
// no run reaches.
fn all(file: &File) -> io::Result<Tally> {
    let mut buffer = [0u8; 32768];
    let mut tally = Tally::default();
    let mut at: u64 = 0;
    for _ in 0..u64::MAX {
        let n = file.read_at(&mut buffer, at)?;
        let Some(line) = first(&buffer[..n]) else {
            break;
        };
        tally.count(crate::line::holds(line).unwrap_or(false));
        at = at.wrapping_add(line.len() as u64).wrapping_add(1);
    }
    Ok(tally)
}

// Writes the file's name, how many of its lines hold, and how many it has.
pub(crate) fn report(rt: &HostRuntime, name: &str) -> io::Result<()> {
    let file = File::open(rt, name)?;
    let tally = all(&file)?;
    println!(rt; "{name} {tally}")
}
