// The lines that the checker writes: SPEC, "The program". One for each file, why it is missing, the counts, and the one where there is no
// list. Each is put at the front of an output, and its length is answered; a line that is longer than the output is cut, and in `ROOM`
// bytes each is whole (`line-whole`, `reason-whole`, `counts_whole`, `not-a-list-whole`). Nothing here opens, reads or writes a file.
#![tactic(auto)]

ghost use Rattle.std.specs.Prelude.{◌≡◌, ◌++◌};
ghost use Rattle.fips.specs.Constants.{ascii};
ghost use Rattle.lists.specs.Calls.{pair_in};
ghost use Rattle.lines.specs.Lines.{verdict_word, line_of, why_words, reason_line, decimal, count_line, not_a_list};
ghost use Rattle.lines.specs.Code.Counting.{counted};
ghost use Rattle.lines.specs.Code.Putting.{Put};

pub mod text; // text.rt: one text behind another in an output

use crate::text::append;

// The bytes in which every line is whole.
pub const ROOM: usize = 128;

#[derive(Clone, Copy, Debug, PartialEq, Eq)]
pub enum Verdict {
    // its bytes have the digest that is listed
    Ok,
    // they have another, or are more than the limit
    Bad,
    // opening it or reading it failed
    Missing(Why),
}

// Why a file is missing.
#[derive(Clone, Copy, Debug, PartialEq, Eq)]
pub enum Why {
    // no file of that name is there
    NotThere,
    // it may not be read
    NoPermission,
    // what has the name is a folder
    Folder,
    // opening it, or a read of it, failed in another way
    Failed,
}

// How many files were judged, and how many of them each way.
#[derive(Clone, Copy, Debug, Default, PartialEq, Eq)]
pub struct Tally {
    pub listed: u64,
    pub ok: u64,
    pub bad: u64,
    pub missing: u64,
}

impl Verdict {
    // The word that its line begins with, and a blank.
    fn word(self) -> &'static [u8]
        ensures { result.now ≡ ascii (verdict_word self) }
    {
        match self {
            Verdict::Ok => b"OK ",
            Verdict::Bad => b"BAD ",
            Verdict::Missing(_) => b"MISSING ",
        }
    }
}

impl Why {
    // What stands behind the name of a file that is missing, and the line's end.
    pub fn words(self) -> &'static [u8]
        ensures { result.now ≡ ascii (why_words self) }
    {
        match self {
            Why::NotThere => b": not there\n",
            Why::NoPermission => b": no permission\n",
            Why::Folder => b": a folder\n",
            Why::Failed => b": reading failed\n",
        }
    }
}

// The line of the file of that number in a list.
pub fn line(verdict: Verdict, list: &[u8], i: usize, out: &mut [u8]) -> usize
    ensures { Put 0 (line_of verdict (pair_in i list.now).name) out.old result out.new }
{
    let at = append(out, 0, verdict.word());
    let end = append(out, at, lists::entries::name(list, i));
    append(out, end, b"\n")
}

// Why a file is missing, in words, and the line's end.
pub fn why_words(why: Why, out: &mut [u8], at: usize) -> usize
    ensures { Put at (ascii (why_words why)) out.old result out.new }
{
    append(out, at, why.words())
}

// Why the file of that number in a list is missing.
pub fn reason(why: Why, list: &[u8], i: usize, out: &mut [u8]) -> usize
    ensures { Put 0 (reason_line why (pair_in i list.now).name) out.old result out.new }
{
    let at = append(out, 0, lists::entries::name(list, i));
    why_words(why, out, at)
}

#[tactic(auto, unfolding(fips::specs::Constants::ascii))]
pub fn not_a_list(out: &mut [u8]) -> usize
    ensures { Put 0 not_a_list out.old result out.new }
{
    append(out, 0, b"NOT A LIST\n")
}

// A number and what it counts.
pub fn count(out: &mut [u8], at: usize, n: u64, what: &[u8]) -> usize
    ensures { Put at (decimal n ++ what.now) out.old result out.new }
{
    let mut digits = [0u8; 20];
    let k = io::decimal(n, &mut digits);
    let end = append(out, at, &digits[..k]);
    append(out, end, what)
}

pub fn counts(tally: Tally, out: &mut [u8]) -> usize
    ensures { Put 0 (count_line tally) out.old result out.new }
{
    let listed = count(out, 0, tally.listed, b" listed, ");
    let ok = count(out, listed, tally.ok, b" ok, ");
    let bad = count(out, ok, tally.bad, b" bad, ");
    count(out, bad, tally.missing, b" missing\n")
}

// The verdict counted.
#[tactic(auto, unfolding(crate::specs::Code::Counting::counted))]
pub fn counted(tally: Tally, verdict: Verdict) -> Tally
    ensures { result ≡ counted tally verdict }
{
    let listed = tally.listed.wrapping_add(1);
    match verdict {
        Verdict::Ok => Tally {
            listed,
            ok: tally.ok.wrapping_add(1),
            ..tally
        },
        Verdict::Bad => Tally {
            listed,
            bad: tally.bad.wrapping_add(1),
            ..tally
        },
        Verdict::Missing(_) => Tally {
            listed,
            missing: tally.missing.wrapping_add(1),
            ..tally
        },
    }
}
