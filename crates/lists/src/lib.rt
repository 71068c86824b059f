// Digest lists, SPEC, "Digest list": the digest of a name in a list, and judging a digest by it.
// `find` says where a digest lies; `lookup` lends it out of the list, and `judge` compares with it. `place` says where a name belongs, for
// one who writes a list. Any bytes are taken.
#![tactic(auto)]

mod rules;
pub mod fields; // fields.rt: where a list has its numbers
pub mod names; // names.rt: which names a list may have
pub mod entries; // entries.rt: the names and digests by number
pub mod order; // order.rt: which of two names comes first

ghost use Rattle.std.specs.Prelude.{◌≡◌, is_ok};
ghost use Rattle.answers.specs.Judged.{first};
ghost use Rattle.answers.specs.Numbers.{number_of};
ghost use Rattle.slices.specs.Parts.{LiesAt};
ghost use Rattle.lists.specs.Calls.{listed_digest, listed_place, found_spot, Finds, judge_tests};
ghost use Rattle.lists.specs.Code.Place.{place_tests, earlier_of, listed_of, Placed};
ghost use Rattle.lists.specs.Layout.{accepted};
ghost use Rattle.lists.specs.Code.Rules.{names_entry};

use answers::{Answer, Refusal};
use slices::places::part;
use slices::same::same;

// House: so many entries at most.
pub const MOST_ENTRIES: usize = 256;

// No list is longer: the header, and the most entries, with digests of 64 bytes and the longest names.
pub const LONGEST: usize = fields::ENTRIES_AT
    + MOST_ENTRIES * (fields::ENTRY_HEAD + 64 + names::LONGEST);

// Where the digest of a name lies: where it starts in the list, and how long it is.
#[derive(Clone, Copy, Debug, PartialEq, Eq)]
pub struct Found {
    pub start: usize,
    pub len: usize,
}

// What one reading of a list tells of a name: how many of its names come before the name, and whether it has the name.
#[derive(Clone, Copy, Debug, PartialEq, Eq)]
pub struct Placing {
    pub earlier: usize,
    pub listed: bool,
}

// Whether the entry of that number has the name.
fn names_entry(list: &[u8], i: usize, name: &[u8]) -> bool
    ensures { result ≡ names_entry list.now i name.now }
{
    i < entries::count(list) && same(entries::name(list, i), name)
}

// The header and then the entries, rule by rule in one pass, which also counts the names that come before. Bytes that are no list: 12.
pub fn place(list: &[u8], name: &[u8]) -> Result<Placing, Refusal>
    ensures answer { number_of result ≡ first (place_tests list.now) }
    ensures places { Placed list.now name.now (is_ok result) (earlier_of result) (listed_of result) }
{
    if !rules::header_right(list) {
        return Err(Refusal::NotAList);
    }
    match rules::walk(list, name, entries::count(list), entries::digest_size(list)) {
        Some(earlier) => {
            let listed = names_entry(list, earlier, name);
            Ok(Placing { earlier, listed })
        }
        None => Err(Refusal::NotAList),
    }
}

// Whether the bytes are a list, whatever name is looked for.
pub fn is_list(list: &[u8]) -> bool
    ensures { result ≡ accepted list.now }
{
    place(list, &list[..0]).is_ok()
}

// In a list each name starts where the last one ends, so only its length is read. Bytes that are no list: 12; a name without an entry: 13.
pub fn find(list: &[u8], name: &[u8]) -> Result<Found, Refusal>
    ensures { Finds list.now name.now (number_of result) (found_spot result) }
{
    if !is_list(list) {
        return Err(Refusal::NotAList);
    }
    let count = entries::count(list);
    let digest = entries::digest_size(list);
    let size = fields::ENTRY_HEAD + digest;
    let mut at = fields::ENTRIES_AT;
    let mut next = fields::ENTRIES_AT + count * size;
    for _ in 0..count {
        let len = fields::name_length(list, at);
        if same(part(list, next, len), name) {
            return Ok(Found {
                start: at + fields::ENTRY_HEAD,
                len: digest,
            });
        }
        next += len;
        at += size;
    }
    Err(Refusal::NotListed)
}

// The digest of the name, lent out of the list where it lies there; empty where `find` finds none, and then at the list's beginning.
pub fn lookup<'a, 'b>(list: &'a [u8], name: &'b [u8]) -> &'a [u8]
    ensures result_value { result.now ≡ listed_digest list.now name.now }
    ensures lies_at { LiesAt result list.entry (listed_place list.now name.now) }
{
    match find(list, name) {
        Ok(found) => part(list, found.start, found.len),
        Err(_) => &list[..0],
    }
}

// The lengths are compared too, so a digest that is cut is not taken for the whole.
pub fn judge(list: &[u8], name: &[u8], digest: &[u8]) -> Answer
    ensures { number_of result ≡ first (judge_tests list.now name.now digest.now) }
{
    let found = find(list, name)?;
    if !same(part(list, found.start, found.len), digest) {
        return Err(Refusal::DigestDiffers);
    }
    Ok(())
}
