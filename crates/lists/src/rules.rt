// Whether bytes are a digest list: SPEC, "Digest list", rule by rule in one pass. Numbers read from the bytes may be anything
// up to 2^32 - 1, so each is compared before it is added to, or used as, a place.
ghost use Rattle.std.specs.Prelude.{◌≡◌, [], ◌+◌, ◌-◌, ◌^◌, ◌<◌, ◌≤◌, ℕ, length, drop, Some, is_some};
ghost use Rattle.slices.specs.Parts;
ghost use Rattle.lists.specs.Code.Place.{earlier};
ghost use Rattle.lists.specs.Layout.{entries_at, entry_head, entry_size, names_at, read_pairs};
ghost use Rattle.lists.specs.Order;
ghost use Rattle.lists.specs.Code.Rules.{offsets_right, header_right, entry_right, entries_right, more_earlier};

use crate::entries::{count, digest_size, edition};
use crate::fields::{name_length, number};
use crate::{MOST_ENTRIES, fields, names, order};
use slices::places::part;

// The names' offset may lie past the end: it is checked here, and nowhere later.
fn offsets_right(list: &[u8], names: usize) -> bool
    ensures { result ≡ offsets_right names list.now }
{
    number(list, fields::ENTRIES_FIELD_AT, fields::OFFSET) == fields::ENTRIES_AT
        && number(list, fields::NAMES_FIELD_AT, fields::OFFSET) == names
        && number(list, fields::WHOLE_FIELD_AT, fields::OFFSET) == list.len()
        && names <= list.len()
}

pub(crate) fn header_right(list: &[u8]) -> bool
    ensures { result ≡ header_right list.now }
{
    if list.len() < fields::ENTRIES_AT {
        return false;
    }
    if !fips::lookup::known(edition(list)) {
        return false;
    }
    let entries = count(list);
    if MOST_ENTRIES < entries {
        return false;
    }
    offsets_right(
        list,
        fields::ENTRIES_AT + entries * (fields::ENTRY_HEAD + digest_size(list)),
    )
}

// The entry at a place, whose name must stand at `next`, right after the last name, which starts at `last`.
fn entry_right(list: &[u8], at: usize, last: usize, next: usize) -> bool
    requires { (at + entry_head ≤ length list.now) × (last ≤ next) × (next ≤ length list.now) }
    ensures { result ≡ entry_right (Parts.part list.now last (next - last)) next (drop at list.now) list.now }
{
    if number(list, at, fields::OFFSET) != next {
        return false;
    }
    let len = name_length(list, at);
    if list.len() - next < len {
        return false;
    }
    let name = part(list, next, len);
    if !names::allowed(name) {
        return false;
    }
    order::before(part(list, last, next - last), name)
}

// How many names come before the one looked for, with entry i seen too: the count grows only while all names so far came before.
fn further(earlier: usize, i: usize, entry: &[u8], name: &[u8]) -> usize
    requires { i < 2 ^ 32 }
    ensures { result ≡ more_earlier earlier i (Order.before entry.now name.now) }
{
    if earlier == i && order::before(entry, name) {
        return earlier + 1;
    }
    earlier
}

// How many names come before the one that is looked for, where the entries are right, and nothing where they are not. The empty name in
// front of the names comes before the first of them, whatever that is.
pub(crate) fn walk(list: &[u8], name: &[u8], count: usize, digest: usize) -> Option<usize>
    requires { (digest ≤ 64) × (count ≤ 256) × (names_at count digest ≤ length list.now) }
    ensures right_value { is_some result
        ≡ entries_right count (entry_size digest) [] (names_at count digest) (drop entries_at list.now) list.now }
    ensures earlier_value { (n : ℕ) → result ≡ Some n →
        n
        ≡ earlier name.now (read_pairs count digest (drop entries_at list.now) list.now) }
{
    let size = fields::ENTRY_HEAD + digest;
    let mut at = fields::ENTRIES_AT;
    let mut next = fields::ENTRIES_AT + count * size;
    let mut last = next;
    let mut earlier = 0;
    for i in 0..count {
        if !entry_right(list, at, last, next) {
            return None;
        }
        last = next;
        let len = name_length(list, at);
        earlier = further(earlier, i, part(list, next, len), name);
        next += len;
        at += size;
    }
    if next != list.len() {
        return None;
    }
    Some(earlier)
}
