// The entries of a list by number, for one who walks through it. Any bytes are taken: a part that would pass their end is cut there, and
// what is said of a list holds of the bytes that `is_list` accepts.
ghost use Rattle.std.specs.Prelude.{◌≡◌, ◌^◌, ◌<◌};
ghost use Rattle.lists.specs.Layout.{edition_in, count_in, digest_size_in};
ghost use Rattle.slices.specs.Parts.{LiesAt};
ghost use Rattle.lists.specs.Calls.{pair_in, place_of_entry, place_of_name, place_of_digest};

use crate::fields;
use crate::fields::number;
use slices::places::part;

pub fn edition(list: &[u8]) -> u64
    ensures { result ≡ edition_in list.now }
{
    number(list, fields::EDITION_AT, fields::NUMBER) as u64
}

pub fn count(list: &[u8]) -> usize
    ensures { result ≡ count_in list.now }
{
    number(list, fields::COUNT_AT, fields::NUMBER)
}

pub fn digest_size(list: &[u8]) -> usize
    ensures { result ≡ digest_size_in list.now }
{
    fips::lookup::digest_bytes(edition(list))
}

// Where an entry begins. The count is a number of two bytes, so this is no large number.
fn entry_at(list: &[u8], i: usize) -> usize
    requires { i < count_in list.now }
    ensures { (result ≡ place_of_entry i list.now) × (result < 2 ^ 32) }
{
    fields::ENTRIES_AT + i * (fields::ENTRY_HEAD + digest_size(list))
}

// Names are counted from 0; behind the last the part is empty. An empty part lies at the list's beginning.
pub fn name(list: &[u8], i: usize) -> &[u8]
    ensures result_value { result.now ≡ (pair_in i list.now).name }
    ensures lies_at { LiesAt result list.entry (place_of_name i list.now) }
{
    if count(list) <= i {
        return &list[..0];
    }
    let at = entry_at(list, i);
    part(
        list,
        number(list, at, fields::OFFSET),
        fields::name_length(list, at),
    )
}

pub fn digest(list: &[u8], i: usize) -> &[u8]
    ensures result_value { result.now ≡ (pair_in i list.now).digest }
    ensures lies_at { LiesAt result list.entry (place_of_digest i list.now) }
{
    if count(list) <= i {
        return &list[..0];
    }
    let at = entry_at(list, i);
    part(list, at + fields::ENTRY_HEAD, digest_size(list))
}
