// Where a digest list has its numbers, SPEC, "Digest list", and the numbers read. Any bytes are taken: a number that would pass their end
// is made of the bytes that are there.
ghost use Rattle.std.specs.Prelude.{◌≡◌, ◌+◌, ◌^◌, ◌≤◌, ◌<◌, drop};
ghost use Rattle.bigendian.specs.Rows.{field_in};
ghost use Rattle.lists.specs.Layout.{entry_head, name_length};

// The bytes of a number, and of an offset or a length.
pub const NUMBER: usize = 2;

pub const OFFSET: usize = 4;

// The header's fields; the entries begin where it ends.
pub(crate) const EDITION_AT: usize = 0;

pub(crate) const COUNT_AT: usize = 2;

pub(crate) const ENTRIES_FIELD_AT: usize = 4;

pub(crate) const NAMES_FIELD_AT: usize = 8;

pub const WHOLE_FIELD_AT: usize = 12;

pub const ENTRIES_AT: usize = 16;

// An entry begins with where its name begins; then the name's length, then the digest.
const NAME_LENGTH_AT: usize = 4;

pub const ENTRY_HEAD: usize = 8;

pub(crate) fn number(list: &[u8], at: usize, n: usize) -> usize
    requires { n ≤ 8 }
    ensures { result ≡ field_in list.now at n }
{
    bigendian::rows::field(list, at, n) as usize
}

// How long the name of the entry at a place is.
pub(crate) fn name_length(list: &[u8], at: usize) -> usize
    requires { at + entry_head < 2 ^ 64 }
    ensures { result ≡ name_length (drop at list.now) }
{
    number(list, at + NAME_LENGTH_AT, OFFSET)
}
