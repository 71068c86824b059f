// Writing digest lists, SPEC, "Writing a list": a list grows at the front of a lent buffer, a pair at a time, and is one after each call.
// `put` reads once, which judges the list and finds the place, and then moves once, from the end; no second buffer is needed.
#![tactic(auto)]

mod moving;

ghost use Rattle.std.specs.Prelude.{true, ◌≡◌};
ghost use Rattle.answers.specs.Judged.{first};
ghost use Rattle.answers.specs.Numbers.{number_of};
ghost use Rattle.lists.specs.Code.Place.{earlier, Placed};
ghost use Rattle.lists.specs.Layout.{read_list};
ghost use Rattle.writer.specs.Code.Moves.{name_spot};
ghost use Rattle.writer.specs.Writing.{Starts, front_list, put_tests, put_in, Puts, Lends};

use answers::{Answer, Refusal};
use bigendian::rows::field;
use lists::{Placing, entries, fields};
use slices::places::part;

// Puts the empty list of an edition at the front of the buffer; the bytes behind it stay.
pub fn start(edition: u64, buffer: &mut [u8]) -> Answer
    ensures { Starts edition buffer.old (number_of result) buffer.new }
{
    if !fips::lookup::known(edition) {
        return Err(Refusal::NoSuchEdition);
    }
    if buffer.len() < fields::ENTRIES_AT {
        return Err(Refusal::ShortOutput);
    }
    moving::put_header(buffer, edition, 0, fields::ENTRIES_AT, fields::ENTRIES_AT);
    Ok(())
}

// The list at the front, as long as its own length field says; cut where that passes the buffer, and then it is no list.
fn front(buffer: &[u8]) -> &[u8]
    ensures { result.now ≡ front_list buffer.now }
{
    part(
        buffer,
        0,
        field(buffer, fields::WHOLE_FIELD_AT, fields::OFFSET) as usize,
    )
}

// The refusals behind that of bytes that are no list, in their order, by what one reading told of the list at the front and of the name.
fn refusal(buffer: &[u8], place: Placing, name: &[u8], digest: &[u8]) -> Answer
    requires { Placed (front_list buffer.now) name.now true place.earlier place.listed }
    ensures { number_of result ≡ first (put_tests buffer.now name.now digest.now) }
{
    let list = front(buffer);
    let size = entries::digest_size(list);
    if !lists::names::allowed(name) {
        return Err(Refusal::ForbiddenName);
    }
    if digest.len() != size {
        return Err(Refusal::DigestDiffers);
    }
    if place.listed {
        return Err(Refusal::NameTaken);
    }
    if lists::MOST_ENTRIES <= entries::count(list) {
        return Err(Refusal::ListFull);
    }
    if buffer.len() - list.len() < fields::ENTRY_HEAD + digest.len() + name.len() {
        return Err(Refusal::ShortOutput);
    }
    Ok(())
}

// Where in the old list the new name belongs: where the name of the entry begins that the new entry comes before, and behind the last name
// where there is none.
fn name_place(list: &[u8], entry_at: usize, names_at: usize) -> usize
    ensures { result ≡ name_spot list.now entry_at names_at }
{
    if entry_at == names_at {
        return list.len();
    }
    field(list, entry_at, fields::OFFSET) as usize
}

// Puts the pair into the list at the front, with so many entries ahead of its own. First entry and name are put in, which moves what stands
// behind them; then the offsets are raised of the entries whose names were moved, and the header is written anew.
fn insert(buffer: &mut [u8], ahead: usize, name: &[u8], digest: &[u8])
    requires { (first (put_tests buffer.old name.now digest.now) ≡ 0)
        × (ahead ≡ earlier name.now (read_list (front_list buffer.old)).pairs) }
    ensures { buffer.new ≡ put_in buffer.old name.now digest.now }
{
    let list = front(buffer);
    let edition = entries::edition(list);
    let count = entries::count(list);
    let whole = list.len();
    let size = fields::ENTRY_HEAD + digest.len();
    let entry_at = fields::ENTRIES_AT + ahead * size;
    let names_at = fields::ENTRIES_AT + count * size;
    let name_at = name_place(list, entry_at, names_at);
    let more = size + name.len();
    moving::insert_both(buffer, entry_at, name_at, whole, name, digest);
    moving::raise(
        &mut buffer[entry_at + size..names_at + size],
        count - ahead,
        size,
        more,
    );
    moving::raise(&mut buffer[fields::ENTRIES_AT..entry_at], ahead, size, size);
    moving::put_header(buffer, edition, count + 1, names_at + size, whole + more);
}

// Puts a pair in its place in the list at the front of the buffer, the order being that of the names; the bytes behind the new list stay.
pub fn put(buffer: &mut [u8], name: &[u8], digest: &[u8]) -> Answer
    ensures puts { Puts buffer.old name.now digest.now (number_of result) buffer.new }
    ensures lends { Lends buffer.old name.now digest.now }
{
    let place = lists::place(front(buffer), name)?;
    refusal(buffer, place, name, digest)?;
    insert(buffer, place.earlier, name, digest);
    Ok(())
}
