// The moving pass of `put`: what stands behind a place is moved towards the end to make room there, what stands last first, and then
// offsets and header are written anew. Nothing is copied elsewhere meanwhile.
ghost use Rattle.std.specs.Prelude.{◌≡◌, ◌++◌, ◌+◌, ◌*◌, ◌^◌, ◌<◌, ◌≤◌, length, drop};
ghost use Rattle.bigendian.specs.Rows.{row_bytes};
ghost use Rattle.lists.specs.Layout.{entry_head, entry_size, entries_at, list_row, entry_row};
ghost use Rattle.writer.specs.Code.Moves.{slid, raised, with_both};

use bigendian::put;
use bigendian::rows::{field, put_row};
use lists::fields;
use slices::front::put_front;

// Moves bytes towards the end by so many places, as far as they find room.
pub(crate) fn slide(bytes: &mut [u8], by: usize)
    ensures { bytes.new ≡ slid by bytes.old }
{
    if by < bytes.len() {
        bytes.copy_within(..bytes.len() - by, by);
    }
}

// Raises the offset in each of n entries, from the last to the first, as the whole pass goes.
pub(crate) fn raise(entries: &mut [u8], n: usize, size: usize, by: usize)
    requires { (entry_head ≤ size) × (length entries.old ≡ n * size) × (by < 2 ^ 32) }
    ensures { entries.new ≡ raised n size by entries.old }
{
    for i in (0..n).rev() {
        let at = i * size;
        let offset = field(entries, at, fields::OFFSET);
        put(&mut entries[at..at + fields::OFFSET], offset + by as u64);
    }
}

// An entry in its room: where its name begins, how long the name is, and the digest.
pub(crate) fn put_entry(room: &mut [u8], at: usize, len: usize, digest: &[u8])
    requires { length room.old ≡ entry_size (length digest.now) }
    ensures { room.new ≡ row_bytes (entry_row at len) ++ digest.now }
{
    put_row(
        room,
        &[fields::OFFSET, fields::OFFSET],
        &[at as u64, len as u64],
    );
    put_front(&mut room[fields::ENTRY_HEAD..], digest);
}

// The header of a list with so many entries, whose names begin at a place.
pub(crate) fn put_header(buffer: &mut [u8], edition: u64, n: usize, names: usize, whole: usize)
    requires { entries_at ≤ length buffer.old }
    ensures { buffer.new ≡ row_bytes (list_row edition n names whole) ++ drop entries_at buffer.old }
{
    put_row(
        buffer,
        &[
            fields::NUMBER,
            fields::NUMBER,
            fields::OFFSET,
            fields::OFFSET,
            fields::OFFSET,
        ],
        &[
            edition,
            n as u64,
            fields::ENTRIES_AT as u64,
            names as u64,
            whole as u64,
        ],
    );
}

// Puts the entry and the name of one more pair in their places, in a list of so many bytes. From the end: the names behind the new one move
// by an entry and the name; then the name; the entries behind the new one and the names between, which lie side by side, move by an entry;
// then the entry.
pub(crate) fn insert_both(
    buffer: &mut [u8],
    entry_at: usize,
    name_at: usize,
    whole: usize,
    name: &[u8],
    digest: &[u8],
)
    requires { (entry_at ≤ name_at) × (name_at ≤ whole)
        × (whole + entry_size (length digest.now) + length name.now ≤ length buffer.old) }
    ensures { buffer.new
        ≡ with_both entry_at
        (row_bytes (entry_row (name_at + entry_size (length digest.now)) (length name.now)) ++ digest.now)
        name_at name.now whole buffer.old }
{
    let size = fields::ENTRY_HEAD + digest.len();
    let more = size + name.len();
    slide(&mut buffer[name_at..whole + more], more);
    put_front(&mut buffer[name_at + size..], name);
    slide(&mut buffer[entry_at..name_at + size], size);
    put_entry(
        &mut buffer[entry_at..entry_at + size],
        name_at + size,
        name.len(),
        digest,
    );
}
