// A file through the first bay of a table: begun, its pieces taken one after the other, and judged at its end, SPEC, "The program".
// The caller's table has room for one bay; each contract says what is left of it.
ghost use Rattle.std.specs.Prelude.{◌≡◌, ◌≤◌, length, take};
ghost use Rattle.slices.specs.Below.{Bytes};
ghost use Rattle.lists.specs.Calls.{pair_in};
ghost use Rattle.lists.specs.Layout.{edition_in};
ghost use Rattle.report.specs.Reads.{piece, brought};
ghost use Rattle.report.specs.Code.Files.{begun, after_piece, fits, turn_of, after_turn, judged, after_close, ends_as, left_by};

use crate::{Brought, Ending, reads};
use lines::Verdict;
use lists::entries;

// The bay is laid out anew, so that nothing of the last file is left.
pub fn begin(table: &mut [u64], list: &[u8])
    ensures { table.new ≡ begun table.old (edition_in list.now) }
{
    let _ = calls::lay_out(table, 1);
    let _ = calls::open(table, 0, entries::edition(list));
}

// Whether the piece was taken: one that makes the file longer than the limit is not.
fn take(table: &mut [u64], piece: &[u8]) -> bool
    ensures value { result ≡ fits table.old piece.now }
    ensures table_after { table.new ≡ after_piece table.old piece.now }
{
    calls::add(table, 0, piece).is_ok()
}

// How many bytes the piece has that a read answered: none where it failed, and never more than the buffer.
fn count(got: isize, buffer: &[u8]) -> usize
    ensures within { result ≤ length buffer.now }
    ensures value { take result buffer.now ≡ piece got buffer.now }
{
    usize::try_from(got).map_or(0, |n| n.min(buffer.len()))
}

// What a read into a buffer answered is seen to: its bytes are taken, or reading ends, and how. The caller is told that they are bytes.
#[tactic(auto, unfolding(crate::specs::Code::Files::turn_of, crate::specs::Code::Files::after_turn))]
pub fn turn(table: &mut [u64], buffer: &[u8], got: isize, errno: i32) -> Option<Ending>
    ensures value { result ≡ turn_of table.old (piece got buffer.now) (brought got errno) }
    ensures table_after { table.new ≡ after_turn table.old (piece got buffer.now) (brought got errno) }
    ensures bytes { Bytes (piece got buffer.now) }
{
    match reads::brought(got, errno) {
        Brought::Bytes => {
            let n = count(got, buffer);
            if take(table, &buffer[..n]) {
                None
            } else {
                Some(Ending::TooLong)
            }
        }
        Brought::End => Some(Ending::Whole),
        Brought::Again => None,
        Brought::Nothing(why) => Some(Ending::Unread(why)),
    }
}

// Closes the bay, and compares the digest with the one of that number in the list.
fn judge(table: &mut [u64], list: &[u8], i: usize) -> Verdict
    ensures value { result ≡ judged table.old (edition_in list.now) (pair_in i list.now).digest }
    ensures table_after { table.new ≡ after_close table.old }
{
    let mut out = [0u8; 64];
    if calls::close(table, 0, 0, 0, &mut out).is_err() {
        return Verdict::Bad;
    }
    let size = fips::lookup::digest_bytes(entries::edition(list));
    if slices::same::same(&out[..size], entries::digest(list, i)) {
        return Verdict::Ok;
    }
    Verdict::Bad
}

// The verdict on the file of that number.
#[tactic(auto, unfolding(crate::specs::Code::Files::ends_as, crate::specs::Code::Files::left_by))]
pub fn verdict(ending: Ending, table: &mut [u64], list: &[u8], i: usize) -> Verdict
    ensures value { result ≡ ends_as ending table.old (edition_in list.now) (pair_in i list.now).digest }
    ensures table_after { table.new ≡ left_by ending table.old }
{
    match ending {
        Ending::Whole => judge(table, list, i),
        Ending::TooLong => Verdict::Bad,
        Ending::Unread(why) => Verdict::Missing(why),
    }
}
