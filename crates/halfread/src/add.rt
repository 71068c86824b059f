// Adding a piece: SPEC, "Calls and their numbers". The blocks of a piece are taken where they lie.
ghost use Rattle.std.specs.Prelude.{true, false, ◌≡◌, length};
ghost use Rattle.answers.specs.Judged.{handed, Judged};
ghost use Rattle.answers.specs.Numbers.{number_of};
ghost use Rattle.dwsha2.specs.Limit.{too_long};
ghost use Rattle.halfread.specs.State.{sound};
ghost use Rattle.halfread.specs.Steps.{add_tests, added};

use crate::HalfRead;
use crate::sound::is_sound;
use crate::tail::{padded, tail_length};
use answers::Refusal;
use dwsha2::hashing::absorb;
use dwsha2::limit::too_long;
use fips::lookup::block_bytes;
use slices::front::put_front;

// The begun block is filled from the front of the piece; what is left of the piece is absorbed where it lies, and its rest is the new tail.
fn with_piece(half: HalfRead, piece: &[u8]) -> HalfRead
    requires { (sound half ≡ true) × (too_long half.edition half.count (length piece.now) ≡ false) }
    ensures { result ≡ added half piece.now }
{
    let edition = half.edition;
    let count = half.count + piece.len() as u64;
    let size = block_bytes(edition);
    let from = tail_length(edition, half.count);
    // what the begun block lacks: nothing where none is begun
    let lead = (size - from) % size;
    let mut tail = half.tail;
    put_front(&mut tail[from..], piece);
    if piece.len() < lead {
        return HalfRead {
            count,
            tail,
            ..half
        };
    }
    let end = from + lead;
    let filled = absorb(edition, half.words, &tail[..end]);
    let rest = &piece[lead..];
    let whole = slices::places::rest_at(rest.len(), size);
    HalfRead {
        edition,
        count,
        words: absorb(edition, filled, rest),
        tail: padded(&rest[whole..]),
    }
}

pub fn add(half: HalfRead, piece: &[u8]) -> Result<HalfRead, Refusal>
    ensures { Judged (add_tests half piece.now) half (added half piece.now) (number_of result) (handed half result) }
{
    if !is_sound(half) {
        return Err(Refusal::NotSound);
    }
    if too_long(half.edition, half.count, piece.len()) {
        return Err(Refusal::TooLong);
    }
    Ok(with_piece(half, piece))
}
