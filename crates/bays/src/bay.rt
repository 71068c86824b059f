// The words of a bay: unpacked to a half-read message, and packed again. SPEC, "The table of bays".
ghost use Rattle.std.specs.Prelude.{◌≡◌, length};
ghost use Rattle.bays.specs.Places.{bay_words};
ghost use Rattle.bays.specs.Bay.{half_of, bay_of};

use halfread::HalfRead;
use slices::front::put_front;

// Where they stand: the edition, the bytes taken, the chaining words, and the tail, whose words go to the bay's end.
const EDITION: usize = 0;

const COUNT: usize = 1;

const CHAIN: usize = 2;

const TAIL: usize = CHAIN + 8;

pub(crate) const WORDS: usize = TAIL + halfread::TAIL / 8;

// The chaining words are copied, and the words of the tail are made bytes.
pub(crate) fn unpack(bay: &[u64; WORDS]) -> HalfRead
    ensures { result ≡ half_of bay.now }
{
    let mut words = [0u64; 8];
    put_front(&mut words, &bay[CHAIN..TAIL]);
    let mut tail = [0u8; halfread::TAIL];
    bigendian::put_words(&mut tail, &bay[TAIL..], 8);
    HalfRead {
        edition: bay[EDITION],
        count: bay[COUNT],
        words,
        tail,
    }
}

// A slice, since what is written behind the array that a slice lends as `first_chunk_mut` is not known to the one who asked for it.
pub(crate) fn pack(bay: &mut [u64], half: HalfRead)
    requires { length bay.old ≡ bay_words }
    ensures { bay.new ≡ bay_of half }
{
    // field by field: lent out of `half`, they would have all of it copied first
    let HalfRead {
        edition,
        count,
        words,
        tail,
    } = half;
    bay[EDITION] = edition;
    bay[COUNT] = count;
    put_front(&mut bay[CHAIN..TAIL], &words);
    bigendian::get_words(&mut bay[TAIL..], &tail, 8);
}
