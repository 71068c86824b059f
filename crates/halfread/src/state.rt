// The state of a message of which nothing is taken, and that of an empty bay.
ghost use Rattle.std.specs.Prelude.{◌≡◌};
ghost use Rattle.halfread.specs.State.{blank};
ghost use Rattle.halfread.specs.Steps.{opened};

use crate::{HalfRead, TAIL};

// Nothing is taken, and the words are the edition's starting words.
pub fn open(edition: u64) -> HalfRead
    ensures { result ≡ opened edition }
{
    let words = dwsha2::starting::starting_words(edition);
    HalfRead {
        edition,
        count: 0,
        words,
        tail: [0; TAIL],
    }
}

// All zeros: what an empty bay holds.
pub fn blank() -> HalfRead
    ensures { result ≡ blank }
{
    HalfRead {
        edition: 0,
        count: 0,
        words: [0; 8],
        tail: [0; TAIL],
    }
}
