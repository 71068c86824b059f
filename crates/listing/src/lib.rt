// What the list maker says: SPEC, "The list maker". Names that come one behind the other, whether a list may have them, what a call that
// puts a pair answered, and the lines about it. Nothing here opens, reads or writes a file.
#![tactic(auto)]

pub mod names; // names.rt: names that come one behind the other, each ended by a zero byte
pub mod shown; // shown.rt: a name as text in which nothing can be taken for something else
pub mod says; // says.rt: the lines

ghost use Rattle.std.specs.Prelude.{◌≡◌};
ghost use Rattle.answers.specs.Numbers.{number_of};
ghost use Rattle.listing.specs.Rules.{judged, answered};

use answers::{Answer, Refusal};
use lines::Why;

// Why a name is not listed.
#[derive(Clone, Copy, Debug, PartialEq, Eq)]
pub enum Reason {
    // 15: it has no bytes
    Empty,
    // 15: it has more than 64
    Long,
    // 15: it has a byte that a name may not have
    Byte,
    // 16: it was there before
    Twice,
    // 17: there are 256 before it
    Full,
    // no zero byte ends it
    Unended,
    // its file has more bytes than the limit
    TooLong,
    // its file could not be opened, or not be read to its end
    Unread(Why),
    // any other number that a call answers: none is answered here
    Unfit,
}

// A name before which so many came: by the rules 15 and 17, in this order, before its file is opened.
pub fn judge(name: &[u8], before: usize) -> Result<(), Reason>
    ensures { result ≡ judged name.now before }
{
    if name.is_empty() {
        return Err(Reason::Empty);
    }
    if lists::names::LONGEST < name.len() {
        return Err(Reason::Long);
    }
    if !lists::names::allowed(name) {
        return Err(Reason::Byte);
    }
    if lists::MOST_ENTRIES <= before {
        return Err(Reason::Full);
    }
    Ok(())
}

// What the answer of a put says of a name that was judged.
pub fn answered(answer: Answer) -> Result<(), Reason>
    ensures { result ≡ answered (number_of answer) }
{
    match answer {
        Ok(()) => Ok(()),
        Err(refusal) => match refusal {
            Refusal::NameTaken => Err(Reason::Twice),
            Refusal::ListFull => Err(Reason::Full),
            _ => Err(Reason::Unfit),
        },
    }
}
