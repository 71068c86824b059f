// Hash at once: SPEC, "Hash at once" and "Calls and their numbers".
ghost use Rattle.answers.specs.Numbers.{number_of};
ghost use Rattle.dwsha2.specs.Hash.{Hashes};

use crate::closing::closing_fits;
use crate::finish::finish;
use crate::hashing::write_digest;
use crate::limit::too_long;
use crate::starting::starting_words;
use answers::{Answer, Refusal};

// The digest of the message and the upper bits of the closing byte, at the front of the output.
pub fn hash(edition: u64, message: &[u8], closing: u8, bits: u64, out: &mut [u8]) -> Answer
    ensures { Hashes edition message.now closing bits out.old (number_of result) out.new }
{
    let size = fips::lookup::digest_bytes(edition);
    if size == 0 {
        return Err(Refusal::NoSuchEdition);
    }
    if too_long(edition, 0, message.len()) {
        return Err(Refusal::TooLong);
    }
    if !closing_fits(closing, bits) {
        return Err(Refusal::BadClosing);
    }
    if out.len() < size {
        return Err(Refusal::ShortOutput);
    }
    let start = starting_words(edition);
    let words = finish(edition, start, message.len() as u64, message, closing, bits);
    write_digest(edition, words, out);
    Ok(())
}
