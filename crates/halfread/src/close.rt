// Closing: the digest of all that was taken and of the closing bits. SPEC, "Calls and their numbers".
ghost use Rattle.answers.specs.Judged.{Judged};
ghost use Rattle.answers.specs.Numbers.{number_of};
ghost use Rattle.slices.specs.AtFront.{at_front};
ghost use Rattle.halfread.specs.Steps.{close_tests, closed_digest};

use crate::HalfRead;
use crate::sound::is_sound;
use crate::tail::tail_length;
use answers::{Answer, Refusal};

pub fn close(half: HalfRead, closing: u8, bits: u64, out: &mut [u8]) -> Answer
    ensures { Judged (close_tests half closing bits out.old) out.old
        (at_front (closed_digest half closing bits) out.old) (number_of result) out.new }
{
    if !is_sound(half) {
        return Err(Refusal::NotSound);
    }
    if !dwsha2::closing::closing_fits(closing, bits) {
        return Err(Refusal::BadClosing);
    }
    let edition = half.edition;
    if out.len() < fips::lookup::digest_bytes(edition) {
        return Err(Refusal::ShortOutput);
    }
    let end = tail_length(edition, half.count);
    let last = dwsha2::finish::finish(
        edition,
        half.words,
        half.count,
        &half.tail[..end],
        closing,
        bits,
    );
    dwsha2::hashing::write_digest(edition, last, out);
    Ok(())
}
