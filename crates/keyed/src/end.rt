// The tag of all that a keyed hash has taken, written or compared: SPEC, "Keyed digests". The keyed hash may go on.
ghost use Rattle.std.specs.Prelude.{◌≡◌};
ghost use Rattle.answers.specs.Judged.{first, Judged};
ghost use Rattle.answers.specs.Numbers.{number_of};
ghost use Rattle.slices.specs.AtFront.{at_front};
ghost use Rattle.keyed.specs.State.{Shaped};
ghost use Rattle.keyed.specs.Steps.{tag_of, tag_tests, check_tests};

use crate::Keyed;
use crate::outer::{Tag, tag_of};
use crate::state::is_sound;
use answers::{Answer, Refusal};
use dwsha2::finish::finish;
use fips::lookup::digest_bytes;
use halfread::tail::tail_length;
use slices::front::put_front;
use slices::same::same;

fn ended(keyed: Keyed) -> Tag
    ensures { result ≡ tag_of keyed }
{
    let edition = keyed.inner.edition;
    let words = keyed.inner.words;
    let count = keyed.inner.count;
    let tail = keyed.inner.tail;
    let outer = keyed.outer;
    let end = tail_length(edition, count);
    let last = finish(edition, words, count, &tail[..end], 0, 0);
    tag_of(edition, outer, last)
}

pub fn tag(keyed: Keyed, out: &mut [u8]) -> Answer
    ensures judged { Judged (tag_tests keyed out.old) out.old (at_front (tag_of keyed) out.old) (number_of result)
        out.new }
    ensures shaped { Shaped keyed }
{
    if !is_sound(keyed) {
        return Err(Refusal::NotSound);
    }
    if out.len() < digest_bytes(keyed.inner.edition) {
        return Err(Refusal::ShortOutput);
    }
    put_front(out, ended(keyed).bytes());
    Ok(())
}

pub fn check(keyed: Keyed, tag: &[u8]) -> Answer
    ensures { number_of result ≡ first (check_tests keyed tag.now) }
{
    if !is_sound(keyed) {
        return Err(Refusal::NotSound);
    }
    if !same(tag, ended(keyed).bytes()) {
        return Err(Refusal::DigestDiffers);
    }
    Ok(())
}
