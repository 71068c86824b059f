// The tag of a whole message, made or compared: SPEC, "Keyed digests". The message is read where it lies.
ghost use Rattle.std.specs.Prelude.{◌≡◌, false, length};
ghost use Rattle.answers.specs.Judged.{first};
ghost use Rattle.answers.specs.Numbers.{number_of};
ghost use Rattle.hmac.specs.Hmac.{B, hmac};
ghost use Rattle.dwsha2.specs.Limit.{too_long};
ghost use Rattle.keyed.specs.AtOnce.{length_tests, check_at_once_tests, Tags};

use crate::outer::{Tag, tag_of};
use crate::pads::{INNER, OUTER, block_key, words_after};
use answers::{Answer, Refusal};
use dwsha2::finish::finish;
use dwsha2::limit::too_long;
use fips::lookup::{block_bytes, digest_bytes, known};
use slices::front::put_front;
use slices::same::same;

// What both calls ask first: the edition, and the lengths of the key and of what the inner hash takes, a block and the message.
fn gate(edition: u64, key: usize, message: usize) -> Answer
    ensures { number_of result ≡ first (length_tests edition key message) }
{
    if !known(edition) {
        return Err(Refusal::NoSuchEdition);
    }
    if too_long(edition, 0, key) {
        return Err(Refusal::TooLong);
    }
    if too_long(edition, block_bytes(edition) as u64, message) {
        return Err(Refusal::TooLong);
    }
    Ok(())
}

fn made(edition: u64, key: &[u8], message: &[u8]) -> Tag
    requires { too_long edition (B edition) (length message.now) ≡ false }
    ensures { result ≡ hmac edition key.now message.now }
{
    let block = block_key(edition, key);
    let inner = words_after(edition, block, INNER);
    let outer = words_after(edition, block, OUTER);
    let count = block_bytes(edition) as u64 + message.len() as u64;
    let last = finish(edition, inner, count, message, 0, 0);
    tag_of(edition, outer, last)
}

pub fn tag(edition: u64, key: &[u8], message: &[u8], out: &mut [u8]) -> Answer
    ensures { Tags edition key.now message.now out.old (number_of result) out.new }
{
    gate(edition, key.len(), message.len())?;
    if out.len() < digest_bytes(edition) {
        return Err(Refusal::ShortOutput);
    }
    put_front(out, made(edition, key, message).bytes());
    Ok(())
}

pub fn check(edition: u64, key: &[u8], message: &[u8], tag: &[u8]) -> Answer
    ensures { number_of result ≡ first (check_at_once_tests edition key.now message.now tag.now) }
{
    gate(edition, key.len(), message.len())?;
    if !same(tag, made(edition, key, message).bytes()) {
        return Err(Refusal::DigestDiffers);
    }
    Ok(())
}
