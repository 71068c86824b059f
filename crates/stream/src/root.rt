// The root of all that a stream has taken: SPEC, "Tree over a stream".
ghost use Rattle.std.specs.Prelude.{true, ◌≡◌};
ghost use Rattle.answers.specs.Judged.{Judged};
ghost use Rattle.answers.specs.Numbers.{number_of};
ghost use Rattle.slices.specs.AtFront.{at_front};
ghost use Rattle.stream.specs.State.{sound, Shaped};
ghost use Rattle.stream.specs.Steps.{root_tests, stream_root};

use crate::roots::{fold, held};
use crate::state::is_sound;
use crate::{NODE, Stream};
use answers::{Answer, Refusal};
use slices::front::put_front;
use tree::node::{leaf, nothing};

// The bytes after the finished chunks are a last chunk, where there are any; where there are none, the last root is the last node.
#[tactic(auto, using(crate::proofs::Soundness::further_within))]
fn root_of(stream: Stream) -> [u8; NODE]
    requires { sound stream ≡ true }
    ensures { result ≡ stream_root stream }
{
    let (nodes, _) = stream.roots.as_chunks::<NODE>();
    let roots = &nodes[..held(stream.chunks)];
    let end = stream.further as usize;
    if 0 < end {
        return fold(roots, leaf(&stream.bytes[..end]));
    }
    match roots.split_last() {
        Some((last, before)) => fold(before, *last),
        None => nothing(),
    }
}

// The root at the front of the output. The stream may go on.
pub fn root(stream: Stream, out: &mut [u8]) -> Answer
    ensures judged { Judged (root_tests stream out.old) out.old (at_front (stream_root stream) out.old) (number_of result)
        out.new }
    ensures shaped { Shaped stream }
{
    if !is_sound(stream) {
        return Err(Refusal::NotSound);
    }
    if out.len() < NODE {
        return Err(Refusal::ShortOutput);
    }
    let node = root_of(stream);
    put_front(out, &node);
    Ok(())
}
