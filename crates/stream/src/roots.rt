// The roots that a stream holds, back to back in a buffer, and what chunks more make of them.
ghost use Rattle.std.specs.Prelude.{◌≡◌, [], ◌∷◌, ◌++◌, suc, ◌+◌, ◌/◌, ◌<◌, ◌≤◌, length};
ghost use Rattle.std.specs.Int.Count.{ones};
ghost use Rattle.treerule.specs.Root.{chunk_bytes};
ghost use Rattle.streamrule.specs.Held.{folded, ones_at_end, pushed, grown};
ghost use Rattle.stream.specs.State.{most_chunks, root_room, roots_in};
ghost use Rattle.stream.specs.Steps.{finished};

use crate::{CHUNK, NODE};
use slices::front::put_front;
use tree::node::{leaf, parent};

// How many roots so many chunks have: one for each one in their number.
pub(crate) fn held(chunks: u64) -> usize
    ensures { result ≡ ones chunks }
{
    u64::count_ones(chunks) as usize
}

// How many of them the next chunk is joined with: the zeros at the end of the next number are the ones at the end of this.
fn joins(chunks: u64) -> usize
    requires { chunks < most_chunks }
    ensures { result ≡ ones_at_end chunks }
{
    u64::trailing_zeros(chunks + 1) as usize
}

// The node above the roots and a node behind them: the last two have a parent, and so on to the first.
pub(crate) fn fold(roots: &[[u8; NODE]], last: [u8; NODE]) -> [u8; NODE]
    ensures { result ≡ folded (roots.now ++ (last ∷ [])) }
{
    let mut node = last;
    for root in roots.iter().rev() {
        let above = parent(*root, node);
        node = above;
    }
    node
}

// A leaf more: the last roots and it become one, in the place of the first of them.
fn push(roots: &mut [u8], chunks: u64, leaf: [u8; NODE])
    requires { (chunks < most_chunks) × (length roots.old ≡ root_room) }
    ensures { roots_in (suc chunks) roots.new ≡ pushed chunks (roots_in chunks roots.old) leaf }
{
    let to = held(chunks);
    let from = to - joins(chunks);
    let (nodes, _) = roots.as_chunks::<NODE>();
    let node = fold(&nodes[from..to], leaf);
    let at = from * NODE;
    put_front(&mut roots[at..], &node);
}

// The leaves of the finished chunks of the bytes, one after the other.
pub(crate) fn grow(roots: &mut [u8], chunks: u64, bytes: &[u8])
    requires { (chunks + length bytes.now / chunk_bytes ≤ most_chunks) × (length roots.old ≡ root_room) }
    ensures { roots_in (chunks + length bytes.now / chunk_bytes) roots.new
        ≡ grown chunks (roots_in chunks roots.old) (finished bytes.now) }
{
    for (i, chunk) in bytes.chunks_exact(CHUNK).enumerate() {
        push(roots, chunks + i as u64, leaf(chunk));
    }
}
