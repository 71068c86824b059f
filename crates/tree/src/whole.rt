// The tree of a whole map: its leaves in a buffer of nodes, then one level after the other in their place, up to the root.
ghost use Rattle.std.specs.Prelude.{◌≡◌, map as each, ◌+◌, ◌*◌, ◌<◌, ◌≤◌, length, take};
ghost use Rattle.answers.specs.Numbers.{number_of};
ghost use Rattle.tree.specs.Code.Held.{held, node_at, put_node, levelled};
ghost use Rattle.tree.specs.Tree.{tree_limit, Trees};
ghost use Rattle.treerule.specs.Root.{node_bytes, chunk_count, chunks, leaf as leaf_of, top, root as root_of};

use crate::node::{CHUNK, NODE, leaf, nothing, parent};
use answers::{Answer, Refusal};
use slices::front::put_front;

// House: at most 1 MiB.
const LIMIT: usize = 1_048_576;

// The bytes of the leaves of so many.
const ROOM: usize = LIMIT / CHUNK * NODE;

// Nodes are read and put by their place in a slice of bytes: `level` is lent bytes under a C name, and what `as_chunks_mut` or `chunks_mut`
// lend leaves the bytes unsaid.
fn node_at(nodes: &[u8], i: usize) -> [u8; NODE]
    requires { i * node_bytes + node_bytes ≤ length nodes.now }
    ensures { result ≡ node_at i nodes.now }
{
    let start = i * NODE;
    *nodes[start..].first_chunk().unwrap()
}

// The node in its place, and every other byte as it was.
fn put_node(nodes: &mut [u8], i: usize, node: [u8; NODE])
    requires { i * node_bytes + node_bytes ≤ length nodes.old }
    ensures { nodes.new ≡ put_node i node nodes.old }
{
    let start = i * NODE;
    let end = start + NODE;
    nodes[start..end].copy_from_slice(&node);
}

// One level up from all the nodes that the bytes hold, in place: each parent takes the place of a node that is read no more. A lone last
// node is carried up unchanged, and what stands behind the level is left as it was.
pub fn level(nodes: &mut [u8])
    ensures { nodes.new ≡ levelled nodes.old }
{
    let count = nodes.len() / NODE;
    for j in 0..count / 2 {
        let left = node_at(nodes, 2 * j);
        let right = node_at(nodes, 2 * j + 1);
        put_node(nodes, j, parent(left, right));
    }
    if count % 2 == 1 {
        let lone = node_at(nodes, count - 1);
        put_node(nodes, count / 2, lone);
    }
}

// Level after level until one node is left, at the front.
fn rise(nodes: &mut [u8], count: usize)
    requires { (0 < count) × (count * node_bytes ≤ length nodes.old) }
    ensures { take node_bytes nodes.new ≡ top (held count nodes.old) }
{
    let mut left = count;
    // no iterator goes by halves
    while 1 < left {
        let end = left * NODE;
        level(&mut nodes[..end]);
        left = left.div_ceil(2);
    }
}

// The leaves of all chunks, one behind the other.
fn leaves(map: &[u8], nodes: &mut [u8])
    requires { chunk_count (length map.now) * node_bytes ≤ length nodes.old }
    ensures { held (chunk_count (length map.now)) nodes.new ≡ each leaf_of (chunks map.now) }
{
    for (i, chunk) in map.chunks(CHUNK).enumerate() {
        put_node(nodes, i, leaf(chunk));
    }
}

// The root of a map within the limit.
fn root(map: &[u8]) -> [u8; NODE]
    requires { length map.now ≤ tree_limit }
    ensures { result ≡ root_of map.now }
{
    if map.is_empty() {
        return nothing();
    }
    let mut nodes = [0u8; ROOM];
    leaves(map, &mut nodes);
    rise(&mut nodes, map.len().div_ceil(CHUNK));
    node_at(&nodes, 0)
}

// The root of the map's chunk tree at the front of the output.
pub fn tree(map: &[u8], out: &mut [u8]) -> Answer
    ensures { Trees map.now out.old (number_of result) out.new }
{
    if LIMIT < map.len() {
        return Err(Refusal::TooLong);
    }
    if out.len() < NODE {
        return Err(Refusal::ShortOutput);
    }
    let node = root(map);
    put_front(out, &node);
    Ok(())
}
