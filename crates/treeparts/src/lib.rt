// The parts of a chunk tree under C names, for tests/tree: published trees have leaves that are no chunks, which no call takes. They are in
// no header. Each writes at the front of what it is lent, and leaves what stands behind.
#![tactic(auto)]

ghost use Rattle.std.specs.Prelude.{◌≡◌, take};
ghost use Rattle.slices.specs.AtFront.{at_front};
ghost use Rattle.tree.specs.Code.Held.{levelled};
ghost use Rattle.treerule.specs.Root.{chunk_bytes, leaf, parent};

use slices::front::put_front;

// The leaf of the first chunk of the bytes.
#[unsafe(no_mangle)]
pub extern "C" fn part_leaf(bytes: &[u8], out: &mut [u8])
    ensures { out.new ≡ at_front (leaf (take chunk_bytes bytes.now)) out.old }
{
    put_front(out, &tree::node::leaf(bytes));
}

#[unsafe(no_mangle)]
pub extern "C" fn part_parent(left: &[u8; 32], right: &[u8; 32], out: &mut [u8])
    ensures { out.new ≡ at_front (parent left.now right.now) out.old }
{
    put_front(out, &tree::node::parent(*left, *right));
}

// The level above all nodes that the bytes hold.
#[unsafe(no_mangle)]
pub extern "C" fn part_level(nodes: &mut [u8])
    ensures { nodes.new ≡ levelled nodes.old }
{
    tree::whole::level(nodes);
}
