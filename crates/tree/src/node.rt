// The nodes of a chunk tree: leaves over chunks, parents over two nodes. A node is a hash of one edition.
ghost use Rattle.std.specs.Prelude.{false, ◌≡◌, [], length, take};
ghost use Rattle.dwsha2.specs.Limit.{too_long};
ghost use Rattle.treerule.specs.Root.{node_edition, sha256, chunk_bytes, leaf as leaf_of, parent as parent_of};

use slices::front::put_front;
use slices::places::least;

// The edition of the hashes, the bytes of a node and those of a chunk.
const EDITION: u64 = 2;

pub const NODE: usize = 32;

pub const CHUNK: usize = 1024;

// What a leaf's message begins with, so that it is never a parent's.
const LEAF: u8 = 0;

// And a parent's.
const PARENT: u8 = 1;

// Where the right node stands in a parent's message.
const RIGHT: usize = 1 + NODE;

fn hash(message: &[u8]) -> [u8; NODE]
    requires { too_long node_edition 0 (length message.now) ≡ false }
    ensures { result ≡ sha256 message.now }
{
    let mut digest = [0u8; NODE];
    // the edition is known, the message short enough and the room as long as a digest, so nothing is refused
    dwsha2::hash::hash(EDITION, message, 0, 0, &mut digest).unwrap();
    digest
}

// What stands for the root where there is no chunk: the hash of no bytes.
pub fn nothing() -> [u8; NODE]
    ensures { result ≡ sha256 [] }
{
    let none = [0u8; 1];
    hash(&none[0..0])
}

// The leaf of the first chunk of the bytes.
pub fn leaf(bytes: &[u8]) -> [u8; NODE]
    ensures { result ≡ leaf_of (take chunk_bytes bytes.now) }
{
    let mut message = [0u8; 1 + CHUNK];
    message[0] = LEAF;
    put_front(&mut message[1..], bytes);
    let end = 1 + least(bytes.len(), CHUNK);
    hash(&message[..end])
}

pub fn parent(left: [u8; NODE], right: [u8; NODE]) -> [u8; NODE]
    ensures { result ≡ parent_of left right }
{
    let mut message = [0u8; 1 + 2 * NODE];
    message[0] = PARENT;
    put_front(&mut message[1..], &left);
    put_front(&mut message[RIGHT..], &right);
    hash(&message)
}
