// How a tail lies: the bytes after the last whole block, with zeros behind them.
ghost use Rattle.std.specs.Prelude.{◌≡◌, ◌%◌};
ghost use Rattle.fips.specs.Words.{block_bytes};
ghost use Rattle.fips.specs.Editions.{width};
ghost use Rattle.halfread.specs.State.{padded};

use crate::TAIL;

// How many bytes of the tail are taken once so many bytes have come.
pub fn tail_length(edition: u64, count: u64) -> usize
    ensures { result ≡ count % block_bytes (width edition) }
{
    let size = fips::lookup::block_bytes(edition) as u64;
    (count % size) as usize
}

// A tail: the bytes, as many as there is room for, and zeros behind them.
pub fn padded(bytes: &[u8]) -> [u8; TAIL]
    ensures { result ≡ padded bytes.now }
{
    slices::front::padded(bytes)
}
