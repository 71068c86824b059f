// The edition lookup: SPEC, "Editions". What a number names, and what every crate above asks of it.
// A number that names no edition has the width 64 and a digest of no bytes.
ghost use Rattle.std.specs.Prelude.{◌≡◌};
ghost use Rattle.fips.specs.Words.{block_bytes};
ghost use Rattle.fips.specs.Editions.{known, width, digest_bytes};
ghost use Rattle.fips.specs.Sizes.{sizes_number, sizes_told, Sized, is_narrow, width_of};

// An edition's sizes: the bits of a word, the bytes of a block and of a digest.
#[derive(Clone, Copy, Debug, PartialEq, Eq)]
pub struct EditionSizes {
    pub word: u64,
    pub block: u64,
    pub digest: u64,
}

// SPEC, "Editions"; there are none where no edition has the number: 5.
pub fn sizes(edition: u64) -> Option<EditionSizes>
    ensures { Sized edition (sizes_number result) (sizes_told result) }
{
    match edition {
        1 => Some(EditionSizes {
            word: 32,
            block: 64,
            digest: 28,
        }),
        2 => Some(EditionSizes {
            word: 32,
            block: 64,
            digest: 32,
        }),
        3 => Some(EditionSizes {
            word: 64,
            block: 128,
            digest: 48,
        }),
        4 => Some(EditionSizes {
            word: 64,
            block: 128,
            digest: 64,
        }),
        5 => Some(EditionSizes {
            word: 64,
            block: 128,
            digest: 28,
        }),
        6 => Some(EditionSizes {
            word: 64,
            block: 128,
            digest: 32,
        }),
        _ => None,
    }
}

pub fn known(edition: u64) -> bool
    ensures { result ≡ known edition }
{
    sizes(edition).is_some()
}

// Whether the edition's words have 32 bits.
pub fn narrow(edition: u64) -> bool
    ensures { result ≡ is_narrow edition }
{
    match sizes(edition) {
        Some(sizes) => sizes.word == 32,
        None => false,
    }
}

// The bytes of a digest; none where no edition has the number.
pub fn digest_bytes(edition: u64) -> usize
    ensures { result ≡ digest_bytes edition }
{
    match sizes(edition) {
        Some(sizes) => sizes.digest as usize,
        None => 0,
    }
}

// The bytes of a block, by whether words have 32 bits.
pub fn block_size(thin: bool) -> usize
    ensures { result ≡ block_bytes (width_of thin) }
{
    if thin {
        return 64;
    }
    128
}

// The bytes of an edition's block.
pub fn block_bytes(edition: u64) -> usize
    ensures { result ≡ block_bytes (width edition) }
{
    block_size(narrow(edition))
}
