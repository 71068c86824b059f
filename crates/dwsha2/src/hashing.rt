// What the layers above build on, for every edition's number, at words of 64 bits: absorbing whole blocks, and the digest.
// Words are converted once a call.
ghost use Rattle.std.specs.Prelude.{◌≡◌};
ghost use Rattle.fips.specs.Words.{w32};
ghost use Rattle.slices.specs.AtFront.{at_front};
ghost use Rattle.dwsha2.specs.Code.Hashing.{fit, absorbed, digest_from};

#[tactic(auto, unfolding(crate::specs::Code::Hashing::fit))]
fn narrowed(words: [u64; 8]) -> [u32; 8]
    ensures { result ≡ fit w32 words }
{
    words.map(|word| (word % 0x1_0000_0000) as u32)
}

fn widened(words: [u32; 8]) -> [u64; 8]
    ensures { result ≡ words }
{
    words.map(u64::from)
}

// The chaining words after every whole block of the bytes, which are read where they lie.
pub fn absorb(edition: u64, words: [u64; 8], bytes: &[u8]) -> [u64; 8]
    ensures { result ≡ absorbed edition words bytes.now }
{
    if fips::lookup::narrow(edition) {
        widened(block::absorb32(narrowed(words), bytes))
    } else {
        block::absorb64(words, bytes)
    }
}

// The digest at the front of an output, as much of it as there is room for.
pub fn write_digest(edition: u64, words: [u64; 8], out: &mut [u8])
    ensures { out.new ≡ at_front (digest_from edition words) out.old }
{
    let mut bytes = [0u8; 64];
    bigendian::put_words(&mut bytes, &words, fips::lookup::block_bytes(edition) / 16);
    let n = fips::lookup::digest_bytes(edition);
    slices::front::put_front(out, &bytes[..n]);
}
