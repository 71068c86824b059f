// A digest, and the thousand turns that lead from one to the next.
ghost use Rattle.std.specs.Prelude.{◌≤◌, length};

use fips::lookup::digest_bytes;

// A digest of an edition: as many bytes, at the front, as its digests have.
#[derive(Clone, Copy, PartialEq)]
pub(crate) struct Digest {
    pub(crate) edition: u64,
    bytes: [u8; 64],
}

impl Digest {
    // What a text in hexadecimal says.
    pub(crate) fn from_hex(edition: u64, text: &[u8]) -> Option<Digest> {
        let mut bytes = [0u8; 64];
        let n = hexlines::unhex_all(text, &mut bytes)?;
        (n == digest_bytes(edition)).then_some(Digest { edition, bytes })
    }

    // What hash at once writes.
    fn of(edition: u64, message: &[u8]) -> Option<Digest> {
        let mut bytes = [0u8; 64];
        dwsha2::hash::hash(edition, message, 0, 0, &mut bytes).ok()?;
        Some(Digest { edition, bytes })
    }

    // Its bytes.
    #[tactic(auto, using(crate::proofs::Sizes::short_digest))]
    fn as_slice(&self) -> &[u8]
        ensures { length result.now ≤ 64 }
    {
        &self.bytes[..digest_bytes(self.edition)]
    }

    // A thousand turns from here. Each hashes the last three digests, one after the other.
    pub(crate) fn run(&self) -> Option<Digest> {
        let n = self.as_slice().len();
        let mut room = [0u8; 192];
        let window = &mut room[..3 * n];
        for _ in 0..3 {
            push(window, self.as_slice());
        }
        let mut last = *self;
        for _ in 0..1000 {
            last = Digest::of(self.edition, window)?;
            push(window, last.as_slice());
        }
        Some(last)
    }
}

// Puts a digest at the end of the window, of which the foremost bytes go.
fn push(window: &mut [u8], digest: &[u8]) {
    let n = digest.len();
    if n <= window.len() {
        let keep = window.len() - n;
        window.copy_within(n.., 0);
        window[keep..].copy_from_slice(digest);
    }
}
