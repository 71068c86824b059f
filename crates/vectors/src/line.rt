// A line of a file of hashes: `edition bits hexmessage hexdigest`. `-` is the empty message, `a*1000000` a million letters a; of a message
// whose length is no multiple of eight, the last bits are the upper ones of its last byte.
use slices::places::part;
use slices::same::same;

// What a line says of its message: in which edition, how many bits it has, and what its digest is.
#[derive(Clone, Copy)]
struct Claim<'a> {
    edition: u64,
    bits: u64,
    digest: &'a [u8],
}

impl Claim<'_> {
    // Whether hash at once writes that digest of the bytes and so many closing bits.
    fn holds(&self, bytes: &[u8], closing: u8, over: u64) -> bool {
        let mut out = [0u8; 64];
        let answer = dwsha2::hash::hash(self.edition, bytes, closing, over, &mut out);
        let n = fips::lookup::digest_bytes(self.edition);
        answer.is_ok() && same(part(&out, 0, n), self.digest)
    }

    // The same of a message, which has as many bytes as its bits need.
    fn holds_of(&self, message: &[u8]) -> bool {
        let Some((bytes, rest)) = message.split_at_checked((self.bits / 8) as usize) else {
            return false;
        };
        let over = self.bits % 8;
        match rest {
            [] => over == 0 && self.holds(bytes, 0, 0),
            [last] => over != 0 && self.holds(bytes, *last, over),
            _ => false,
        }
    }

    // The same of a message in hexadecimal, of up to 16,384 bytes.
    fn holds_of_hex(&self, text: &[u8]) -> bool {
        let mut message = [0u8; 16384];
        match hexlines::unhex_all(text, &mut message) {
            Some(n) => self.holds_of(part(&message, 0, n)),
            None => false,
        }
    }

    // A function of its own, so that no goal has the array's million bytes.
    fn holds_of_array(&self, message: &[u8; 1000000]) -> bool {
        self.holds_of(message)
    }

    // The same of a million letters a.
    fn holds_of_million(&self) -> bool {
        let message = [b'a'; 1000000];
        self.holds_of_array(&message)
    }

    // The same of a message as the line has it.
    fn holds_of_text(&self, text: &[u8]) -> bool {
        match text {
            b"-" => self.holds_of(b""),
            // the letters are made for a line that claims as many bits alone
            b"a*1000000" => self.bits == 8_000_000 && self.holds_of_million(),
            _ => self.holds_of_hex(text),
        }
    }
}

// Whether a line holds: its digest is what hash at once writes. None where it reads as no such line does.
pub(crate) fn holds(line: &[u8]) -> Option<bool> {
    let edition = hexlines::decimal(hexlines::first_field(line))?;
    let after = hexlines::other_fields(line);
    let bits = hexlines::decimal(hexlines::first_field(after))?;
    let texts = hexlines::other_fields(after);
    let mut room = [0u8; 64];
    let n = hexlines::unhex_all(hexlines::other_fields(texts), &mut room)?;
    let claim = Claim {
        edition,
        bits,
        digest: part(&room, 0, n),
    };
    Some(claim.holds_of_text(hexlines::first_field(texts)))
}
