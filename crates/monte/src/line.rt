// A line of NIST's Monte Carlo test: `edition count seed hexdigest`, `-` where the seed is the digest of the line before.
use crate::digest::Digest;

// The seed that a text names, after the digest that the line before reached.
fn seed(edition: u64, text: &[u8], before: Option<Digest>) -> Option<Digest> {
    match text {
        b"-" => before.filter(|digest| digest.edition == edition),
        _ => Digest::from_hex(edition, text),
    }
}

// The digest that a line reaches, after the one that the line before reached, and whether it is the one expected. None where it reaches
// none.
pub(crate) fn judged(line: &[u8], before: Option<Digest>) -> Option<(Digest, bool)> {
    let edition = hexlines::decimal(hexlines::first_field(line))?;
    let texts = hexlines::other_fields(hexlines::other_fields(line));
    let reached = seed(edition, hexlines::first_field(texts), before)?.run()?;
    let expected = Digest::from_hex(edition, hexlines::other_fields(texts));
    Some((reached, expected == Some(reached)))
}
