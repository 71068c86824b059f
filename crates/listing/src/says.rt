// The lines of the list maker: that a list is made, and why a name is not listed. Each is put at the front of an output, and its length is
// answered; in `ROOM` bytes each is whole (`made-whole`, `refusal-whole`).
ghost use Rattle.std.specs.Prelude.{◌≡◌};
ghost use Rattle.fips.specs.Constants.{ascii};
ghost use Rattle.lines.specs.Code.Putting.{Put};
ghost use Rattle.listing.specs.Says.{title, reason_words, made_line, refusal_line};

use crate::Reason;
use crate::shown::put_shown;
use lines::count;
use lines::text::append;
use slices::places::part;

// The bytes in which every line is whole.
pub const ROOM: usize = 1152;

// No file's name is longer; of a longer one so many bytes are shown.
const MOST_SHOWN: usize = 255;

// The edition's name, and the line's end.
fn title(edition: u64) -> &'static [u8]
    ensures { result.now ≡ ascii (title edition) }
{
    match edition {
        1 => b"SHA-224\n",
        2 => b"SHA-256\n",
        3 => b"SHA-384\n",
        4 => b"SHA-512\n",
        5 => b"SHA-512/224\n",
        6 => b"SHA-512/256\n",
        _ => b"no edition\n",
    }
}

// A list of so many bytes with so many names.
pub fn made(bytes: u64, listed: u64, edition: u64, out: &mut [u8]) -> usize
    ensures { Put 0 (made_line bytes listed edition) out.old result out.new }
{
    let at = append(out, 0, b"yard.man: ");
    let size = count(out, at, bytes, b" bytes, ");
    let names = count(out, size, listed, b" listed, ");
    append(out, names, title(edition))
}

impl Reason {
    // What stands behind the name, and the line's end.
    fn words(self) -> &'static [u8]
        ensures { result.now ≡ ascii (reason_words self) }
    {
        match self {
            Reason::Empty => b": an empty name (rule 15)\n",
            Reason::Long => b": a name of more than 64 bytes (rule 15)\n",
            Reason::Byte => b": a name has only bytes 21 to 7e, no blank (rule 15)\n",
            Reason::Twice => b": named twice (rule 16)\n",
            Reason::Full => b": a 257th file; a list has at most 256 (rule 17)\n",
            Reason::Unended => b": a name without a zero byte behind it\n",
            Reason::TooLong => b": over 2^40 bytes, which every check calls BAD\n",
            Reason::Unread(why) => why.words(),
            Reason::Unfit => b": it cannot be put in the list\n",
        }
    }
}

// Why a name is not listed.
pub fn refusal(name: &[u8], reason: Reason, out: &mut [u8]) -> usize
    ensures { Put 0 (refusal_line reason name.now) out.old result out.new }
{
    let at = put_shown(part(name, 0, MOST_SHOWN), out, 0);
    append(out, at, reason.words())
}
