// A name as text in which nothing can be taken for something else: a backslash, and each byte that a name of a list may not have, is shown
// as \x and two hexadecimal digits.
ghost use Rattle.std.specs.Prelude.{◌≡◌, ◌<◌};
ghost use Rattle.lines.specs.Code.Putting.{Put};
ghost use Rattle.listing.specs.Shown.{plain, hex_digit, shown_byte, shown};

use lines::text::append;

// Whether the byte shows itself.
fn is_plain(b: u8) -> bool
    ensures { result ≡ plain b }
{
    b.is_ascii_graphic() && b != b'\\'
}

fn hex_digit(n: u8) -> u8
    requires { n < 16 }
    ensures { result ≡ hex_digit n }
{
    if n < 10 { b'0' + n } else { b'a' + (n - 10) }
}

fn put_byte(b: u8, out: &mut [u8], at: usize) -> usize
    ensures { Put at (shown_byte b) out.old result out.new }
{
    if is_plain(b) {
        return append(out, at, &[b]);
    }
    append(
        out,
        at,
        &[b'\\', b'x', hex_digit(b / 16), hex_digit(b % 16)],
    )
}

// Puts it at a place, and answers the place behind it.
pub fn put_shown(name: &[u8], out: &mut [u8], at: usize) -> usize
    ensures { Put at (shown name.now) out.old result out.new }
{
    let mut end = at.min(out.len());
    for b in name {
        end = put_byte(*b, out, end);
    }
    end
}
