// One text behind another in an output, which is cut where the output ends.
ghost use Rattle.lines.specs.Code.Putting.{Put};

use slices::front::put_front;

// Puts the text at a place, and answers the place behind it.
pub fn append(out: &mut [u8], at: usize, text: &[u8]) -> usize
    ensures { Put at text.now out.old result out.new }
{
    let start = at.min(out.len());
    let end = start + text.len().min(out.len() - start);
    put_front(&mut out[start..], text);
    end
}
