// Adding a piece: SPEC, "Keyed digests". The piece goes to the inner message.
ghost use Rattle.answers.specs.Judged.{handed, Judged};
ghost use Rattle.answers.specs.Numbers.{number_of};
ghost use Rattle.slices.specs.Below.{Bytes};
ghost use Rattle.keyed.specs.State.{Shaped};
ghost use Rattle.keyed.specs.Steps.{add_tests, added};

use crate::Keyed;
use crate::state::keeps_more;
use answers::Refusal;

// Whether the inner message is sound is asked where it takes the piece.
pub fn add(keyed: Keyed, piece: &[u8]) -> Result<Keyed, Refusal>
    ensures judged { Judged (add_tests keyed piece.now) keyed (added keyed piece.now) (number_of result) (handed keyed result) }
    ensures shaped { Shaped keyed × Bytes piece.now }
{
    if !keeps_more(keyed) {
        return Err(Refusal::NotSound);
    }
    let outer = keyed.outer;
    let inner = halfread::add::add(keyed.inner, piece)?;
    Ok(Keyed { inner, outer })
}
