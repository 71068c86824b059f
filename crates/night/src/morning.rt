// The morning: other words are laid out, the first file is taken up from its record, the others are begun again, and all are closed.
ghost use Rattle.std.specs.Prelude.{true, List, [], ◌≡◌, ℕ, length, take};
ghost use Rattle.answers.specs.Numbers.{number_of};
ghost use Rattle.slices.specs.Below.{Bytes};
ghost use Rattle.bays.specs.Table.{room_for};
ghost use Rattle.calls.specs.Calls.{Call, Lends, Outcome};
ghost use Rattle.ledger.specs.Ends.{record_of_message};
ghost use Rattle.night.specs.Night.{digests, file_digests};
ghost use Rattle.night.specs.Code.Held.{holding, Held, Fitting, Roomy};

use crate::Files;
use crate::evening::laid;
use answers::Answer;
use slices::places::part;

// The half-read file goes on where its record left it.
fn take_up(table: &mut [u64], saved: &[u8]) -> Answer
    ensures outcome { Outcome table.old (Call.loading 0 saved.now) (number_of result) table.new [] }
    ensures lends { Lends table.old (Call.loading 0 saved.now) }
{
    calls::load(table, 0, saved)
}

// What is left of each file, alternately: of the first file what came after the record, of the others all.
fn go_on(table: &mut [u64], files: Files)
    ensures { let f = files.entry in
        Fitting f.edition f.a.now f.b.now f.c.now →
        Held table.old (holding f.edition (take f.cut f.a.now)) (holding f.edition []) (holding f.edition []) →
        Held table.new (holding f.edition f.a.now) (holding f.edition f.b.now) (holding f.edition f.c.now) }
{
    let Files { a, b, c, cut, .. } = files;
    let _ = calls::add(table, 1, part(b, 0, cut));
    let _ = calls::add(table, 0, part(a, cut, a.len()));
    let _ = calls::add(table, 2, part(c, 0, cut));
    let _ = calls::add(table, 1, part(b, cut, b.len()));
    let _ = calls::add(table, 2, part(c, cut, c.len()));
}

// The record is the first `size` bytes of what was saved.
pub(crate) fn morning(anew: &mut [u64], size: usize, saved: &[u8], files: Files)
    ensures { let f = files.entry in
        Bytes f.a.now → room_for 3 (length anew.old) ≡ true → Fitting f.edition f.a.now f.b.now f.c.now →
        take size saved.now ≡ record_of_message f.edition (take f.cut f.a.now) →
        Held anew.new (holding f.edition f.a.now) (holding f.edition f.b.now) (holding f.edition f.c.now) }
{
    laid(anew, files.edition);
    let _ = take_up(anew, part(saved, 0, size));
    go_on(anew, files);
}

pub(crate) fn close_all(table: &mut [u64], first: &mut [u8], second: &mut [u8], third: &mut [u8])
    ensures { (e : ℕ) (a b c : List ℕ) → Held table.old (holding e a) (holding e b) (holding e c) →
        Roomy e (digests first.old second.old third.old) →
        digests first.new second.new third.new
        ≡ file_digests e a b c (digests first.old second.old third.old) }
{
    let _ = calls::close(table, 0, 0, 0, first);
    let _ = calls::close(table, 1, 0, 0, second);
    let _ = calls::close(table, 2, 0, 0, third);
}
