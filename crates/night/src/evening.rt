// The evening: three files in three bays, taken alternately, until the first is saved half-read.
ghost use Rattle.std.specs.Prelude.{true, [], ◌≡◌, ◌≤◌, length, take};
ghost use Rattle.fips.specs.Editions.{known};
ghost use Rattle.bays.specs.Table.{room_for};
ghost use Rattle.ledger.specs.Ledger.{nothing};
ghost use Rattle.ledger.specs.Ends.{record_of_message};
ghost use Rattle.night.specs.Night.{record_room};
ghost use Rattle.night.specs.Code.Held.{holding, Held, Fitting};

use crate::Files;
use slices::places::part;

// Three bays, of which the last two are opened; the first waits for what comes into it.
pub(crate) fn laid(table: &mut [u64], edition: u64)
    ensures { room_for 3 (length table.old) ≡ true → known edition ≡ true →
        Held table.new nothing (holding edition []) (holding edition []) }
{
    let _ = calls::lay_out(table, 3);
    let _ = calls::open(table, 1, edition);
    let _ = calls::open(table, 2, edition);
}

// Of each file the first `cut` bytes come, or all where it has no more.
pub(crate) fn evening(table: &mut [u64], files: Files, saved: &mut [u8])
    ensures { let f = files.entry in
        room_for 3 (length table.old) ≡ true → Fitting f.edition f.a.now f.b.now f.c.now →
        record_room f.edition (length (take f.cut f.a.now)) ≤ length saved.old →
        take (record_room f.edition (length (take f.cut f.a.now))) saved.new
        ≡ record_of_message f.edition (take f.cut f.a.now) }
{
    laid(table, files.edition);
    let _ = calls::open(table, 0, files.edition);
    let _ = calls::add(table, 1, part(files.b, 0, files.cut));
    let _ = calls::add(table, 0, part(files.a, 0, files.cut));
    let _ = calls::add(table, 2, part(files.c, 0, files.cut));
    let _ = calls::save(table, 0, saved);
}
