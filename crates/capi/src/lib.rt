// Dwombarine's calls as C makes them: SPEC, "C names". Each function is the call of the same name: it answers that call's number, and
// leaves in all that is lent to it what that call leaves. Crate capi_c exports these under the same names, for include/dwombarine.h.
#![tactic(auto)]

ghost use Rattle.std.specs.Prelude.{[], ◌≡◌};
ghost use Rattle.answers.specs.Judged.{first};
ghost use Rattle.calls.specs.Calls.{Call, told, Lends, Outcome, Asks};
ghost use Rattle.keyed.specs.AtOnce.{Tags, check_at_once_tests};
ghost use Rattle.keyedwords.specs.Calls as keyedwords;
ghost use Rattle.lists.specs.Calls.{spot, Finds, judge_tests};
ghost use Rattle.dwsha2.specs.Hash.{Hashes};
ghost use Rattle.streamwords.specs.Calls.{Begins, LendsPiece, Adds, Roots};
ghost use Rattle.tree.specs.Tree.{Trees};
ghost use Rattle.writer.specs.Writing;

pub fn dw_hash(edition: u64, message: &[u8], closing: u8, bits: u64, out: &mut [u8]) -> u64
    ensures { Hashes edition message.now closing bits out.old result out.new }
{
    answers::number(dwsha2::hash::hash(edition, message, closing, bits, out))
}

pub fn dw_lay_out(table: &mut [u64], bays: u64) -> u64
    ensures outcome { Outcome table.old (Call.lay_out bays) result table.new [] }
    ensures lends { Lends table.old (Call.lay_out bays) }
{
    answers::number(calls::lay_out(table, bays))
}

pub fn dw_open(table: &mut [u64], bay: u64, edition: u64) -> u64
    ensures outcome { Outcome table.old (Call.opening bay edition) result table.new [] }
    ensures lends { Lends table.old (Call.opening bay edition) }
{
    answers::number(calls::open(table, bay, edition))
}

pub fn dw_add(table: &mut [u64], bay: u64, piece: &[u8]) -> u64
    ensures outcome { Outcome table.old (Call.adding bay piece.now) result table.new [] }
    ensures lends { Lends table.old (Call.adding bay piece.now) }
{
    answers::number(calls::add(table, bay, piece))
}

pub fn dw_close(table: &mut [u64], bay: u64, closing: u8, bits: u64, out: &mut [u8]) -> u64
    ensures outcome { Outcome table.old (Call.closing bay closing bits out.old) result table.new out.new }
    ensures lends { Lends table.old (Call.closing bay closing bits out.old) }
{
    answers::number(calls::close(table, bay, closing, bits, out))
}

pub fn dw_save(table: &[u64], bay: u64, out: &mut [u8]) -> u64
    ensures outcome { Outcome table.now (Call.saving bay out.old) result table.exit.now out.new }
    ensures lends { Lends table.now (Call.saving bay out.old) }
{
    answers::number(calls::save(table, bay, out))
}

pub fn dw_load(table: &mut [u64], bay: u64, record: &[u8]) -> u64
    ensures outcome { Outcome table.old (Call.loading bay «record».now) result table.new [] }
    ensures lends { Lends table.old (Call.loading bay «record».now) }
{
    answers::number(calls::load(table, bay, record))
}

pub fn dw_drop(table: &mut [u64], bay: u64) -> u64
    ensures outcome { Outcome table.old (Call.dropping bay) result table.new [] }
    ensures lends { Lends table.old (Call.dropping bay) }
{
    answers::number(calls::drop(table, bay))
}

// Edition and count are always written: 0 and 0 where the call is refused or nothing is in the bay.
pub fn dw_ask(table: &[u64], bay: u64, edition: &mut u64, count: &mut u64) -> u64
    ensures asks { Asks table.now bay result (told edition.new count.new) }
    ensures lends { Lends table.now (Call.asking bay) }
{
    match calls::ask(table, bay) {
        Ok(asked) => {
            *edition = asked.edition;
            *count = asked.count;
            0
        }
        Err(refusal) => {
            *edition = 0;
            *count = 0;
            u64::from(refusal)
        }
    }
}

pub fn dw_tree(map: &[u8], out: &mut [u8]) -> u64
    ensures { Trees map.now out.old result out.new }
{
    answers::number(tree::whole::tree(map, out))
}

pub fn dw_stream_begin(stream: &mut [u64]) -> u64
    ensures { Begins stream.old result stream.new }
{
    answers::number(streamwords::begin(stream))
}

pub fn dw_stream_add(stream: &mut [u64], piece: &[u8]) -> u64
    ensures adds { Adds stream.old piece.now result stream.new }
    ensures lends_piece { LendsPiece stream.old piece.now }
{
    answers::number(streamwords::add(stream, piece))
}

pub fn dw_stream_root(stream: &[u64], out: &mut [u8]) -> u64
    ensures { Roots stream.now out.old result out.new }
{
    answers::number(streamwords::root(stream, out))
}

pub fn dw_tag(edition: u64, key: &[u8], message: &[u8], out: &mut [u8]) -> u64
    ensures { Tags edition key.now message.now out.old result out.new }
{
    answers::number(keyed::at_once::tag(edition, key, message, out))
}

pub fn dw_check_tag(edition: u64, key: &[u8], message: &[u8], tag: &[u8]) -> u64
    ensures { result ≡ first (check_at_once_tests edition key.now message.now tag.now) }
{
    answers::number(keyed::at_once::check(edition, key, message, tag))
}

pub fn dw_keyed_start(keyed: &mut [u64], edition: u64, key: &[u8]) -> u64
    ensures starts { keyedwords.Starts keyed.old edition key.now result keyed.new }
    ensures lends_key { keyedwords.LendsKey keyed.old key.now }
{
    answers::number(keyedwords::start(keyed, edition, key))
}

pub fn dw_keyed_add(keyed: &mut [u64], piece: &[u8]) -> u64
    ensures adds { keyedwords.Adds keyed.old piece.now result keyed.new }
    ensures lends_piece { keyedwords.LendsPiece keyed.old piece.now }
{
    answers::number(keyedwords::add(keyed, piece))
}

pub fn dw_keyed_tag(keyed: &[u64], out: &mut [u8]) -> u64
    ensures { keyedwords.Ends keyed.now out.old result out.new }
{
    answers::number(keyedwords::tag(keyed, out))
}

pub fn dw_keyed_check(keyed: &[u64], tag: &[u8]) -> u64
    ensures { result ≡ first (keyedwords.check_tests keyed.now tag.now) }
{
    answers::number(keyedwords::check(keyed, tag))
}

pub fn dw_judge(list: &[u8], name: &[u8], digest: &[u8]) -> u64
    ensures { result ≡ first (judge_tests list.now name.now digest.now) }
{
    answers::number(lists::judge(list, name, digest))
}

// Place and length of the part are written in every case: both 0 where it is empty.
pub fn dw_lookup(list: &[u8], name: &[u8], at: &mut usize, len: &mut usize) -> u64
    ensures { Finds list.now name.now result (spot at.new len.new) }
{
    match lists::find(list, name) {
        Ok(found) => {
            *at = found.start;
            *len = found.len;
            0
        }
        Err(refusal) => {
            *at = 0;
            *len = 0;
            u64::from(refusal)
        }
    }
}

pub fn dw_list_start(edition: u64, buffer: &mut [u8]) -> u64
    ensures { Writing.Starts edition buffer.old result buffer.new }
{
    answers::number(writer::start(edition, buffer))
}

pub fn dw_list_put(buffer: &mut [u8], name: &[u8], digest: &[u8]) -> u64
    ensures puts { Writing.Puts buffer.old name.now digest.now result buffer.new }
    ensures lends { Writing.Lends buffer.old name.now digest.now }
{
    answers::number(writer::put(buffer, name, digest))
}
