// The answers that the calls give: SPEC, "Calls and their numbers".
// A call did what was asked, or refused: an enum has a case for each refusal of that table, in the table's order.
#![tactic(auto)]

ghost use Rattle.std.specs.Prelude.{◌≡◌};
ghost use Rattle.answers.specs.Numbers.{number_of, refusal_number};

// Done, or why not.
pub type Answer = Result<(), Refusal>;

#[derive(Clone, Copy, Debug, PartialEq, Eq)]
pub enum Refusal {
    // 1: the run is no table of bays
    BadTable,
    // 2: the table has no bay of that number
    NoSuchBay,
    // 3: something is in the bay already
    BayTaken,
    // 4: nothing is in the bay
    BayEmpty,
    // 5: the number names no edition
    NoSuchEdition,
    // 6: what is in the bay breaks a rule
    NotSound,
    // 7: the message or the map would be too long
    TooLong,
    // 8: too many closing bits, or a 1 in the closing byte behind them
    BadClosing,
    // 9: the result finds no room in the output
    ShortOutput,
    // 10: the bytes are no saved record
    BadRecord,
    // 11: so many bays cannot be laid out in the run
    BadLayout,
    // 12: the bytes are no digest list
    NotAList,
    // 13: the list does not have the name
    NotListed,
    // 14: the list has another digest, or digests of another size
    DigestDiffers,
    // 15: no list may have the name
    ForbiddenName,
    // 16: the list has the name already
    NameTaken,
    // 17: the list has as many entries as a list may have
    ListFull,
}

impl From<Refusal> for u64 {
    ghost from_gives = { λ r n. n ≡ refusal_number r };

    fn from(refusal: Refusal) -> u64 {
        match refusal {
            Refusal::BadTable => 1,
            Refusal::NoSuchBay => 2,
            Refusal::BayTaken => 3,
            Refusal::BayEmpty => 4,
            Refusal::NoSuchEdition => 5,
            Refusal::NotSound => 6,
            Refusal::TooLong => 7,
            Refusal::BadClosing => 8,
            Refusal::ShortOutput => 9,
            Refusal::BadRecord => 10,
            Refusal::BadLayout => 11,
            Refusal::NotAList => 12,
            Refusal::NotListed => 13,
            Refusal::DigestDiffers => 14,
            Refusal::ForbiddenName => 15,
            Refusal::NameTaken => 16,
            Refusal::ListFull => 17,
        }
    }
}

// The number of an answer: 0 where the call did what was asked.
pub fn number(answer: Answer) -> u64
    ensures { result ≡ number_of answer }
{
    match answer {
        Ok(()) => 0,
        Err(refusal) => u64::from(refusal),
    }
}
