// What a host is handed in place of a result, since C has none: a number, 0 where nothing was refused, and the values beside it.
ghost use Rattle.std.specs.Prelude.{◌≡◌};
ghost use Rattle.postings.specs.Answers.{answer_number};
ghost use Rattle.host.specs.Replies.{line_in};
ghost use Rattle.host.specs.Results.{read_at};

use amounts::Cents;
use postings::{Answer, Posting};
use records::Found;
use refusals::Refusal;

// 0 where nothing was refused, or document 01's number of the refusal.
pub(crate) fn number_in(answer: Result<Answer, Refusal>) -> u8
    ensures { result ≡ answer_number answer }
{
    match answer {
        Ok(_) => 0,
        Err(refusal) => refusal.number(),
    }
}

// The line of a bill; no cents where another posting was answered, or none was.
pub(crate) fn line_in(answer: Result<Answer, Refusal>) -> Cents
    ensures { result ≡ line_in answer }
{
    match answer {
        Ok(Answer::Line(line)) => line,
        _ => Cents(0),
    }
}

// What reading at a place gives: 0, the next place and the posting; or the number of a refusal, the place, and a posting of kind 0,
// which is a kind of no book.
#[repr(C)]
#[derive(Clone, Copy)]
pub struct Read {
    pub number: u8,
    pub place: usize,
    pub posting: Posting,
}

// What a host is handed where no record was read.
const NO_POSTING: Posting = Posting {
    kind: 0,
    first: 0,
    second: 0,
    third: 0,
};

pub(crate) fn read_at(place: usize, found: Result<Found, Refusal>) -> Read
    ensures { result ≡ read_at place found }
{
    let (number, place, posting) = match found {
        Ok(found) => (0, found.place, found.posting),
        Err(refusal) => (refusal.number(), place, NO_POSTING),
    };
    // Field by field: a move of the whole would copy the bytes between its fields too, which waits for them to be stored.
    let Posting {
        kind,
        first,
        second,
        third,
    } = posting;
    Read {
        number,
        place,
        posting: Posting {
            kind,
            first,
            second,
            third,
        },
    }
}
