// The electric book for a host: a book goes in by value, and comes back with the reply.
ghost use Rattle.std.specs.Prelude.{◌≡◌};
ghost use Rattle.electric_rules.specs.Refusals.{post_of};
ghost use Rattle.host.specs.Replies.{filed_levels_in, interest_in, electric_reply, electric_reply_of, electric_opened};

use crate::results;
use amounts::{Cents, Points};
use electric_rules::ElectricBook;
use postings::{Answer, Posting};
use refusals::Refusal;

// Cents of either level; points have a struct of their own, since C has no generics.
#[repr(C)]
#[derive(Clone, Copy)]
pub struct LevelCents {
    pub secondary: Cents,
    pub primary: Cents,
}

// Points of either level.
#[repr(C)]
#[derive(Clone, Copy)]
pub struct LevelPoints {
    pub secondary: Points,
    pub primary: Points,
}

// The refusal's number, or 0 and what the posting is answered with, 0 where a field does not apply; and the book after it.
#[repr(C)]
#[derive(Clone, Copy)]
pub struct ElectricReply {
    pub number: u8,
    pub filed: LevelPoints,
    pub line: Cents,
    pub interest: LevelCents,
    pub book: ElectricBook,
}

// The factors of a settlement.
fn filed_levels_in(answer: Result<Answer, Refusal>) -> LevelPoints
    ensures { result ≡ filed_levels_in answer }
{
    match answer {
        Ok(Answer::FiledLevels(secondary, primary)) => LevelPoints { secondary, primary },
        _ => LevelPoints {
            secondary: Points(0),
            primary: Points(0),
        },
    }
}

// The interest of a month's end.
fn interest_in(answer: Result<Answer, Refusal>) -> LevelCents
    ensures { result ≡ interest_in answer }
{
    match answer {
        Ok(Answer::Interest(secondary, primary)) => LevelCents { secondary, primary },
        _ => LevelCents {
            secondary: Cents(0),
            primary: Cents(0),
        },
    }
}

// What a host is handed for an answer or a refusal, and the book that is left. The book is lent, since each move of it is a copy.
fn reply(answer: Result<Answer, Refusal>, left: &ElectricBook) -> ElectricReply
    ensures { result ≡ electric_reply_of answer left.now }
{
    ElectricReply {
        number: results::number_in(answer),
        filed: filed_levels_in(answer),
        line: results::line_in(answer),
        interest: interest_in(answer),
        book: *left,
    }
}

// The fresh electric book of a division, 0 L&P or 1 MPS. Any other is refusal 7, with L&P's book.
#[unsafe(no_mangle)]
pub extern "C" fn neapscroll_electric_open(division: u8) -> ElectricReply
    ensures { result ≡ electric_opened division }
{
    let answer = ElectricBook::open(division).map(|_| Answer::Done);
    reply(answer, &ElectricBook::handed_back(division))
}

// What a posting gives: the answer and the next book, or a refusal's number and the book as it was. A call a book, since C has no generics.
#[unsafe(no_mangle)]
pub extern "C" fn neapscroll_electric_post(book: ElectricBook, posting: Posting) -> ElectricReply
    ensures { result ≡ electric_reply book (post_of book posting) }
{
    let mut left = book;
    let answer = electric::take(&mut left, posting);
    reply(answer, &left)
}
