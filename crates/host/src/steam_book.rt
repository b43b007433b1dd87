// The steam book for a host: a book goes in by value, and comes back with the reply.
ghost use Rattle.std.specs.Prelude.{◌≡◌, [], ◌∷◌};
ghost use Rattle.steam_rules.specs.Book.{mmbtu};
ghost use Rattle.steam_rules.specs.Refusals.{post_of};
ghost use Rattle.host.specs.Replies.{filed_in, steam_reply, steam_reply_of, steam_opened};

use crate::results;
use amounts::{Cents, Points};
use postings::{Answer, Posting};
use refusals::Refusal;
use riders::Run;
use steam_rules::{Mmbtu, Period, Reconciliation, SteamBook};

// The refusal's number, or 0 and what the posting is answered with, 0 where a field does not apply; and the book after it. No bytes lie
// unused right before the book, since it would then be copied into the reply
// twice.
#[repr(C)]
#[derive(Clone, Copy)]
pub struct SteamReply {
    pub number: u8,
    pub filed: Points,
    pub line: Cents,
    pub book: SteamBook,
}

// The factor of a settlement.
fn filed_in(answer: Result<Answer, Refusal>) -> Points
    ensures { result ≡ filed_in answer }
{
    match answer {
        Ok(Answer::Filed(factor)) => factor,
        _ => Points(0),
    }
}

fn run_by_fields(run: Run) -> Run
    ensures { result ≡ run }
{
    let Run { factor, due } = run;
    Run { factor, due }
}

// The book field by field: a move of the whole copies the unused bytes between its fields too, which takes longer than all the rest.
fn by_fields(book: &SteamBook) -> SteamBook
    ensures { result ≡ book.now }
{
    let Period {
        cost,
        sales,
        remainder,
    } = book.period;
    SteamBook {
        month: book.month,
        settled: book.settled,
        period: Period {
            cost,
            sales,
            remainder,
        },
        quarters: book.quarters,
        carried: book.carried,
        pending: run_by_fields(book.pending),
        factors: book.factors,
        dues: book.dues,
        reconciliation: Reconciliation {
            run: run_by_fields(book.reconciliation.run),
            months: book.reconciliation.months,
        },
    }
}

// What a host is handed for an answer or a refusal, and the book that is left. The book is lent, since each move of it is a copy.
fn reply(answer: Result<Answer, Refusal>, left: &SteamBook) -> SteamReply
    ensures { result ≡ steam_reply_of answer left.now }
{
    SteamReply {
        number: results::number_in(answer),
        filed: filed_in(answer),
        line: results::line_in(answer),
        book: by_fields(left),
    }
}

// The fresh steam book after the sales of four quarters in million BTU, oldest first. One out of range is refusal 7, with the book after
// four zeros.
#[unsafe(no_mangle)]
pub extern "C" fn neapscroll_steam_open(
    first: i64,
    second: i64,
    third: i64,
    fourth: i64,
) -> SteamReply
    ensures { result ≡ steam_opened (mmbtu first ∷ mmbtu second ∷ mmbtu third ∷ mmbtu fourth ∷ []) }
{
    let quarters = [Mmbtu(first), Mmbtu(second), Mmbtu(third), Mmbtu(fourth)];
    let answer = SteamBook::open(quarters).map(|_| Answer::Done);
    reply(answer, &SteamBook::handed_back(quarters))
}

// What a posting gives: the answer and the next book, or a refusal's number and the book as it was. A call a book, since C has no generics.
#[unsafe(no_mangle)]
pub extern "C" fn neapscroll_steam_post(book: SteamBook, posting: Posting) -> SteamReply
    ensures { result ≡ steam_reply book (post_of book posting) }
{
    let mut left = book;
    let answer = steam::take(&mut left, posting);
    reply(answer, &left)
}
