// A history: a book, and the report that has a line for each of its postings. A posting reaches the book by `post` alone, which prints it.
// Each function below it is a step of the field engineer's list under its own name, however short.
use crate::lines::Line;
use crate::report::Tally;
use crate::shown::Shown;
use electric_rules::ElectricBook;
use ledger::Ledger;
use postings::kinds::Kind;
use postings::{Answer, Posting};
use refusals::Refusal;
use std::fmt::{Display, InlineText};
use steam_rules::{Mmbtu, SteamBook};

#[derive(Drop)]
pub(crate) struct History<'a, B> {
    report: &'a mut Tally,
    book: B,
    // The same book as if what was refused had never been posted: it takes what the other has accepted.
    without_refused: B,
    records: u64,
}

impl<'a, B: Ledger> History<'a, B> {
    fn of(report: &'a mut Tally, fresh: B) -> Self {
        History {
            report,
            book: fresh,
            without_refused: fresh,
            records: 0,
        }
    }

    // Takes a posting, and prints its line with what the journal program prints for that record.
    fn post(&mut self, kind: Kind, first: i64, second: i64) -> Result<Answer, Refusal> {
        let posting = Posting {
            kind: u8::from(kind),
            first,
            second,
            third: 0,
        };
        let answer = self.book.take(posting);
        self.print(posting, answer);
        if answer.is_ok() {
            // By value: the other call by which a book takes a posting.
            let posted = self.without_refused.post(posting)?;
            self.without_refused = posted.book;
        }
        answer
    }

    // The answer stands behind a #, as a comment, so that the line can be copied with it. A program has room for far fewer records than
    // would wrap the count.
    fn print(&mut self, posting: Posting, answer: Result<Answer, Refusal>) {
        self.records = self.records.wrapping_add(1);
        // Room for a kind's word and three numbers of 20 characters each.
        let line = InlineText::<96>::of(Line {
            book: B::KINDS,
            posting,
        });
        let line = line.as_str();
        let record = self.records;
        let kind = posting.kind;
        let answer = Shown(answer);
        self.report
            .line(format_args!("{line:<24}# {record} {kind} {answer}"));
    }

    pub(crate) fn book(&self) -> B {
        self.book
    }

    pub(crate) fn without_refused(&self) -> B {
        self.without_refused
    }

    pub(crate) fn fact<D: Display + Drop>(&mut self, what: &str, seen: D, text: &str) {
        self.report.fact(what, seen, text);
    }

    // A remark among the lines, as a comment.
    pub(crate) fn remark(&mut self, text: &str) {
        self.report.line(format_args!("# {text}"));
    }

    pub(crate) fn cost(&mut self, cents: i64) -> Result<Answer, Refusal> {
        self.post(Kind::Cost, cents, 0)
    }

    // So many months' ends, on the electric book without interest.
    pub(crate) fn months(&mut self, count: u8) -> Result<(), Refusal> {
        for _ in 0..count {
            self.post(Kind::MonthEnd, 0, 0)?;
        }
        Ok(())
    }
}

// A voltage level. A field of a bill or an adjustment has its number, which is its place here: by `as`, as nothing else gives it.
#[derive(Clone, Copy)]
pub(crate) enum Voltage {
    Secondary,
    Primary,
}

// What is posted to the electric book alone.
impl<'a> History<'a, ElectricBook> {
    // From the fresh book of L&P.
    pub(crate) fn electric(report: &'a mut Tally) -> Result<Self, Refusal> {
        report.line("electric L&P");
        let fresh = ElectricBook::open(0)?;
        Ok(History::of(report, fresh))
    }

    pub(crate) fn sales(&mut self, secondary: i64, primary: i64) -> Result<Answer, Refusal> {
        self.post(Kind::Sales, secondary, primary)
    }

    pub(crate) fn bill(&mut self, level: Voltage, kwh: i64) -> Result<Answer, Refusal> {
        self.post(Kind::Bill, level as i64, kwh)
    }

    // With the sales that are estimated for the factors' year.
    pub(crate) fn settle(&mut self, secondary: i64, primary: i64) -> Result<Answer, Refusal> {
        self.post(Kind::Settle, secondary, primary)
    }

    // At a yearly rate in millionths.
    pub(crate) fn month_end(&mut self, rate: i64) -> Result<Answer, Refusal> {
        self.post(Kind::MonthEnd, rate, 0)
    }

    pub(crate) fn adjust(&mut self, level: Voltage, cents: i64) -> Result<Answer, Refusal> {
        self.post(Kind::Adjust, level as i64, cents)
    }

    // From a fresh book's June to November.
    pub(crate) fn to_first_november(&mut self) -> Result<(), Refusal> {
        self.months(5)
    }

    // From a settled November past February, whose end lets run 1 enter.
    pub(crate) fn past_february(&mut self) -> Result<(), Refusal> {
        self.months(4)
    }

    // From a settled May to November; the end of August lets run 2 enter.
    pub(crate) fn to_november(&mut self) -> Result<(), Refusal> {
        self.months(6)
    }
}

// What is posted to the steam book alone.
impl<'a> History<'a, SteamBook> {
    // From the fresh book after four quarters of these sales each.
    pub(crate) fn steam(report: &'a mut Tally, quarter: i64) -> Result<Self, Refusal> {
        report.line(format_args!("steam {quarter} {quarter} {quarter} {quarter}"));
        let fresh = SteamBook::open([Mmbtu(quarter); 4])?;
        Ok(History::of(report, fresh))
    }

    pub(crate) fn sales(&mut self, mmbtu: i64) -> Result<Answer, Refusal> {
        self.post(Kind::Sales, mmbtu, 0)
    }

    pub(crate) fn bill(&mut self, mmbtu: i64) -> Result<Answer, Refusal> {
        self.post(Kind::Bill, mmbtu, 0)
    }

    // Without an adjustment of the sales.
    pub(crate) fn settle(&mut self) -> Result<Answer, Refusal> {
        self.post(Kind::Settle, 0, 0)
    }

    // What is carried, over so many months of such sales.
    pub(crate) fn reconcile(&mut self, months: i64, mmbtu: i64) -> Result<Answer, Refusal> {
        self.post(Kind::Reconcile, months, mmbtu)
    }

    // From a quarter's first month to its last.
    pub(crate) fn to_last_month(&mut self) -> Result<(), Refusal> {
        self.months(2)
    }

    // From a quarter's settled last month past the second of the next, whose end lets a run enter.
    pub(crate) fn past_entry(&mut self) -> Result<(), Refusal> {
        self.months(3)
    }
}
