// A posting as a line of a journal, in the words that the tool of readable lines takes.
use postings::kinds::{self, Kind};
use postings::{Book, Posting};
use std::fmt;
use std::fmt::Write;

#[derive(Clone, Copy)]
pub(crate) struct Line {
    pub book: Book,
    pub posting: Posting,
}

impl fmt::Display for Line {
    // The kind's word, and each field that the book's table has for the kind.
    fn fmt<W: fmt::Write>(&self, f: &mut fmt::Formatter<W>) -> fmt::Result {
        let Line { book, posting } = *self;
        let kind = posting.kind();
        write!(f, "{}", word(kind))?;
        // 2 to the number of fields.
        let maps = kinds::maps_of(book, posting.kind).unwrap_or(1);
        if 1 < maps {
            write!(f, " {}", First { book, posting })?;
        }
        if 2 < maps {
            write!(f, " {}", posting.second)?;
        }
        if 4 < maps {
            write!(f, " {}", posting.third)?;
        }
        Ok(())
    }
}

fn word(kind: Kind) -> &'static str {
    match kind {
        Kind::Unknown => "unknown",
        Kind::Cost => "cost",
        Kind::Sales => "sales",
        Kind::Bill => "bill",
        Kind::Settle => "settle",
        Kind::MonthEnd => "month-end",
        Kind::Adjust => "adjust",
        Kind::Reconcile => "reconcile",
    }
}

// The first field, of which a level has a word.
#[derive(Clone, Copy)]
struct First {
    book: Book,
    posting: Posting,
}

impl fmt::Display for First {
    fn fmt<W: fmt::Write>(&self, f: &mut fmt::Formatter<W>) -> fmt::Result {
        let First { book, posting } = *self;
        match (book, posting.kind(), posting.first) {
            (Book::Electric, Kind::Bill | Kind::Adjust, 0) => write!(f, "secondary"),
            (Book::Electric, Kind::Bill | Kind::Adjust, 1) => write!(f, "primary"),
            (_, _, first) => write!(f, "{first}"),
        }
    }
}
