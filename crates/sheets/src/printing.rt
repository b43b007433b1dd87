// Sheets, one below the other.
use electric_rules::{ElectricBook, Kwh, Sales};
use journal::opening::{self, FreshBook};
use postings::kinds::Kind;
use postings::{Book, Posting};
use refusals::Refusal;
use std::io;
use std::io::{Stdout, Write};

// Where sheets are printed, and whether one was: then a blank line stands before what follows.
#[derive(Drop)]
pub(crate) struct Printing {
    output: Stdout,
    begun: bool,
}

impl Printing {
    pub(crate) fn new(output: Stdout) -> Printing {
        Printing {
            output,
            begun: false,
        }
    }

    // Begins what is printed next: a blank line stands between two.
    fn begin(&mut self) -> io::Result<()> {
        if self.begun {
            println!(self.output; "")?;
        }
        self.begun = true;
        Ok(())
    }

    // The sheet of a settlement; of one that is refused nothing.
    fn put_sheet(&mut self, book: ElectricBook, settlement: Posting) -> io::Result<()> {
        let estimates = Sales {
            secondary: Kwh(settlement.first),
            primary: Kwh(settlement.second),
        };
        let mut page = [0; sheet::BYTES];
        if sheet::write(book, estimates, &mut page).is_err() {
            return Ok(());
        }
        self.begin()?;
        self.output.write_all(&page)
    }

    // The sheets of the records behind the opening.
    fn print_records(&mut self, fresh: ElectricBook, input: &[u8]) -> io::Result<()> {
        let mut book = fresh;
        let mut place = 1;
        // A range counts the records, since nothing here shows that a counter would fit; no input has as many as it may have bytes.
        for number in 1..journal::MOST_BYTES {
            if input.len() <= place {
                return Ok(());
            }
            match records::read_record(Book::Electric, input, place) {
                Ok(found) => {
                    if found.posting.kind() == Kind::Settle {
                        self.put_sheet(book, found.posting)?;
                    }
                    // A refusal leaves the book as it was.
                    let _ = electric::take(&mut book, found.posting);
                    place = found.place;
                }
                Err(refusal) => {
                    self.begin()?;
                    return println!(self.output; "{number} 0 refused {}", refusal.number());
                }
            }
        }
        Ok(())
    }

    // The sheets of a journal, or the refusal of one that opens no electric book.
    pub(crate) fn print(&mut self, input: &[u8]) -> io::Result<()> {
        let refusal = match opening::opened(input) {
            Ok(FreshBook::Electric(fresh)) => return self.print_records(fresh, input),
            Ok(FreshBook::Steam(_)) => Refusal::OutOfRange,
            Err(refusal) => refusal,
        };
        println!(self.output; "refused {}", refusal.number())
    }
}
