// The field engineer's checklist: short histories of postings to fresh books, each posting as a line of a journal, and each value that was
// seen beside what it should be.
#![tactic(auto)]

mod handover;
mod histories;
mod interest;
mod lines;
mod refusal;
mod remainders;
mod report;
mod shown;
mod sign;

use report::Tally;

const HOW_TO_READ: &str =
    "A posting is a line of a journal; behind the # stands what the journal program prints for it.\n";

fn main(rt: HostRuntime) {
    let mut tally = Tally::new(rt.stdout());
    tally.print(HOW_TO_READ);
    sign::check(&mut tally);
    remainders::check(&mut tally);
    handover::check(&mut tally);
    refusal::check(&mut tally);
    interest::check(&mut tally);
    tally.print_count(&rt);
}
