// Histories under their names: a line for each posting, a line for each fact, seen beside what it should be, and the count of facts.
use crate::shown::{self, Shown};
use refusals::Refusal;
use std::fmt::Display;
use std::io;
use std::io::Stdout;

// Where lines are printed, the facts checked so far, those that are as they should be, and the first error of a line that was not taken.
#[derive(Drop)]
pub(crate) struct Tally {
    output: Stdout,
    checks: u64,
    right: u64,
    written: io::Result<()>,
}

impl Tally {
    pub(crate) fn new(output: Stdout) -> Tally {
        Tally {
            output,
            checks: 0,
            right: 0,
            written: Ok(()),
        }
    }

    // Walks a history and checks its facts, below its name and that of the example that holds it. Where a posting that it needs is refused,
    // that is a fact that is wrong, and the rest isn't checked.
    pub(crate) fn history<F: FnOnce(&mut Tally) -> Result<(), Refusal>>(
        &mut self,
        what: &str,
        example: &str,
        facts: F,
    )
        requires { F.IsAlwaysCallable facts }
    {
        self.print(format_args!("== {what}: examples/{example}.lines"));
        if let Err(refusal) = facts(self) {
            self.fact(what, Shown(refusal), "accepted");
        }
        self.print("");
    }

    // Checks what was seen against its text. A program has room for far fewer facts than would wrap the counts.
    pub(crate) fn fact<D: Display + Drop>(&mut self, what: &str, seen: D, text: &str) {
        let right = shown::reads(&seen, text);
        self.checks = self.checks.wrapping_add(1);
        self.right = self.right.wrapping_add(u64::from(right));
        let mark = if right { "ok   " } else { "WRONG" };
        self.print(format_args!("{mark} {what}: {seen}, should be {text}"));
    }

    // A line of a journal. Only these begin with blanks.
    pub(crate) fn line<D: Display + Drop>(&mut self, line: D) {
        self.print(format_args!("    {line}"));
    }

    // Where a line was not taken the next is tried all the same.
    pub(crate) fn print<D: Display + Drop>(&mut self, line: D) {
        let printed = println!(self.output; "{line}");
        if self.written.is_ok() {
            self.written = printed;
        }
    }

    // The count of facts, and what is to be said where a line was not taken.
    pub(crate) fn print_count(mut self, rt: &impl Eprint) {
        let Tally { checks, right, .. } = self;
        self.print(format_args!("{checks} checks, {right} as they should be"));
        if self.written.is_err() {
            // Where this fails too, nothing is left to say it to.
            let _ = eprintln!(rt; "checklist: not all lines could be written");
        }
    }
}
