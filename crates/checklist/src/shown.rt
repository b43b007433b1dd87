// What a fact shows, as the journal prints it: answers and refusals in the ledger's own text, written apart so that the one is no proof of itself.
use postings::Answer;
use refusals::Refusal;
use std::fmt;
use std::fmt::Write;

// An answer or a refusal, to be shown.
#[derive(Clone, Copy)]
pub(crate) struct Shown<T>(pub T);

impl fmt::Display for Shown<Answer> {
    fn fmt<W: fmt::Write>(&self, f: &mut fmt::Formatter<W>) -> fmt::Result {
        match self.0 {
            Answer::Line(line) => write!(f, "line {line}"),
            Answer::FiledLevels(secondary, primary) => write!(f, "filed {secondary} {primary}"),
            Answer::Filed(factor) => write!(f, "filed {factor}"),
            Answer::Interest(secondary, primary) => write!(f, "interest {secondary} {primary}"),
            Answer::Done => write!(f, "done"),
        }
    }
}

impl fmt::Display for Shown<Refusal> {
    fn fmt<W: fmt::Write>(&self, f: &mut fmt::Formatter<W>) -> fmt::Result {
        write!(f, "refused {}", self.0.number())
    }
}

// What a posting was answered, or why it was refused.
impl fmt::Display for Shown<Result<Answer, Refusal>> {
    fn fmt<W: fmt::Write>(&self, f: &mut fmt::Formatter<W>) -> fmt::Result {
        match self.0 {
            Ok(answer) => write!(f, "{}", Shown(answer)),
            Err(refusal) => write!(f, "{}", Shown(refusal)),
        }
    }
}

// The part of a text that is not yet written by what is shown.
#[derive(Drop)]
struct Rest<'a> {
    text: &'a str,
}

impl fmt::Write for Rest<'_> {
    fn write_str(&mut self, piece: &str) -> fmt::Result {
        self.text = self.text.strip_prefix(piece).ok_or(fmt::Error)?;
        Ok(())
    }
}

// Whether what is shown is the text.
pub(crate) fn reads<D: fmt::Display>(seen: &D, text: &str) -> bool {
    let mut rest = Rest { text };
    write!(rest, "{seen}").is_ok() && rest.text.is_empty()
}
