// A level within its limits, and what bill, adjust, settle and month end make of it.
ghost use Rattle.std.specs.Prelude.{◌≡◌, true, pos};
ghost use Rattle.ints.specs.Range.{Within};
ghost use Rattle.rounding.specs.Round.{round};
ghost use Rattle.refusals.specs.Rows.{stored_or_12};
ghost use Rattle.amounts.specs.Amounts.{cents};
ghost use Rattle.postings.specs.Ranged.{Ranged};
ghost use Rattle.postings.specs.declared.kinds.Kind.TheVariants.{MonthEnd as MonthEndKind};
ghost use Rattle.postings.specs.declared.Book.TheVariants.{Electric};
ghost use Rattle.postings.specs.declared.Answer.TheVariants.{Line};
ghost use Rattle.riders.specs.Posts.{TakenWithin};
ghost use Rattle.riders.specs.Runs.{due_less, filed_run, run_in_limits, RunWithin};
ghost use Rattle.electric_rules.specs.Levels.{level_line, billed_level, adjusted_level, filed_level, owed_by, bearing_of, interest_on, accrued_level, handed_over};
ghost use Rattle.electric_rules.specs.Limits.{level_in_limits};
ghost use Rattle.electric_rules.specs.Ranges.{LevelWithin};
ghost use Rattle.electric.specs.Taken.{ended_at};

use amounts::{Cents, Points, Stored};
use electric_rules::{EnteringRun, Kwh, Level};
use postings::kinds::Kind;
use postings::{Answer, Book, Posting};
use refusals::Refusal;
use riders::Run;

// Millionths of a year's rate to a month's.
const MONTHLY: i64 = 12_000_000;

#[derive(Clone, Copy)]
pub(crate) struct LevelInLimits {
    pub(crate) level: Level,
    ghost in_limits: { level_in_limits level ≡ true },
    // The same by amount.
    ghost within: { LevelWithin level },
}

// A month's end, with a rate in its range, and the run that enters at it, if one does.
#[derive(Clone, Copy)]
pub(crate) struct MonthEnd {
    pub(crate) posting: Posting,
    pub(crate) entering: Option<EnteringRun>,
    ghost ranged: { Ranged Electric MonthEndKind posting },
}

impl LevelInLimits {
    // A bill's line, and the level with each run's part of it taken from its due cents: run 2's part is the line less run 1's.
    pub(crate) fn billed(self, posting: Posting) -> (Cents, Level)
        requires { Ranged Book.Electric Kind.Bill posting }
        ensures { result ≡ (cents (level_line posting.second self.level), billed_level posting.second self.level) }
    {
        let level = self.level;
        let factor = i64::from(level.first.factor.0);
        let both = factor + i64::from(level.second.factor.0);
        let line = to_cents(posting.second * both);
        let first = to_cents(posting.second * factor);
        let second = Cents(line.0 - first.0);
        (
            line,
            Level {
                first: due_less(first, level.first),
                second: due_less(second, level.second),
                ..level
            },
        )
    }

    // The amount joins the carried cents.
    pub(crate) fn adjusted(self, posting: Posting) -> Level
        requires { Ranged Book.Electric Kind.Adjust posting }
        ensures { result ≡ adjusted_level posting.second self.level }
    {
        Level {
            carried: Cents(self.level.carried.0 + posting.second),
            ..self.level
        }
    }

    // What the level owes, with the factor that is to bring it in over the estimated sales; or refusal 12.
    pub(crate) fn filing_of(self, share: Cents, estimate: Kwh) -> Result<Run, Refusal>
        requires { Within 9000000000000 share.0 }
        ensures { result ≡ stored_or_12 (run_in_limits (filed_run (owed_by share.0 self.level) estimate.0)) (filed_run (owed_by share.0 self.level) estimate.0) }
    {
        let owed = Cents(share.0 + self.level.carried.0 + self.level.interest.0);
        Run::filed(owed, estimate.0)
    }

    // A month's interest on the balance that bears it.
    fn interest(self, month_end: MonthEnd, provisional_share: Cents) -> Cents
        requires { Within 9000000000000 provisional_share.0 }
        ensures { result ≡ cents (interest_on month_end.posting.first (bearing_of provisional_share.0 self.level)) }
    {
        let level = self.level;
        let balance = level.carried.0
            + level.pending.due.0
            + level.first.due.0
            + level.second.due.0
            + provisional_share.0;
        Cents(rounding::round_div(month_end.posting.first * balance, MONTHLY))
    }

    // The level at a month's end: that interest accrued, then the handover.
    fn after(self, entering: Option<EnteringRun>, interest: Cents) -> Level
        requires { Within 300000000000 interest.0 }
        ensures { result ≡ handed_over entering (accrued_level interest.0 self.level) }
    {
        let accrued = Level {
            interest: Cents(self.level.interest.0 + interest.0),
            ..self.level
        };
        handed_over(entering, accrued)
    }

    // A month's interest, and the level at the month's end; or refusal 12. Its runs lay within their limits before.
    pub(crate) fn ended(
        self,
        month_end: MonthEnd,
        provisional_share: Cents,
    ) -> Result<(Cents, Level), Refusal>
        requires { Within 9000000000000 provisional_share.0 }
        ensures { result ≡ ended_at month_end.entering (interest_on month_end.posting.first (bearing_of provisional_share.0 self.level)) self.level }
    {
        let interest = self.interest(month_end, provisional_share);
        let next = self.after(month_end.entering, interest);
        next.carried.stored()?;
        next.interest.stored()?;
        Ok((interest, next))
    }
}

// Bills the level: its line, with each run's part of it taken from its due cents; or refusal 12.
pub(crate) fn bill(level: &mut Level, posting: Posting) -> Result<Answer, Refusal>
    requires { (level_in_limits level.old ≡ true) × Ranged Book.Electric Kind.Bill posting }
    ensures { TakenWithin (level_in_limits (billed_level posting.second level.old)) (Line (cents (level_line posting.second level.old))) (billed_level posting.second level.old) level.old result level.new }
{
    let found = LevelInLimits { level: *level };
    let (line, billed) = found.billed(posting);
    let first = billed.first.due.stored()?;
    let second = billed.second.due.stored()?;
    level.first.due = first;
    level.second.due = second;
    Ok(Answer::Line(line))
}

// So many points, times kWh, in whole cents: a name for the unit, as each call that rounds has its own.
fn to_cents(points: i64) -> Cents
    ensures { result ≡ cents (round points (pos 100)) }
{
    Cents(rounding::round_div(points, Points::TO_A_CENT))
}

// The due cents fall by the part.
fn due_less(part: Cents, run: Run) -> Run
    requires { Within 5000000000000 part.0 × RunWithin run }
    ensures { result ≡ due_less part.0 run }
{
    let due = Cents(run.due.0 - part.0);
    Run { due, ..run }
}

// The run that enters, if one does, adds its due cents to the carried ones and becomes the pending run.
fn handed_over(entering: Option<EnteringRun>, level: Level) -> Level
    requires { Within 1000000000000 level.carried.0 × RunWithin level.first × RunWithin level.second }
    ensures { result ≡ handed_over entering level }
{
    match entering {
        None => level,
        Some(EnteringRun::First) => Level {
            carried: Cents(level.carried.0 + level.first.due.0),
            pending: Run::none(),
            first: level.pending,
            ..level
        },
        Some(EnteringRun::Second) => Level {
            carried: Cents(level.carried.0 + level.second.due.0),
            pending: Run::none(),
            second: level.pending,
            ..level
        },
    }
}

// The level with its filing pending, and nothing carried or accrued.
pub(crate) fn filed(filing: Run, level: Level) -> Level
    ensures { result ≡ filed_level filing level }
{
    Level {
        carried: Cents(0),
        interest: Cents(0),
        pending: filing,
        ..level
    }
}
