// What the riders of both books share: runs, and the months of a year.
#![tactic(auto)]

ghost use Rattle.std.specs.Prelude.{◌≡◌};
ghost use Rattle.refusals.specs.Rows.{stored_or_12};
ghost use Rattle.amounts.specs.Amounts.{points, points_in_limits};
ghost use Rattle.riders.specs.Runs.{no_run, filed_run, run_in_limits};

use amounts::{Cents, Points, Stored};
use refusals::Refusal;

pub mod months;

// A factor and the cents that are due under it: document 01's f and d, or q and Q while it is pending.
#[repr(C)]
#[derive(Clone, Copy, Debug, PartialEq, Eq)]
pub struct Run {
    pub factor: Points,
    pub due: Cents,
}

impl Run {
    // No factor and nothing due: a name of the rules, which `Default` would not say.
    pub fn none() -> Run
        ensures { result ≡ no_run }
    {
        Run {
            factor: Points(0),
            due: Cents(0),
        }
    }

    // What is filed for cents owed: those cents, and the factor that is to bring them in over these sales; or refusal 12, where a book may not
    // store the one or the other.
    pub fn filed(owed: Cents, sales: i64) -> Result<Run, Refusal>
        ensures { result ≡ stored_or_12 (run_in_limits (filed_run owed.0 sales)) (filed_run owed.0 sales) }
    {
        let due = owed.stored()?;
        let quotient = rounding::round_div(Points::TO_A_CENT * due.0, sales);
        let factor = factor_of(quotient)?;
        Ok(Run { factor, due })
    }
}

// The quotient as a factor, where a book may store it; of those that have no room in a factor it may store none.
fn factor_of(quotient: i64) -> Result<Points, Refusal>
    ensures { result ≡ stored_or_12 (points_in_limits (points quotient)) (points quotient) }
{
    match i32::try_from(quotient) {
        Ok(factor) => Points(factor).stored(),
        Err(_) => Err(Refusal::NextOutOfLimits),
    }
}

impl Stored for Run {
    ghost within = { run_in_limits };

    #[tactic(auto, unfolding(crate::specs::Runs::run_in_limits))]
    fn in_limits(self) -> bool {
        self.factor.in_limits() & self.due.in_limits()
    }
}
