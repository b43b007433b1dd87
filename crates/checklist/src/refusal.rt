// Refusal: a settlement in the wrong month, then on, and the book that the refused call leaves is as if it had never been posted.
use crate::histories::{History, Voltage};
use crate::report::Tally;
use crate::shown::Shown;
use comparisons::{electric_fields, steam_fields};
use electric_rules::ElectricBook;
use refusals::Refusal;
use steam_rules::SteamBook;

const BESIDE: &str = "a second book takes all of these lines but the one that is refused";

pub(crate) fn check(tally: &mut Tally) {
    tally.history("Refusal, electric", "checklist-refusal-electric", electric);
    tally.history("Refusal, steam", "checklist-refusal-steam", steam);
}

// June, with a period open; only November and May settle.
fn electric(tally: &mut Tally) -> Result<(), Refusal> {
    let mut history = History::electric(tally)?;
    history.cost(2_000_000)?;
    history.sales(600_000, 400_000)?;
    let answer = history.settle(1_250_000, 800_000);
    history.remark(BESIDE);
    history.fact(
        "Refusal, electric, settlement in June",
        Shown(answer),
        "refused 8",
    );
    electric_differing(
        &mut history,
        "Refusal, electric, fields that differ after it, of 23",
    );
    electric_on(&mut history)
}

// In how many fields the book differs from the one that never got the refused posting.
fn electric_differing(history: &mut History<'_, ElectricBook>, what: &str) {
    let differing = electric_fields::differing(history.without_refused(), history.book());
    history.fact(what, differing, "0");
}

// The same postings after it as without it: the settlement in November, run 1, and a bill at its factor of 9.
fn electric_on(history: &mut History<'_, ElectricBook>) -> Result<(), Refusal> {
    history.to_first_november()?;
    history.settle(1_250_000, 800_000)?;
    history.past_february()?;
    let billed = history.bill(Voltage::Secondary, 10)?;
    history.fact(
        "Refusal, electric, a bill of ten kWh later on",
        Shown(billed),
        "line 0.01",
    );
    electric_differing(
        history,
        "Refusal, electric, fields that differ later on, of 23",
    );
    // A comparison that sees nothing would pass the two above.
    let before = history.book();
    history.cost(1)?;
    let differing = electric_fields::differing(before, history.book());
    history.fact(
        "Refusal, electric, fields that differ once a cost is posted, of 23",
        differing,
        "1",
    );
    Ok(())
}

// January, with a quarter open; its last month settles.
fn steam(tally: &mut Tally) -> Result<(), Refusal> {
    let mut history = History::steam(tally, 10_000)?;
    history.cost(3_700_000)?;
    history.sales(10_000)?;
    let answer = history.settle();
    history.remark(BESIDE);
    history.fact(
        "Refusal, steam, settlement in January",
        Shown(answer),
        "refused 8",
    );
    steam_differing(
        &mut history,
        "Refusal, steam, fields that differ after it, of 23",
    );
    steam_on(&mut history)
}

fn steam_differing(history: &mut History<'_, SteamBook>, what: &str) {
    let differing = steam_fields::differing(history.without_refused(), history.book());
    history.fact(what, differing, "0");
}

// The same postings after it as without it: the settlement in March, run 2, and a bill at its factor of 1,390.
fn steam_on(history: &mut History<'_, SteamBook>) -> Result<(), Refusal> {
    history.to_last_month()?;
    history.settle()?;
    history.past_entry()?;
    let billed = history.bill(10)?;
    history.fact(
        "Refusal, steam, a bill of ten mmBtu later on",
        Shown(billed),
        "line 1.39",
    );
    steam_differing(
        history,
        "Refusal, steam, fields that differ later on, of 23",
    );
    let before = history.book();
    history.cost(1)?;
    let differing = steam_fields::differing(before, history.book());
    history.fact(
        "Refusal, steam, fields that differ once a cost is posted, of 23",
        differing,
        "1",
    );
    Ok(())
}
