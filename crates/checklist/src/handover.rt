// Handover: a run past February, and the cents still due are carried, not forgotten.
use crate::histories::{History, Voltage};
use crate::report::Tally;
use crate::shown::Shown;
use electric_rules::ElectricBook;
use refusals::Refusal;
use steam_rules::SteamBook;

pub(crate) fn check(tally: &mut Tally) {
    tally.history(
        "Handover, electric",
        "checklist-handover-electric",
        electric,
    );
    tally.history("Handover, steam", "checklist-handover-steam", steam);
}

// Fuel at the base, 1,799 × 1,000 hundred-thousandths of a dollar: no variance, so nothing to share.
fn half_year_at_base(history: &mut History<'_, ElectricBook>) -> Result<(), Refusal> {
    history.cost(1_799)?;
    history.sales(1_000, 0)?;
    Ok(())
}

// The paper's settlement: shares 115,513 and 75,437, both factors 9; run 1 enters at the end of February.
fn electric(tally: &mut Tally) -> Result<(), Refusal> {
    let mut history = History::electric(tally)?;
    history.cost(2_000_000)?;
    history.sales(600_000, 400_000)?;
    history.to_first_november()?;
    let filed = history.settle(1_250_000, 800_000)?;
    history.fact(
        "Handover, electric, factors filed",
        Shown(filed),
        "filed 0.0009 0.0009",
    );
    history.past_february()?;
    history.bill(Voltage::Secondary, 1_000_000)?;
    history.bill(Voltage::Primary, 800_000)?;
    electric_due(&mut history);
    a_year_on(&mut history)?;
    electric_carried(&mut history);
    electric_filed(&mut history)
}

// Lines of 90,000 and 72,000 cents leave 25,513 and 3,437.
fn electric_due(history: &mut History<'_, ElectricBook>) {
    let book = history.book();
    history.fact(
        "Handover, electric, still due secondary",
        book.secondary.first.due,
        "255.13",
    );
    history.fact(
        "Handover, electric, still due primary",
        book.primary.first.due,
        "34.37",
    );
}

// From March past the next February, at the base in May and in November.
fn a_year_on(history: &mut History<'_, ElectricBook>) -> Result<(), Refusal> {
    half_year_at_base(history)?;
    history.months(2)?;
    history.settle(1_250_000, 800_000)?;
    history.to_november()?;
    half_year_at_base(history)?;
    history.settle(1_250_000, 800_000)?;
    history.past_february()
}

// What was still due under run 1 is carried, and the run that entered has nothing due.
fn electric_carried(history: &mut History<'_, ElectricBook>) {
    let book = history.book();
    history.fact(
        "Handover, electric, carried secondary",
        book.secondary.carried,
        "255.13",
    );
    history.fact(
        "Handover, electric, carried primary",
        book.primary.carried,
        "34.37",
    );
    history.fact(
        "Handover, electric, due under the next run 1",
        book.secondary.first.due,
        "0.00",
    );
}

// May files what was carried: 2,551,300 / 1,250,000 rounds to 2, 343,700 / 800,000 to 0.
fn electric_filed(history: &mut History<'_, ElectricBook>) -> Result<(), Refusal> {
    half_year_at_base(history)?;
    history.months(2)?;
    let filed = history.settle(1_250_000, 800_000)?;
    history.fact(
        "Handover, electric, factors filed for what was carried",
        Shown(filed),
        "filed 0.0002 0.0000",
    );
    let book = history.book();
    history.fact(
        "Handover, electric, pending secondary",
        book.secondary.pending.due,
        "255.13",
    );
    history.fact(
        "Handover, electric, pending primary",
        book.primary.pending.due,
        "34.37",
    );
    Ok(())
}

// A quarter from its first month past its last, with fuel at the base, 30,050 × 10,000 points: no variance, so nothing to share.
fn quarter_at_base(history: &mut History<'_, SteamBook>) -> Result<(), Refusal> {
    history.cost(3_005_000)?;
    history.sales(10_000)?;
    history.to_last_month()?;
    closed(history)
}

fn closed(history: &mut History<'_, SteamBook>) -> Result<(), Refusal> {
    history.settle()?;
    history.months(1)
}

fn three_quarters(history: &mut History<'_, SteamBook>) -> Result<(), Refusal> {
    for _ in 0..3u8 {
        quarter_at_base(history)?;
    }
    Ok(())
}

// The paper's settlement, in December: R 556,000, q 1,390; run 1 enters at the end of February.
fn steam(tally: &mut Tally) -> Result<(), Refusal> {
    let mut history = History::steam(tally, 10_000)?;
    three_quarters(&mut history)?;
    history.cost(3_700_000)?;
    history.sales(10_000)?;
    history.to_last_month()?;
    let filed = history.settle()?;
    history.fact(
        "Handover, steam, factor filed",
        Shown(filed),
        "filed 0.1390",
    );
    history.past_entry()?;
    history.bill(30_000)?;
    // A line of 30,000 × 1,390 / 100 = 417,000 cents leaves 139,000.
    let book = history.book();
    history.fact("Handover, steam, still due", book.dues[0], "1390.00");
    a_steam_year_on(&mut history)?;
    steam_carried(&mut history);
    steam_reconciled(&mut history)
}

// From the March in which run 1 bears factors past the next February, at the base throughout.
fn a_steam_year_on(history: &mut History<'_, SteamBook>) -> Result<(), Refusal> {
    history.cost(3_005_000)?;
    history.sales(10_000)?;
    closed(history)?;
    three_quarters(history)?;
    history.to_last_month()
}

fn steam_carried(history: &mut History<'_, SteamBook>) {
    let book = history.book();
    history.fact("Handover, steam, carried", book.carried, "1390.00");
    history.fact(
        "Handover, steam, due under the next run 1",
        book.dues[0],
        "0.00",
    );
}

// 13,900,000 / 40,000 = 347.5 rounds to 348, and ten mmBtu at it, 34.8 cents, to 35.
fn steam_reconciled(history: &mut History<'_, SteamBook>) -> Result<(), Refusal> {
    history.reconcile(12, 40_000)?;
    let book = history.book();
    history.fact(
        "Handover, steam, due under the reconciliation",
        book.reconciliation.run.due,
        "1390.00",
    );
    let billed = history.bill(10)?;
    history.fact(
        "Handover, steam, ten mmBtu under it",
        Shown(billed),
        "line 0.35",
    );
    Ok(())
}
