// Settles one supplier's period through the library, and prints an account that a clerk can follow.
#![tactic(auto)]

mod period;
mod settling;
mod shown;

use anyhow::Context;
use calendar::{Date, date_of, day_of};
use period::{Period, Settlement};
use settling::settle;
use shown::{InKwh, YearFirst};
use units::PriceHundredths;

// A tenant moves in on 19 May 2007. The supplier balances from the first of the next month on, and the meter is read on the last day of July.
fn worked_period() -> Option<Period> {
    let use_from = day_of(Date {
        year: 2007,
        month: 5,
        day: 19,
    })?;
    let balanced_from = day_of(Date {
        year: 2007,
        month: 6,
        day: 1,
    })?;
    let use_end = day_of(Date {
        year: 2007,
        month: 7,
        day: 31,
    })?;
    Some(Period {
        use_from,
        use_end,
        balanced_from,
        day_sum: 96 * 1_000,
        forecast: 1_000,
        reading_before: 400,
        reading_at_end: 530,
        price: PriceHundredths::new(571)?,
    })
}

// The date of a day.
fn dated(day: u32) -> anyhow::Result<YearFirst> {
    let date = date_of(day).context("no such day")?;
    Ok(YearFirst(date))
}

impl Settlement {
    fn print_days(&self, rt: &impl Print) -> anyhow::Result<()> {
        let period = &self.period;
        let use_from = dated(period.use_from)?;
        let use_end = dated(period.use_end)?;
        let balanced_from = dated(period.balanced_from)?;
        let counted_from = dated(period.use_from.max(period.balanced_from))?;
        let days = self.account.days;
        println!(rt; "Use            {use_from} to {use_end}")?;
        println!(rt; "Balanced       from {balanced_from} on")?;
        println!(rt; "Days counted   {counted_from} to {use_end}: {days} days")?;
        Ok(())
    }

    fn print_energy(&self, rt: &impl Print) -> anyhow::Result<()> {
        let Settlement { period, account } = self;
        let target = account.target.count();
        println!(rt;
            "Target         {} days x forecast {} x day sum {} = {target} grains = {}",
            account.days,
            period.forecast,
            period.day_sum,
            InKwh(account.target)
        )?;
        println!(rt;
            "Actual         meter from {} to {} = {} kWh",
            period.reading_before,
            period.reading_at_end,
            account.actual.count()
        )?;
        let grains = account.difference.count();
        let difference = InKwh(account.difference);
        let name = if grains < 0 { "shortfall" } else { "surplus" };
        println!(rt; "Difference     {grains} grains = {difference}, a {name}")?;
        Ok(())
    }

    fn print_bill(&self, rt: &impl Print) -> anyhow::Result<()> {
        let Settlement { period, account } = self;
        let billed = account.billed.count();
        let left = InKwh(account.left);
        let price = period.price;
        let amount = account.amount.count();
        let size = amount.unsigned_abs();
        let creditor = if amount < 0 {
            "the network operator"
        } else {
            "the supplier"
        };
        println!(rt; "Billed         {billed} kWh; rounding leaves {left} to the next bill")?;
        println!(rt; "Price          {price} cents per kWh")?;
        println!(rt; "Amount         {size} cents, owed to {creditor}")?;
        Ok(())
    }
}

fn run(rt: &impl Print) -> anyhow::Result<()> {
    let period = worked_period().context("no such date or price")?;
    let account = settle(&period)?;
    let settlement = Settlement { period, account };
    settlement.print_days(rt)?;
    settlement.print_energy(rt)?;
    settlement.print_bill(rt)
}

fn main(rt: HostRuntime) -> anyhow::Result<()> {
    run(&rt)
}
