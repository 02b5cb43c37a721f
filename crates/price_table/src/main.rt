// Recomputes the yearly prices of the published table from its monthly energies and costs, and prints both side by side.
#![tactic(auto)]

ghost use Rattle.std.specs.Prelude.{◌≤◌, Ok, Err};

mod published;
mod yearly;

use published::{BEFORE_APPLICATION, FIRST_YEAR, Group, PRICES, STANDARD, TEMPERATURE, YEAR};
use units::PriceHundredths;
use yearly::yearly_price;

// Prints a group's prices, and returns how many agree.
fn print_group(rt: &impl Print, group: &Group) -> anyhow::Result<usize>
    ensures { elim result [ Ok agreeing ↦ agreeing ≤ 21 | Err e ↦ Unit {0} ] }
{
    let name = group.name;
    println!(rt; "{name}: month of application, price recomputed, price printed")?;
    let mut agreeing = 0;
    for (k, printed) in group.printed.iter().enumerate() {
        let price = yearly_price(&group.months[k..k + YEAR])?;
        print_price(rt, k + BEFORE_APPLICATION, price, *printed)?;
        if price.count() == i32::from(*printed) {
            agreeing += 1;
        }
    }
    Ok(agreeing)
}

// Prints the price of a month of application, counted from the first, beside the printed one, in hundredths.
fn print_price(
    rt: &impl Print,
    month: usize,
    price: PriceHundredths,
    printed: u16,
) -> anyhow::Result<()> {
    let year = FIRST_YEAR + month / 12;
    let place = month % 12 + 1;
    // by its digits, since nothing keeps a printed number within what a price holds
    let whole = printed / 100;
    let hundredths = printed % 100;
    let verdict = if price.count() == i32::from(printed) {
        "agree"
    } else {
        "differ"
    };
    println!(rt; "{year}-{place:02} {price} {whole}.{hundredths:02} {verdict}")?;
    Ok(())
}

fn run(rt: &impl Print) -> anyhow::Result<()> {
    let standard = print_group(rt, &STANDARD)?;
    let temperature = print_group(rt, &TEMPERATURE)?;
    let agreeing = standard + temperature;
    let all = 2 * PRICES;
    println!(rt; "{agreeing} of {all} agree")?;
    Ok(())
}

fn main(rt: HostRuntime) -> anyhow::Result<()> {
    run(&rt)
}
