// The powder tariff: the price of a surface's exact volume.
#![tactic(auto)]

ghost use Rattle.std.specs.Prelude.{◌≡◌, ◌^◌, ◌<◌};
ghost use Rattle.volume.specs.Exact.{six_in};
ghost use Rattle.price.specs.Price.{started, amount};
ghost use Rattle.price.specs.Tariff.{rising?, capped?, tariff?};
ghost use Rattle.price.specs.Quote.{Quoted};
ghost use Rattle.price.specs.Stages.{by_cubes, Costable};

use questions::Refusal;
use surface::Mesh;
use volume::Sixfold;

// Whether each value is greater than the one before it.
fn rising(uppers: &[u64]) -> bool
    ensures { result ≡ rising? uppers.now }
{
    uppers.is_sorted_by(|a, b| *a < *b)
}

// Whether no price is above 100,000.
fn capped(prices: &[u64]) -> bool
    ensures { result ≡ capped? prices.now }
{
    prices.iter().all(|price| *price <= 100000)
}

// Whether the lists keep the rules of a price sheet. (Two lists and no struct of them: two functions read one each.)
fn is_tariff(uppers: &[u64], prices: &[u64]) -> bool
    ensures { result ≡ tariff? uppers.now prices.now }
{
    if prices.is_empty() {
        return false;
    }
    if uppers.len() != prices.len() - 1 {
        return false;
    }
    if prices.len() > 8 {
        return false;
    }
    if !rising(uppers) {
        return false;
    }
    capped(prices)
}

// How many unit cubes a volume starts, by six times it: a unit cube is 3 * 2^31 of that.
fn started_cubes(six: Sixfold) -> u64
    requires { six.low < 2 ^ 31 }
    ensures { result ≡ started (amount (six_in six)) }
{
    if six.high < 0 {
        return 0;
    }
    let high = six.high as u64;
    if six.low == 0 {
        return (high + 2) / 3;
    }
    (high + 3) / 3
}

// The sum over the steps: each takes the cubes up to its upper volume that the steps before it left.
fn cost(cubes: u64, uppers: &[u64], prices: &[u64]) -> u64
    requires { Costable cubes uppers.now prices.now }
    ensures { result ≡ by_cubes cubes 0 uppers.now prices.now }
{
    let mut sum = 0;
    let mut lower = 0;
    for k in 0..uppers.len() {
        let reach = cubes.min(uppers[k]);
        sum += prices[k] * (reach - lower);
        lower = reach;
    }
    sum + prices[uppers.len()] * (cubes - lower)
}

// The price of a surface, in cents: checking's questions, then 47.
pub fn price(mesh: &Mesh, work: &mut [u32], uppers: &[u64], prices: &[u64]) -> Result<u64, Refusal>
    ensures { Quoted mesh.now.points.now mesh.now.corners.now mesh.now.labels.now work.old work.new uppers.now prices.now result }
{
    checking::validate(mesh, work)?;
    if !units::on_units(mesh.points) {
        return Err(Refusal::Tariff); // a coordinate
    }
    if !is_tariff(uppers, prices) {
        return Err(Refusal::Tariff); // the price sheet
    }
    let cubes = started_cubes(volume::exact(mesh.points, mesh.corners));
    Ok(cost(cubes, uppers, prices))
}
