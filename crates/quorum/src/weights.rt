//! A rule by weights.
ghost use Rattle.std.specs.Prelude.{◌≡◌, ◌*◌, ◌<◌, ◌≤◌, length, take, is_ok, IfOk};
ghost use Rattle.quorum.specs.Rules.{weight, total, heavy, light, are_weights};
ghost use Rattle.quorum.specs.Weighing.{front_fits, heavy_shares, heavy_grows, heavy_whole};

use super::{CannotBeMade, ProcessSet, QuorumRule};

// The most that one process may weigh.
const MAX_WEIGHT: u32 = 99;

// A set is enough when twice its weight exceeds the weight of all n processes. The weights are the first n
// of nine places: a rule is copied, and there is no heap.
#[derive(Clone, Copy)]
pub struct Weights {
    n: u32,
    each: [u8; 9],
    ghost low: { 1 ≤ n },
    ghost high: { n ≤ 9 },
    ghost heavy: { 0 < total (take n each) },
}

// What the members of the set weigh together. By products: a `filter` branches on each process, which costs twice
// as much.
fn weigh(weights: &[u8], set: &ProcessSet) -> u32
    requires { length weights.now ≤ 9 }
    ensures { result ≡ weight weights.now set.now }
{
    weights
        .iter()
        .zip(&set[..weights.len()])
        .map(|(w, member)| u32::from(*w) * u32::from(*member))
        .sum()
}

// What all of them weigh together.
fn weigh_all(weights: &[u8]) -> u32
    requires { length weights.now ≤ 9 }
    ensures { result ≡ total weights.now }
{
    weights.iter().map(|w| u32::from(*w)).sum()
}

// The weights in nine places, of which none may be above 99.
fn to_places(weights: &[u32]) -> Result<[u8; 9], CannotBeMade>
    requires { length weights.now ≤ 9 }
    ensures test { is_ok result ≡ light weights.now }
    ensures kept { IfOk result (λ each. take (length weights.now) each ≡ weights.now) }
{
    let mut each = [0; 9];
    // By the index: after a loop over `each.iter_mut()` that is zipped, nothing is known of the places.
    for (i, w) in weights.iter().enumerate() {
        if *w > MAX_WEIGHT {
            return Err(CannotBeMade);
        }
        each[i] = *w as u8;
    }
    Ok(each)
}

impl Weights {
    // The rule by these weights, a process for each of them: 1 to 9 weights of 0 to 99 that are not all 0.
    pub fn new(weights: &[u32]) -> Result<Weights, CannotBeMade>
        ensures test { is_ok result ≡ are_weights weights.now }
        ensures kept { IfOk result (λ x. (x.n ≡ length weights.now) × (take x.n x.each ≡ weights.now)) }
    {
        if !(1..=9).contains(&weights.len()) {
            return Err(CannotBeMade);
        }
        let each = to_places(weights)?;
        if weigh_all(&each[..weights.len()]) == 0 {
            return Err(CannotBeMade);
        }
        Ok(Weights {
            n: weights.len() as u32,
            each,
        })
    }

    // The weights, a process for each of them.
    fn as_slice(&self) -> &[u8]
        ensures { result.now ≡ take self.now.n self.now.each }
    {
        &self.each[..self.n as usize]
    }
}

impl QuorumRule for Weights {
    ghost processes = { λ x. x.n };

    ghost quorum = { λ x. heavy (take x.n x.each) };

    ghost sized = { λ x. (x.low, x.high) };

    ghost shares = { λ x. heavy_shares x.n (take x.n x.each) (front_fits x.n x.each) };

    ghost grows = { λ x. heavy_grows x.n (take x.n x.each) (front_fits x.n x.each) };

    ghost whole = { λ x. heavy_whole x.n (take x.n x.each) (front_fits x.n x.each) x.heavy };

    fn size(&self) -> u32 {
        self.n
    }

    fn enough(&self, set: &ProcessSet) -> bool {
        let weights = self.as_slice();
        weigh_all(weights) < 2 * weigh(weights, set)
    }
}
