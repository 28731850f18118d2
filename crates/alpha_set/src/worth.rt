//! What nodes are worth at a mass.

ghost use Rattle.alpha_set.specs.Members.{data_of, most_nodes, node_data};
ghost use Rattle.alpha_set.specs.Products.{AreNarrow, AreShort, CanMultiply, HaveNarrowEntries, IsFirstBest, IsGathered, node_product_of, product_of};
ghost use Rattle.alpha_set.specs.Worth.{AreWeighed, IsWorth, worth_at};
ghost use Rattle.std.specs.Bool.{IsTrue};
ghost use Rattle.std.specs.List.{AllByRecursion};
ghost use Rattle.std.specs.Prelude.{[], length, pos, take, ◌↔◌, ◌∷◌, ◌≡◌, ◌≤ℤ◌, ◌≤◌};

use crate::nodes::Node;
use game_model::MOST_STATES;

/// Narrow numbers are below this in magnitude. Two of them are multiplied by one multiplication of 64-bit numbers.
const NARROW: i128 = 1 << 63;

/// A state that has mass, and how much.
#[derive(Clone, Copy)]
struct Portion {
    state: usize,
    mass: i128,
}

/// Whether all numbers are narrow.
pub fn are_narrow(numbers: &[i128]) -> bool
    ensures { IsTrue result ↔ AreNarrow numbers.now }
{
    numbers
        .iter()
        .all(|number| -NARROW < *number && *number < NARROW)
}

/// The greatest product of a node's vector with a mass, and the first node that has it. It is found sooner where all
/// entries are known to be narrow.
pub fn greatest(nodes: &[Node], narrow: bool, mass: &[i128]) -> (i128, u32)
    requires some { 1 ≤ length nodes.now }
    requires few { length nodes.now ≤ most_nodes }
    requires narrow { IsTrue narrow → HaveNarrowEntries (data_of nodes.now) }
    requires weighed { AreWeighed (data_of nodes.now) mass.now }
    ensures { IsWorth (data_of nodes.now) mass.now result.0 result.1 }
{
    let mut portions = [Portion { state: 0, mass: 0 }; MOST_STATES];
    let count = gather(mass, &mut portions);
    let short = narrow && are_narrow(mass);
    first_greatest(nodes, &portions[..count], short)
}

/// The product of a node's vector with a mass.
pub fn node_worth(node: &Node, mass: &[i128]) -> i128
    requires { AreWeighed (node_data node.now ∷ []) mass.now }
    ensures { result ≡ worth_at mass.now (node_data node.now).vector }
{
    let mut portions = [Portion { state: 0, mass: 0 }; MOST_STATES];
    let count = gather(mass, &mut portions);
    wide_product(&portions[..count], &node.vector)
}

/// Writes the states that have mass to the front, in order, and answers how many they are.
fn gather(mass: &[i128], portions: &mut [Portion]) -> usize
    requires room { length mass.now ≤ length portions.old }
    requires mass { AllByRecursion (λ x. pos 0 ≤ℤ x) mass.now }
    ensures count { result ≤ length portions.new }
    ensures gathered { IsGathered mass.now (length mass.now) (take result portions.new) }
{
    let mut count = 0;
    for (state, weight) in mass.iter().enumerate() {
        if *weight != 0 {
            portions[count] = Portion {
                state,
                mass: *weight,
            };
            count += 1;
        }
    }
    count
}

/// The greatest product of a node's vector with portions, and the first node that has it.
fn first_greatest(nodes: &[Node], portions: &[Portion], short: bool) -> (i128, u32)
    requires some { 1 ≤ length nodes.now }
    requires few { length nodes.now ≤ most_nodes }
    requires each { AllByRecursion (λ node. CanMultiply portions.now node.vector) (data_of nodes.now) }
    requires short { IsTrue short → AllByRecursion (λ node. AreShort portions.now node.vector) (data_of nodes.now) }
    ensures { IsFirstBest (node_product_of (data_of nodes.now) portions.now) (length nodes.now) result.0 result.1 }
{
    let mut best = product(portions, &nodes[0].vector, short);
    let mut first = 0;
    for i in 1..nodes.len() {
        let worth = product(portions, &nodes[i].vector, short);
        if worth > best {
            best = worth;
            first = i;
        }
    }
    (best, first as u32)
}

/// The sum over the portions of the mass times the entry of the state, the short way where all these are narrow.
fn product(portions: &[Portion], vector: &[i128], short: bool) -> i128
    requires fits { CanMultiply portions.now vector.now }
    requires short { IsTrue short → AreShort portions.now vector.now }
    ensures { result ≡ product_of portions.now vector.now }
{
    if short {
        short_product(portions, vector)
    } else {
        wide_product(portions, vector)
    }
}

/// The sum over the portions of the mass times the entry of the state, where all these are narrow.
fn short_product(portions: &[Portion], vector: &[i128]) -> i128
    requires fits { CanMultiply portions.now vector.now }
    requires short { AreShort portions.now vector.now }
    ensures { result ≡ product_of portions.now vector.now }
{
    let mut sum = 0;
    for portion in portions {
        sum += i128::from(portion.mass as i64) * i128::from(vector[portion.state] as i64);
    }
    sum
}

/// The sum over the portions of the mass times the entry of the state.
fn wide_product(portions: &[Portion], vector: &[i128]) -> i128
    requires { CanMultiply portions.now vector.now }
    ensures { result ≡ product_of portions.now vector.now }
{
    let mut sum = 0;
    for portion in portions {
        sum += portion.mass * vector[portion.state];
    }
    sum
}
