//! A certificate in the making, and what one more line adds to it.
ghost use Rattle.std.specs.Prelude.{◌≡◌, [], ◌∷◌, pos, OnOk, IfOk, IfErr};
ghost use Rattle.cert_text.specs.declared.fault.CertFault.TheVariants as certs;
ghost use Rattle.cert_text.specs.Made.{blank, new_point, with_belief, with_entry, with_mix, with_row, with_share, with_step, with_value, with_vector};
ghost use Rattle.cert_text.specs.Draft.{LastNodeIs, LastSpotIs, draft_data, spot_data};
ghost use Rattle.alpha_set.specs.Members.{node_data};
ghost use Rattle.alpha_set.specs.Nodes.{no_node};
ghost use Rattle.cert_text.specs.View.{entry_in};
ghost use Rattle.game_model.specs.Branches.{branch_of};

use crate::fault::CertFault;
use crate::progress::{Entry, Limits};
use alpha_set::Node;
use controller::Outcome;
use game_model::Branch;
use std::alloc::{AllocError, AllocFailed, Global};

/// A point in the making.
#[derive(Drop)]
pub struct Spot {
    pub belief: Vec<i128>,
    pub value: i128,
    pub states: u32,
    pub actions: u32,
    /// The weights of the mixes, by state and then by informed action.
    pub weights: Vec<i128>,
    pub splits: Vec<Branch>,
}

/// A certificate in the making.
#[derive(Drop)]
pub struct Draft {
    pub lower: (i128, i128),
    pub upper: (i128, i128),
    pub tail: (i128, i128),
    pub gap: (i128, i128),
    pub outcome: Outcome,
    pub nodes: Vec<Node>,
    pub points: Vec<Spot>,
    /// Start nodes and start points with their weights, by rising number.
    pub start_nodes: Vec<(u32, i128)>,
    pub start_points: Vec<(u32, i128)>,
    /// The multiple of the first belief.
    pub multiple: i128,
}

/// Before the first line.
pub fn blank(alloc: Global) -> Draft
    ensures { draft_data result ≡ blank }
{
    Draft {
        lower: (0, 0),
        upper: (0, 0),
        tail: (0, 0),
        gap: (0, 0),
        outcome: Outcome::Closed,
        nodes: Vec::new(alloc),
        points: Vec::new(alloc),
        start_nodes: Vec::new(alloc),
        start_points: Vec::new(alloc),
        multiple: 0,
    }
}

fn set_vector(nodes: &mut Vec<Node>, vector: Vec<i128>)
    ensures { LastNodeIs nodes.old.items nodes.new.items (with_vector vector.items) }
{
    if let Some(node) = nodes.last_mut() {
        node.vector = vector;
    }
}

fn set_mix(nodes: &mut Vec<Node>, mix: Vec<i128>)
    ensures { LastNodeIs nodes.old.items nodes.new.items (with_mix mix.items) }
{
    if let Some(node) = nodes.last_mut() {
        node.mix = mix;
    }
}

fn add_step(nodes: &mut Vec<Node>, b: Branch) -> Result<(), AllocFailed<Branch>>
    ensures { OnOk result (LastNodeIs nodes.old.items nodes.new.items (with_step (branch_of b))) }
{
    if let Some(node) = nodes.last_mut() {
        node.next.push(b)?;
    }
    Ok(())
}

fn set_belief(points: &mut Vec<Spot>, belief: Vec<i128>)
    ensures { LastSpotIs points.old.items points.new.items (with_belief belief.items) }
{
    if let Some(point) = points.last_mut() {
        point.belief = belief;
    }
}

fn set_value(points: &mut Vec<Spot>, value: i128)
    ensures { LastSpotIs points.old.items points.new.items (with_value value) }
{
    if let Some(point) = points.last_mut() {
        point.value = value;
    }
}

fn add_weights(points: &mut Vec<Spot>, weights: &[i128]) -> Result<(), AllocError>
    ensures { OnOk result (LastSpotIs points.old.items points.new.items (with_row weights.now)) }
{
    if let Some(point) = points.last_mut() {
        point.weights.extend_from_slice(weights)?;
    }
    Ok(())
}

fn add_share(points: &mut Vec<Spot>, b: Branch) -> Result<(), AllocFailed<Branch>>
    ensures { OnOk result (LastSpotIs points.old.items points.new.items (with_share (branch_of b))) }
{
    if let Some(point) = points.last_mut() {
        point.splits.push(b)?;
    }
    Ok(())
}

/// A node with nothing said yet.
fn new_node(alloc: Global) -> Node
    ensures { node_data result ≡ no_node }
{
    Node {
        vector: Vec::new(alloc),
        mix: Vec::new(alloc),
        next: Vec::new(alloc),
    }
}

/// A point with nothing said yet.
fn new_spot(alloc: Global, limits: &Limits) -> Spot
    ensures { spot_data result ≡ new_point limits.now }
{
    Spot {
        belief: Vec::new(alloc),
        value: 0,
        states: limits.states,
        actions: limits.informed_actions,
        weights: Vec::new(alloc),
        splits: Vec::new(alloc),
    }
}

/// The one start, of weight 1.
fn sole(alloc: Global, member: u32) -> Result<Vec<(u32, i128)>, AllocFailed<(u32, i128)>>
    ensures { IfOk result (λ starts. starts.items ≡ (member, pos 1) ∷ []) }
{
    let mut starts = Vec::new(alloc);
    starts.push((member, 1))?;
    Ok(starts)
}

/// Takes what one more line says.
pub fn take(
    alloc: Global,
    limits: &Limits,
    draft: &mut Draft,
    entry: Entry,
) -> Result<(), CertFault>
    ensures memory { IfErr result (λ fault. fault ≡ certs.OutOfMemory) }
    ensures taken { OnOk result (draft_data draft.new ≡ with_entry limits.now (draft_data draft.old) (entry_in entry)) }
{
    match entry {
        Entry::Version(_) | Entry::Sizes(_, _) | Entry::End => {}
        Entry::Outcome(outcome) => draft.outcome = outcome,
        Entry::Gap(num, den) => draft.gap = (num, den),
        Entry::Lower(num, den) => draft.lower = (num, den),
        Entry::Upper(num, den) => draft.upper = (num, den),
        Entry::Tail(num, den) => draft.tail = (num, den),
        Entry::Start(node, point) => {
            draft.start_nodes = sole(alloc, node)?;
            draft.start_points = sole(alloc, point)?;
            draft.multiple = 1;
        }
        Entry::Multiple(multiple) => draft.multiple = multiple,
        Entry::From(node, weight) => draft.start_nodes.push((node, weight))?,
        Entry::Over(point, weight) => draft.start_points.push((point, weight))?,
        Entry::Node(_) => draft.nodes.push(new_node(alloc))?,
        Entry::Vector(entries) => set_vector(&mut draft.nodes, entries),
        Entry::Mix(weights) => set_mix(&mut draft.nodes, weights),
        Entry::Next(b) => add_step(&mut draft.nodes, b)?,
        Entry::Point(_) => draft.points.push(new_spot(alloc, limits))?,
        Entry::Belief(parts) => set_belief(&mut draft.points, parts),
        Entry::Value(value) => set_value(&mut draft.points, value),
        Entry::Mixes(_, weights) => add_weights(&mut draft.points, &weights)?,
        Entry::Split(b) => add_share(&mut draft.points, b)?,
    }
    Ok(())
}
