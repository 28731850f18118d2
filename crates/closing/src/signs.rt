//! Signs by which a round is known to have changed no entry of a node and no value of a point.

use alpha_set::NodeSet;
use controller::Certificate;
use point_set::PointSet;

/// How many members a certificate has, and the sums of their numbers. A round adds members, raises entries and lowers
/// values, so where it leaves these as they were it changed none. No promise is made of it: it only saves rounds.
#[derive(Clone, Copy, PartialEq, Eq)]
pub struct Signs {
    /// How many nodes there are.
    nodes: u32,
    /// How many points there are.
    points: u32,
    /// The sum of the entries of all nodes.
    entries: i128,
    /// The sum of the values of all points.
    values: i128,
}

impl Signs {
    /// The signs of a certificate's members.
    pub fn of(certificate: &Certificate) -> Signs {
        Signs {
            nodes: certificate.nodes.len(),
            points: certificate.points.len(),
            entries: sum_of_entries(&certificate.nodes),
            values: sum_of_values(&certificate.points),
        }
    }
}

/// The sum of the entries of all nodes.
fn sum_of_entries(nodes: &NodeSet) -> i128 {
    let mut sum: i128 = 0;
    for number in 0..nodes.len() {
        sum = sum.wrapping_add(sum_of(&nodes.node(number).vector));
    }
    sum
}

/// The sum of a vector's entries.
fn sum_of(vector: &[i128]) -> i128 {
    let mut sum: i128 = 0;
    for entry in vector {
        sum = sum.wrapping_add(*entry);
    }
    sum
}

/// The sum of the values of all points.
fn sum_of_values(points: &PointSet) -> i128 {
    let mut sum: i128 = 0;
    for number in 0..points.len() {
        sum = sum.wrapping_add(points.point(number).value);
    }
    sum
}
