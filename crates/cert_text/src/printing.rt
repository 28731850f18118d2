//! The text of a certificate, printed.
ghost use Rattle.std.specs.Prelude.{◌≡◌, ◌<◌, [], ◌∷◌, flat_map, map, pos, IfOk, OnOk};
ghost use Rattle.scaled_num.specs.Sums.{below};
ghost use Rattle.game_model.specs.Branches.{branch_of};
ghost use Rattle.alpha_set.specs.Members.{node_data};
ghost use Rattle.controller.specs.Certificates.{CertificateFits};
ghost use Rattle.controller.specs.Data.{ending_of, fraction_data};
ghost use Rattle.point_set.specs.Members.{point_data};
ghost use Rattle.cert_text.specs.Text.{branch_line, certificate_text, first_text, fraction_line, head_text, mix_text, node_text, nodes_text, numbers_text, outcome_word, point_text, points_text, start_line, starts_in, starts_text, version_word, weighted_text, weights_text};
ghost use Rattle.text_words.specs.Spelled.{line_of};
ghost use Rattle.cert_text.specs.Printed.{Adds};

use alpha_set::{Node, NodeSet};
use belief::Mixes;
use controller::{Certificate, Outcome};
use game_model::{Branch, Game};
use point_set::{Point, PointSet};
use scaled_num::Fraction;
use std::alloc::{AllocError, Global};

/// Writes numbers, a space before each.
fn numbers(text: &mut String, numbers: &[i128]) -> Result<(), AllocError>
    ensures { OnOk result (Adds text.old text.new (numbers_text numbers.now)) }
{
    for number in numbers {
        write!(text, " {number}")?;
    }
    Ok(())
}

/// Writes a line: its first word, and its numbers.
fn line(text: &mut String, name: &str, members: &[i128]) -> Result<(), AllocError>
    ensures { OnOk result (Adds text.old text.new (line_of name.now members.now)) }
{
    text.push_str(name)?;
    numbers(text, members)?;
    text.push('\n')
}

/// Writes the line of a fraction.
fn fraction_line(text: &mut String, name: &str, fraction: &Fraction) -> Result<(), AllocError>
    ensures { OnOk result (Adds text.old text.new (fraction_line name.now (fraction_data fraction.now))) }
{
    writeln!(text, "{name} {}/{}", fraction.num, fraction.den)
}

/// The word of an outcome.
fn outcome_word(outcome: Outcome) -> &'static str
    ensures { result.now ≡ outcome_word (ending_of outcome) }
{
    match outcome {
        Outcome::Closed => "closed",
        Outcome::Trials => "trials",
        Outcome::Full => "full",
    }
}

/// Writes the line of a branch under a name.
fn branch_line(text: &mut String, name: &str, branch: &Branch) -> Result<(), AllocError>
    ensures { OnOk result (Adds text.old text.new (branch_line name.now (branch_of branch.now))) }
{
    line(
        text,
        name,
        &[
            i128::from(branch.a),
            i128::from(branch.o),
            i128::from(branch.k),
            branch.weight,
        ],
    )
}

/// Writes the lines of branches under a name.
fn branch_lines(text: &mut String, name: &str, branches: &[Branch]) -> Result<(), AllocError>
    ensures { OnOk result (Adds text.old text.new (flat_map (branch_line name.now) (map branch_of branches.now))) }
{
    for branch in branches {
        branch_line(text, name, branch)?;
    }
    Ok(())
}

/// Writes the lines of the node of this number.
fn node_lines(text: &mut String, i: u32, node: &Node) -> Result<(), AllocError>
    ensures { OnOk result (Adds text.old text.new (node_text i (node_data node.now))) }
{
    line(text, "node", &[i128::from(i)])?;
    line(text, "vector", &node.vector)?;
    line(text, "mix", &node.mix)?;
    branch_lines(text, "next", &node.next)
}

/// Writes the lines of nodes.
fn nodes_lines(text: &mut String, nodes: &NodeSet) -> Result<(), AllocError>
    ensures { OnOk result (Adds text.old text.new (nodes_text nodes.now.members)) }
{
    for i in 0..nodes.len() {
        node_lines(text, i, nodes.node(i))?;
    }
    Ok(())
}

/// Writes the weights of a state's mix, a space before each.
fn weights(text: &mut String, mixes: &Mixes, s: u32) -> Result<(), AllocError>
    requires { s < mixes.now.states }
    ensures { OnOk result (Adds text.old text.new (weights_text mixes.now s)) }
{
    for c in 0..mixes.actions() {
        write!(text, " {}", mixes.get(s, c))?;
    }
    Ok(())
}

/// Writes the line of a state's mix.
fn mix_line(text: &mut String, mixes: &Mixes, s: u32) -> Result<(), AllocError>
    requires { s < mixes.now.states }
    ensures { OnOk result (Adds text.old text.new (mix_text mixes.now s)) }
{
    write!(text, "mix {s}")?;
    weights(text, mixes, s)?;
    text.push('\n')
}

/// Writes the lines of the mixes of all states.
fn mix_lines(text: &mut String, mixes: &Mixes) -> Result<(), AllocError>
    ensures { OnOk result (Adds text.old text.new (flat_map (mix_text mixes.now) (below mixes.now.states))) }
{
    for s in 0..mixes.states() {
        mix_line(text, mixes, s)?;
    }
    Ok(())
}

/// Writes the lines of the point of this number.
fn point_lines(text: &mut String, j: u32, point: &Point) -> Result<(), AllocError>
    ensures { OnOk result (Adds text.old text.new (point_text j (point_data point.now))) }
{
    line(text, "point", &[i128::from(j)])?;
    line(text, "belief", point.belief.parts())?;
    line(text, "value", &[point.value])?;
    mix_lines(text, &point.mixes)?;
    branch_lines(text, "split", &point.splits)
}

/// Writes the lines of points.
fn points_lines(text: &mut String, points: &PointSet) -> Result<(), AllocError>
    ensures { OnOk result (Adds text.old text.new (points_text points.now.members)) }
{
    for j in 0..points.len() {
        point_lines(text, j, points.point(j))?;
    }
    Ok(())
}

/// Writes a line of two numbers.
fn pair_line(text: &mut String, name: &str, first: u32, second: u32) -> Result<(), AllocError>
    ensures { OnOk result (Adds text.old text.new (line_of name.now (pos first ∷ pos second ∷ []))) }
{
    line(text, name, &[i128::from(first), i128::from(second)])
}

/// Writes the first two lines.
fn first_lines(text: &mut String, version: &str, outcome: Outcome) -> Result<(), AllocError>
    ensures { OnOk result (Adds text.old text.new (first_text version.now (ending_of outcome))) }
{
    writeln!(
        text,
        "certificate {version}\noutcome {}",
        outcome_word(outcome)
    )
}

/// The version of the text: 1 for one start node and one start point, 2 for every other certificate.
fn version(certificate: &Certificate) -> &'static str
    ensures { result.now ≡ version_word certificate.now.start_nodes certificate.now.start_points }
{
    if certificate.start_nodes.len() == 1 && certificate.start_points.len() == 1 {
        "1"
    } else {
        "2"
    }
}

/// Writes the line of a start.
fn start_line(text: &mut String, name: &str, start: &(u32, i128)) -> Result<(), AllocError>
    ensures { OnOk result (Adds text.old text.new (start_line name.now start.now)) }
{
    line(text, name, &[i128::from(start.0), start.1])
}

/// Writes the lines of starts under a name.
fn start_lines(text: &mut String, name: &str, starts: &[(u32, i128)]) -> Result<(), AllocError>
    ensures { OnOk result (Adds text.old text.new (flat_map (start_line name.now) starts.now)) }
{
    for start in starts {
        start_line(text, name, start)?;
    }
    Ok(())
}

/// Writes the lines of starts of version 2.
fn weighted_lines(
    text: &mut String,
    nodes: &[(u32, i128)],
    points: &[(u32, i128)],
    multiple: i128,
) -> Result<(), AllocError>
    ensures { OnOk result (Adds text.old text.new (weighted_text nodes.now points.now multiple)) }
{
    line(text, "multiple", &[multiple])?;
    start_lines(text, "from", nodes)?;
    start_lines(text, "over", points)
}

/// Writes the lines of the starts.
fn starts_lines(
    text: &mut String,
    nodes: &[(u32, i128)],
    points: &[(u32, i128)],
    multiple: i128,
) -> Result<(), AllocError>
    ensures { OnOk result (Adds text.old text.new (starts_text nodes.now points.now multiple)) }
{
    if nodes.len() == 1 && points.len() == 1 {
        pair_line(text, "start", nodes[0].0, points[0].0)
    } else {
        weighted_lines(text, nodes, points, multiple)
    }
}

/// Writes the lines of a certificate's starts.
fn certificate_starts(text: &mut String, certificate: &Certificate) -> Result<(), AllocError>
    ensures { OnOk result (Adds text.old text.new (starts_in certificate.now)) }
{
    starts_lines(
        text,
        &certificate.start_nodes,
        &certificate.start_points,
        certificate.multiple,
    )
}

/// Writes the lines before the nodes.
fn head_lines(text: &mut String, certificate: &Certificate) -> Result<(), AllocError>
    ensures { OnOk result (Adds text.old text.new (head_text certificate.now)) }
{
    first_lines(text, version(certificate), certificate.outcome)?;
    fraction_line(text, "gap", &certificate.gap)?;
    fraction_line(text, "lower", &certificate.lower)?;
    fraction_line(text, "upper", &certificate.upper)?;
    fraction_line(text, "tail", &certificate.tail)?;
    pair_line(
        text,
        "sizes",
        certificate.nodes.len(),
        certificate.points.len(),
    )?;
    certificate_starts(text, certificate)
}

/// The one text of a certificate that fits the game: of version 1 for one start node and one start point, of version
/// 2 for every other certificate. Where it has at most 2^27 bytes, `read` for that game accepts it
/// and answers the certificate again: by `law_read` no line of it is refused, and by `law_one` it is the text of no
/// other certificate.
///
/// # Errors
///
/// `AllocError` where there is not enough memory.
pub fn print(alloc: Global, game: &Game, certificate: &Certificate) -> Result<Vec<u8>, AllocError>
    requires { CertificateFits game.now certificate.now }
    ensures { IfOk result (λ text. text.items ≡ certificate_text certificate.now) }
{
    let mut text = String::new(alloc);
    head_lines(&mut text, certificate)?;
    nodes_lines(&mut text, &certificate.nodes)?;
    points_lines(&mut text, &certificate.points)?;
    line(&mut text, "end", &[])?;
    Ok(text.into_bytes())
}
