//! Truth pairs, and the nodes that a line takes from the product rows that it references.
ghost use Rattle.std.specs.Prelude.{◌≡◌};
ghost use Rattle.bw_cert_rules.specs.Comparison.{constant_pair};
ghost use Rattle.bw_cert_rules.specs.Rows.{if_both, null_pair, value_node};

use bw_diagram::{Connective, Diagram, TruthPair};
use bw_model::Truth;

/// The truth pair of a condition: the node that is 1 if it is TRUE, and the node that is 1 if it is
/// FALSE.
pub type TruthNodes = TruthPair<u64>;

/// Returns the truth pair of a step with the same truth on every row.
pub(crate) fn constant_pair(truth: Truth) -> TruthNodes
    ensures { result ≡ constant_pair truth }
{
    match truth {
        Truth::Yes => TruthPair::of(1, 0),
        Truth::No => TruthPair::of(0, 1),
        Truth::Unknown => TruthPair::of(0, 0),
    }
}

/// Returns the truth pair of two nodes, if there are both.
pub(crate) fn if_both(yes: Option<u64>, no: Option<u64>) -> Option<TruthNodes>
    ensures { result ≡ if_both yes no }
{
    match (yes, no) {
        (Some(yes), Some(no)) => Some(TruthPair::of(yes, no)),
        _ => None,
    }
}

/// Returns the truth pair of a null test, from the product row of a number, if it is the null test
/// of a column with this null variable.
pub(crate) fn null_pair(diagram: &Diagram<'_>, variable: u32, number: u64) -> Option<TruthNodes>
    ensures { result ≡ null_pair diagram.now variable number }
{
    let null = u64::from(diagram.row(number)?.b);
    if_both(
        diagram.variable_node(variable, null),
        diagram.product_node(Connective::Diff, 1, null, number),
    )
}

/// Returns the node that is 1 if a column with this null variable has a value, which the line
/// references by the number of a product row. It is 1, for `-`, if the column has no null variable.
pub(crate) fn value_node(
    diagram: &Diagram<'_>,
    variable: Option<u32>,
    number: Option<u64>,
) -> Option<u64>
    ensures { result ≡ value_node diagram.now variable number }
{
    match (variable, number) {
        (None, None) => Some(1),
        (Some(variable), Some(number)) => match null_pair(diagram, variable, number) {
            Some(pair) => Some(pair.no),
            None => None,
        },
        _ => None,
    }
}
