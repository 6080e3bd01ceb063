//! Decision diagrams as certificates reference them: nodes, chains and product rows, each true of
//! every assignment of bits to the variables of a schema.
//!
//! The contract that the crates above use: a [`Diagram`] has a list of nodes, one of chains and one
//! of product rows. [`Diagram::add_node`], [`Diagram::add_chain`] and [`Diagram::add_row`] accept a
//! line if and only if it satisfies the rule that `specs/Facts.antt` states on these lists. By the
//! laws [`Diagram::chains_are_true`] and [`Diagram::products_are_true`], the accepted facts are
//! true of every assignment. Variables may be tested in any order.
//!
//! The diagrams and the products of nodes are those of Bryant (Graph-Based Algorithms for Boolean
//! Function Manipulation, 1986). The chains and the rules of lines are this project's own. Read
//! `diagram.rt` first, then `specs/Facts.antt`.
#![tactic(auto)]

mod chain;
mod comparison;
mod diagram;
mod node;
mod product;
mod references;
mod truth_pair;

pub use chain::{Chain, ChainColumns, ChainKind};
pub use comparison::{ColumnComparison, LiteralComparison};
pub use diagram::{
    Diagram, accepted_lines_are_true, later_nodes_change_no_value, whole_columns_are_spelled,
};
pub use node::Node;
pub use product::{Connective, Product, Reason};
pub use references::cited_nodes_have_stated_values;
pub use truth_pair::TruthPair;
