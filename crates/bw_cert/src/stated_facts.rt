//! What the NODE, CHAIN and ROW lines of a certificate state.
ghost use Rattle.std.specs.Prelude.{◌≡◌, List, Result, true, false, IfErr, IsTrue};
ghost use Rattle.bw_model.specs.declared.fault.Fault.{Fault};
ghost use Rattle.bw_model.specs.Fault.{MatchesUnlessOom, is_memory, at_line, no_memory};
ghost use Rattle.bw_diagram.specs.Facts.{Facts, is_diagram_fault};
ghost use Rattle.bw_cert.specs.StatedFacts.{facts_stated, with_lines, with_node_line};
ghost use Rattle.bw_cert.specs.StatedFacts.{with_chain_line, with_product_line};

use bw_cert_text::{Certificate, ChainLine, NodeLine, ProductLine};
use bw_diagram::Diagram;
use bw_model::{Fault, Schema};
use std::alloc::Global;

/// Returns the nodes, chains and product rows that a certificate's lines state under a schema.
/// Errors: 601 to 604, the first line that breaks its rule or a limit; 801 if memory is refused.
pub(crate) fn diagram_of<'a>(
    alloc: Global,
    schema: &'a Schema,
    certificate: &Certificate<'_>,
) -> Result<Diagram<'a>, Fault>
    ensures stated { MatchesUnlessOom (λ diagram. diagram) result
        (facts_stated schema.now.columns.items certificate.now) }
    ensures code { IfErr result (λ fault. IsTrue (is_diagram_fault fault)) }
{
    let mut diagram = Diagram::new(alloc, schema);
    add_lines(&mut diagram, certificate.node_lines())?;
    add_lines(&mut diagram, certificate.chain_lines())?;
    add_lines(&mut diagram, certificate.product_lines())?;
    Ok(diagram)
}

/// A line that states a node, a chain or a product row.
trait StatedLine {
    /// The facts with what the line states, or its error.
    ghost with_line: { Facts → Self → Result Facts Fault };

    /// Adds what the line states.
    fn add_to(&self, diagram: &mut Diagram<'_>) -> Result<(), Fault>
        ensures stated { MatchesUnlessOom (λ _. diagram.new) result
            (with_line diagram.old self.now) }
        ensures code { IfErr result (λ fault. IsTrue (is_diagram_fault fault)) };
}

/// Adds what the lines state.
fn add_lines<L: StatedLine>(diagram: &mut Diagram<'_>, lines: &[L]) -> Result<(), Fault>
    ensures stated { MatchesUnlessOom (λ _. diagram.new) result
        (with_lines L.with_line diagram.old lines.now) }
    ensures code { IfErr result (λ fault. IsTrue (is_diagram_fault fault)) }
{
    for line in lines {
        line.add_to(diagram)?;
    }
    Ok(())
}

impl StatedLine for NodeLine {
    ghost with_line = { with_node_line };

    fn add_to(&self, diagram: &mut Diagram<'_>) -> Result<(), Fault> {
        match diagram.add_node(self.n, self.v, self.low, self.high) {
            Ok(()) => Ok(()),
            Err(fault) => Err(fault_on_line(fault, self.line)),
        }
    }
}

impl StatedLine for ChainLine<'_> {
    ghost with_line = { with_chain_line };

    fn add_to(&self, diagram: &mut Diagram<'_>) -> Result<(), Fault> {
        match diagram.add_chain(self.n, &self.columns) {
            Ok(()) => Ok(()),
            Err(fault) => Err(fault_on_line(fault, self.line)),
        }
    }
}

impl StatedLine for ProductLine {
    ghost with_line = { with_product_line };

    fn add_to(&self, diagram: &mut Diagram<'_>) -> Result<(), Fault> {
        match diagram.add_row(self.n, self.op, self.a, self.b, self.c, self.reason) {
            Ok(()) => Ok(()),
            Err(fault) => Err(fault_on_line(fault, self.line)),
        }
    }
}

/// Returns the error, which has no place yet, at this line. Out of memory stays without a place.
fn fault_on_line(fault: Fault, line: u64) -> Fault
    ensures memory { is_memory fault ≡ true → result ≡ fault }
    ensures line { is_memory fault ≡ false → result ≡ at_line fault.code line }
{
    if fault.is_memory() {
        fault
    } else {
        Fault::at_line(fault.code, line)
    }
}
