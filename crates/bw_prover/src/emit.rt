//! Certificates, from facts and the lines that reference them.
ghost use Rattle.std.specs.Prelude.{◌≡◌, IsTrue, IfOk, length};
ghost use Rattle.bw_cert_text.specs.CertificateFields.{certificate_fields};
ghost use Rattle.bw_cert_text.specs.Columns.{has_columns, is_column};
ghost use Rattle.bw_prover.specs.ChainNames.{is_chain_named, are_chains_named};

use crate::chain::Link;
use crate::facts::Facts;
use crate::unproved::Unproved;
use bw_cert_text::{Body, Certificate, ChainLine, EndLine};
use bw_diagram::ChainColumns;
use bw_model::Schema;
use std::alloc::Global;

/// The number of every line: a certificate that isn't read from a file has no lines there.
pub(crate) const NO_LINE: u64 = 0;

/// Returns the certificate of facts and the lines that reference them, which `row` ends.
pub(crate) fn certificate<'a>(
    schema: &'a Schema,
    facts: Facts<'_>,
    body: Body,
    row: u64,
) -> Result<Certificate<'a>, Unproved>
    ensures columns { IfOk result (λ certificate.
        IsTrue (has_columns schema.now.columns.items (certificate_fields certificate))) }
    ensures rows { IfOk result (λ certificate.
        length certificate.products ≡ facts.entry.products.count) }
{
    let chains = chain_lines(facts.alloc, schema, &facts.chains.entries)?;
    let nodes = facts.nodes.lines(facts.alloc)?;
    let products = facts.products;
    let end = EndLine { line: NO_LINE, row };
    Ok(Certificate::new(nodes, chains, products.entries, body, end))
}

/// Returns the lines of chains.
fn chain_lines<'a>(
    alloc: Global,
    schema: &'a Schema,
    chains: &[Link],
) -> Result<Vec<ChainLine<'a>>, Unproved>
    ensures { IfOk result (λ lines. IsTrue
        (are_chains_named schema.now.columns.items lines.items)) }
{
    let mut lines = Vec::with_capacity(alloc, chains.len())?;
    for (number, link) in chains.iter().enumerate() {
        lines.push(chain_line(schema, number as u64, *link)?)?;
    }
    Ok(lines)
}

/// Returns the line of a chain.
fn chain_line(schema: &Schema, n: u64, link: Link) -> Result<ChainLine<'_>, Unproved>
    ensures { IfOk result (λ line. IsTrue (is_chain_named schema.now.columns.items line)) }
{
    let left = name(schema, link.left)?;
    let columns = match link.right {
        None => ChainColumns::One {
            kind: link.kind,
            column: left,
            start: 8 * u64::from(link.slice),
            len: link.len.into(),
            bound: link.bound,
            node: link.node,
            prev: link.prev,
        },
        Some(right) => ChainColumns::Two {
            kind: link.kind,
            left,
            right: name(schema, right)?,
            len: link.len.into(),
            node: link.node,
            prev: link.prev,
        },
    };
    let line = NO_LINE;
    Ok(ChainLine { line, n, columns })
}

/// Returns the name of a column, by which the schema finds it.
fn name(schema: &Schema, column: usize) -> Result<&[u8], Unproved>
    ensures { IfOk result (λ word. IsTrue (is_column schema.now.columns.items word.now)) }
{
    let column = schema.columns.get(column).ok_or(Unproved::NoRule)?;
    let word = column.name.as_bytes();
    if schema.column_named(word).is_none() {
        return Err(Unproved::NoRule);
    }
    Ok(word)
}
