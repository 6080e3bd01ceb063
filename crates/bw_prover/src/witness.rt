//! Rows on which a node is 1.
ghost use Rattle.bw_prover.specs.Growth.{HasGrown};

use crate::chain::Link;
use crate::columns::{null_variable, width_of};
use crate::facts::Facts;
use crate::join::KnownSkip;
use crate::unproved::{Unproved, Witness};
use bw_diagram::{ChainKind, Connective};
use bw_model::{Row, Schema};
use std::alloc::{AllocError, Global};

impl Facts<'_> {
    /// Returns what is wrong with a program whose result differs where a node is 1.
    pub(crate) fn difference(&mut self, node: u64) -> Result<Unproved, Unproved>
        ensures grown { HasGrown self.old self.new }
    {
        if !self.order.is_total {
            return Ok(Unproved::Unordered);
        }
        match self.row_of(node)? {
            Some(row) => Ok(Unproved::Differs { row }),
            None => self.only_unadmitted(node),
        }
    }

    /// Returns that a program is wrong on bits alone that no row has, given a node that is 1 on no
    /// row, and which isn't 0: the first column that has such bits where it is 1.
    fn only_unadmitted(&self, node: u64) -> Result<Unproved, Unproved> {
        let codes = codes_of_bits(self.alloc, self.schema, &self.path_to_one(node)?)?;
        for (number, (column, stored)) in self.schema.columns.iter().zip(&codes).enumerate() {
            let (is_null, code) = *stored;
            if is_null && code > 0 || code > column.hi.abs_diff(column.lo) {
                return Ok(Unproved::OnlyUnadmitted {
                    column: number,
                    is_null,
                    code,
                });
            }
        }
        Err(Unproved::NoRule)
    }

    /// Returns a row on which a register differs by a skip, and one on which the skip isn't taken,
    /// if the schema admits both and they are found within the limits.
    pub(crate) fn witness(
        &mut self,
        skip: KnownSkip,
        differs: Option<u64>,
    ) -> Result<Option<Witness>, Unproved>
        ensures grown { HasGrown self.old self.new }
    {
        let Some(differs) = differs else {
            return Ok(None);
        };
        if !self.order.is_total {
            return Ok(None);
        }
        match self.rows_of(skip.tested, differs) {
            Err(Unproved::Memory) => Err(Unproved::Memory),
            found => Ok(found.ok().flatten()),
        }
    }

    /// Returns a row on which one node is 1, and one on which another is, if the schema admits both.
    fn rows_of(&mut self, through: u64, taken: u64) -> Result<Option<Witness>, Unproved>
        ensures grown { HasGrown self.old self.new }
    {
        let Some(through) = self.row_of(through)? else {
            return Ok(None);
        };
        Ok(self.row_of(taken)?.map(|taken| Witness { taken, through }))
    }

    /// Returns a row that the schema admits and on whose bits a node is 1, if there is one.
    fn row_of(&mut self, node: u64) -> Result<Option<Row>, Unproved>
        ensures grown { HasGrown self.old self.new }
    {
        let mut part = node;
        for column in 0..self.schema.columns.len() {
            let admitted = self.admitted_node(column)?;
            part = self.row(Connective::And, part, admitted)?.node;
        }
        if part == 0 {
            return Ok(None);
        }
        let bits = self.path_to_one(part)?;
        Ok(Some(row_of_bits(self.alloc, self.schema, &bits)?))
    }

    /// Returns the node that is 1 where a column's bits are those of an admitted value: a code up
    /// to its maximum, or null and all bits 0.
    fn admitted_node(&mut self, column: usize) -> Result<u64, Unproved>
        ensures grown { HasGrown self.old self.new }
    {
        let width = width_of(self.schema, column).ok_or(Unproved::NoRule)?;
        let found = self.schema.columns.get(column).ok_or(Unproved::NoRule)?;
        let bound = found.hi.abs_diff(found.lo).saturating_add(1);
        let is_any = bound >= 1 << width;
        let link = Link::of(ChainKind::Less, column, 0, width, bound);
        let (_, mut admitted) = self.chain_unless(is_any.then_some(1), link)?;
        if let Some(null) = null_variable(self.schema, column) {
            let link = Link::of(ChainKind::Equal, column, 0, width, 0);
            let zero = self.chain(link)?.node;
            admitted = self.choice(null, admitted, zero)?;
        }
        Ok(admitted)
    }

    /// Returns the bits, by variable, on a path from a node to 1, which isn't 0 itself. Those of
    /// variables that the path doesn't test are 0.
    fn path_to_one(&self, node: u64) -> Result<Vec<bool>, AllocError> {
        let mut bits = Vec::new(self.alloc);
        bits.resize(self.schema.var_count() as usize, false)?;
        let mut at = node;
        for _ in 0..self.nodes.len() {
            let Some(node) = self.nodes.get(at) else {
                break;
            };
            let bit = node.low == 0;
            if let Some(slot) = bits.get_mut(node.v as usize) {
                *slot = bit;
            }
            at = if bit { node.high } else { node.low };
        }
        Ok(bits)
    }
}

/// Returns for each column whether bits by variable have it null, and its code: of each column in
/// turn they are the null bit, if it is nullable, and then those of its code from the top.
fn codes_of_bits(
    alloc: Global,
    schema: &Schema,
    bits: &[bool],
) -> Result<Vec<(bool, u64)>, AllocError> {
    let mut codes = Vec::new(alloc);
    let mut bits = bits.iter().copied();
    for (number, column) in schema.columns.iter().enumerate() {
        let is_null = column.nullable && bits.next().unwrap_or(false);
        let mut code = 0u64;
        for _ in 0..schema.width(number) {
            code = code << 1 | u64::from(bits.next().unwrap_or(false));
        }
        codes.push((is_null, code))?;
    }
    Ok(codes)
}

/// Returns the row of bits by variable.
fn row_of_bits(alloc: Global, schema: &Schema, bits: &[bool]) -> Result<Row, Unproved> {
    let mut values = Vec::new(alloc);
    let codes = codes_of_bits(alloc, schema, bits)?;
    for (column, (is_null, code)) in schema.columns.iter().zip(&codes) {
        let value = i128::from(column.lo) + i128::from(*code);
        let value = i64::try_from(value).unwrap_or(column.hi);
        values.push((!*is_null).then_some(value))?;
    }
    Ok(Row { values })
}
