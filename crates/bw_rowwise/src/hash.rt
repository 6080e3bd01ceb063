//! Hashes of conditions.
use bw_model::{Cond, Operand};
use std::hash::{FoldHasher, Hasher};

/// The first so many predicates and connectives of a condition go into its hash, so that the
/// hashes of all parts of a nested condition take linear time.
const HASHED: u32 = 64;

/// Returns a hash of a condition. Equal conditions have equal hashes; so do conditions that differ
/// only after their first 64 predicates and connectives.
pub(crate) fn hash_of(cond: &Cond) -> u64 {
    let mut hasher = FoldHasher::default();
    add_cond(&mut hasher, cond, HASHED);
    hasher.finish()
}

/// Adds at most `left` predicates and connectives of a condition. Returns how many more may be
/// added.
#[cycle(add_cond)]
fn add_cond(hasher: &mut FoldHasher, cond: &Cond, left: u32) -> u32 {
    if left == 0 {
        return 0;
    }
    let left = left - 1;
    match cond {
        Cond::Always => hasher.write_u8(0),
        Cond::Cmp(op, x, y) => {
            hasher.write_u8(1 + *op as u8);
            add_operands(hasher, &[*x, *y]);
        }
        Cond::Between(x, y, z) => {
            hasher.write_u8(7);
            add_operands(hasher, &[*x, *y, *z]);
        }
        Cond::Among(x, items) => {
            hasher.write_u8(8);
            add_operands(hasher, &[*x]);
            add_operands(hasher, items);
        }
        Cond::IsNull(x) => {
            hasher.write_u8(9);
            add_operands(hasher, &[*x]);
        }
        Cond::And(parts) => return add_parts(hasher, 10, parts, left),
        Cond::Or(parts) => return add_parts(hasher, 11, parts, left),
        Cond::Not(part) => {
            hasher.write_u8(12);
            return add_cond(hasher, part, left);
        }
        Cond::Test(part, truth) => {
            hasher.write_u8(13 + *truth as u8);
            return add_cond(hasher, part, left);
        }
    }
    left
}

/// Adds AND or OR, and at most `left` predicates and connectives of its parts. Returns how many
/// more may be added.
#[cycle(add_cond)]
fn add_parts(hasher: &mut FoldHasher, kind: u8, parts: &[Cond], left: u32) -> u32 {
    hasher.write_u8(kind);
    hasher.write_usize(parts.len());
    let mut left = left;
    for part in parts {
        if left == 0 {
            break;
        }
        left = add_cond(hasher, part, left);
    }
    left
}

/// Adds operands, and how many they are.
fn add_operands(hasher: &mut FoldHasher, operands: &[Operand]) {
    hasher.write_usize(operands.len());
    for operand in operands {
        match operand {
            Operand::Col(column) => hasher.write_usize(*column),
            Operand::Lit(n) => hasher.write_i64(*n),
            Operand::Null => hasher.write_u8(0),
        }
    }
}
