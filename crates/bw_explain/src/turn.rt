//! Comparisons of columns that can be turned round.
use crate::text::{Text, name_text, put};
use bw_model::{Cond, Op, Operand, Schema};
use std::alloc::{AllocError, Global};

/// A comparison of two columns.
type Compared = (Op, usize, usize);

/// Appends an equation of columns, or its opposite, that a condition compares in the other direction
/// too, and how it is turned round, if there is one.
pub(crate) fn put_turn(text: &mut Text, schema: &Schema, cond: &Cond) {
    let mut found = Vec::new(text.alloc);
    if comparisons(&mut found, cond).is_err() {
        return;
    }
    for (op, left, right) in &found {
        let sign = match op {
            Op::Eq => " = ",
            Op::Ne => " <> ",
            _ => continue,
        };
        let (Some(one), Some(other)) = (schema.columns.get(*left), schema.columns.get(*right))
        else {
            continue;
        };
        let turned = (*left, *right);
        if leads(text.alloc, &found, *right, *left, turned)
            && !leads(text.alloc, &found, *left, *right, turned)
        {
            let (one, other) = (
                name_text(one.name.as_bytes()),
                name_text(other.name.as_bytes()),
            );
            put!(text; "try ", other, sign, one, " in place of ", one, sign, other, "\n");
            return;
        }
    }
}

/// Returns whether comparisons lead from a column to another, each from its left to its right. The
/// equations of one pair, which are to be turned round, lead nowhere.
fn leads(
    alloc: Global,
    found: &[Compared],
    from: usize,
    to: usize,
    turned: (usize, usize),
) -> bool {
    let mut reached = Vec::new(alloc);
    let mut is_refused = reached.push(from).is_err();
    for _ in 0..64 {
        for (op, left, right) in found {
            let (left, right) = match op {
                Op::Gt | Op::Le => (*right, *left),
                Op::Eq | Op::Ne if (*left, *right) == turned => continue,
                _ => (*left, *right),
            };
            if reached.contains(&left) && !reached.contains(&right) {
                is_refused |= reached.push(right).is_err();
            }
        }
    }
    reached.contains(&to) && !is_refused
}

/// Appends the comparisons of two different columns in a condition.
#[cycle(comparisons)]
fn comparisons(found: &mut Vec<Compared>, cond: &Cond) -> Result<(), AllocError> {
    match cond {
        Cond::Cmp(op, x, y) => add(found, *op, *x, *y)?,
        Cond::Between(x, y, z) => {
            add(found, Op::Ge, *x, *y)?;
            add(found, Op::Le, *x, *z)?;
        }
        Cond::Among(x, items) => {
            for item in items {
                add(found, Op::Eq, *x, *item)?;
            }
        }
        Cond::And(parts) | Cond::Or(parts) => {
            for part in parts {
                comparisons(found, part)?;
            }
        }
        Cond::Not(part) | Cond::Test(part, _) => comparisons(found, part)?,
        Cond::Always | Cond::IsNull(_) => {}
    }
    Ok(())
}

/// Appends a comparison, if it is one of two different columns.
fn add(found: &mut Vec<Compared>, op: Op, x: Operand, y: Operand) -> Result<(), AllocError> {
    if let (Operand::Col(left), Operand::Col(right)) = (x, y)
        && left != right
    {
        found.push((op, left, right))?;
    }
    Ok(())
}
