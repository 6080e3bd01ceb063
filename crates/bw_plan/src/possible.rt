//! The truths that parts of a condition may have.
use crate::columns::{index_of, is_nullable};
use crate::formula::Formula;
use bw_model::{Junction, Schema, Truth};
use bw_ranges::TruthSet;

impl Formula {
    /// Returns the truths that it may have under a schema, and perhaps others. It needs no register
    /// for one that it never has.
    #[cycle(possible)]
    pub(crate) fn possible(&self, schema: &Schema) -> TruthSet {
        match self {
            Formula::Fixed(truth) => TruthSet::one(*truth),
            Formula::Codes(set) => TruthSet {
                yes: set.is_inverted || !set.bounds.is_empty(),
                no: !set.is_inverted || !set.bounds.is_empty(),
                unknown: is_nullable(schema, set.column),
            },
            Formula::Columns(compared) => TruthSet {
                yes: true,
                no: true,
                unknown: is_nullable(schema, index_of(compared.left))
                    || is_nullable(schema, index_of(compared.right)),
            },
            Formula::Null(_) => TruthSet {
                yes: true,
                no: true,
                unknown: false,
            },
            Formula::Test(part, truth) => part.possible(schema).test(*truth),
            Formula::Not(part) => part.possible(schema).opposite(),
            Formula::Joined(junction, parts, _) => joined_possible(schema, *junction, parts),
        }
    }

    /// Returns its only truth, if there is one.
    pub(crate) fn only_truth(&self, schema: &Schema) -> Option<Truth> {
        let TruthSet { no, unknown, yes } = self.possible(schema);
        match (yes, no, unknown) {
            (true, false, false) => Some(Truth::Yes),
            (false, true, false) => Some(Truth::No),
            (false, false, true) => Some(Truth::Unknown),
            _ => None,
        }
    }
}

/// Returns the truths of the AND or the OR of some parts.
#[cycle(possible)]
fn joined_possible(schema: &Schema, junction: Junction, parts: &[Formula]) -> TruthSet {
    let mut joined = TruthSet::one(match junction {
        Junction::All => Truth::Yes,
        Junction::Any => Truth::No,
    });
    for part in parts {
        let found = part.possible(schema);
        joined = match junction {
            Junction::All => joined.both(found),
            Junction::Any => joined.either(found),
        };
    }
    joined
}
