//! A law of aggregates, for the crates that aggregate rows in parts.
ghost use Rattle.std.specs.Prelude.{◌≡◌, ◌++◌, List};
ghost use Rattle.bw_model.specs.declared.query.Item.{Item};
ghost use Rattle.bw_model.specs.Row.{Value};
ghost use Rattle.bw_model.specs.Total.{combine_totals, total};

/// A law: the aggregate of two lists of rows, one after the other, combines the aggregates of both.
#[tactic(auto, using(crate::proofs::TotalLemmas::total_append))]
pub fn totals_join()
    ensures { (item : Item) (rows others : List (List Value))
        → total item (rows ++ others) ≡ combine_totals item (total item rows) (total item others) }
{}
