//! A schema text and a CSV text determine the table file.
ghost use Rattle.std.specs.Prelude.{◌≡◌, ℕ, List, Result};
ghost use Rattle.bw_model.specs.declared.fault.Fault.{Fault};
ghost use Rattle.bw_io.specs.Source.{Arrival};
ghost use Rattle.bw_file.specs.declared.layout.Layout.{Layout};
ghost use Rattle.bw_csv_calls.specs.Load.{IsFile};
ghost use Rattle.bw_laws.specs.AsDirect.{LoadMayWrite};

/// A law: a schema text and a CSV text have one table file in each layout. What was read of the
/// two sources determines one file or one error (`came`). So over sources of these texts `load` can
/// write only the same bytes, whichever of its reads fail (`texts`).
pub fn there_is_one_file()
    ensures came { (layout : Layout) (schema csv : Arrival) (given other : Result (List ℕ) Fault)
        → IsFile layout schema csv given → IsFile layout schema csv other → given ≡ other }
    ensures texts { (layout : Layout) (schema csv bytes other : List ℕ)
        → LoadMayWrite layout schema csv bytes → LoadMayWrite layout schema csv other
        → bytes ≡ other }
{}
