//! A schema text spells one schema or has one error.
ghost use Rattle.std.specs.Prelude.{◌≡◌, ◌⊎◌, ◌≤◌, ℕ, List, Err};
ghost use Rattle.bw_model.specs.FaultTable.{SCHEMA_FORM, SCHEMA_TOO_LONG};
ghost use Rattle.bw_model.specs.declared.fault.Fault.{Fault};
ghost use Rattle.bw_model.specs.SchemaText.{IsSchemaText, SchemaShape, schema_of};

/// A law: a schema text spells one schema or has one error, never both and never two. The error
/// is the one that `schema_of` finds; its number is one of 101 to 106.
pub fn a_schema_text_spells_one_schema_or_has_one_fault()
    ensures either { (text : List ℕ) → ((shape : SchemaShape) × IsSchemaText text shape)
        ⊎ ((fault : Fault) × (schema_of text ≡ Err fault)) }
    ensures not_both { (text : List ℕ) (shape : SchemaShape) (fault : Fault)
        → IsSchemaText text shape → schema_of text ≡ Err fault → ⊥ }
    ensures one_schema { (text : List ℕ) (shape other : SchemaShape)
        → IsSchemaText text shape → IsSchemaText text other → shape ≡ other }
    ensures one_fault { (text : List ℕ) (fault other : Fault)
        → schema_of text ≡ Err fault → schema_of text ≡ Err other → fault ≡ other }
    ensures numbered { (text : List ℕ) (fault : Fault) → schema_of text ≡ Err fault
        → (SCHEMA_FORM ≤ fault.code) × (fault.code ≤ SCHEMA_TOO_LONG) }
{}
