//! A spelled schema has what every schema has by its type.
ghost use Rattle.std.specs.Prelude.{ℕ, List};
ghost use Rattle.bw_model.specs.Schema.{IsSchema};
ghost use Rattle.bw_model.specs.SchemaText.{IsSchemaText, SchemaShape};

/// A law: the schema that a text spells has valid names, and bounds that 64 bits hold, so its
/// tables have files. It uses no schema in memory, unlike `bw_model::Schema::has_names_and_bounds`.
pub fn a_schema_text_spells_names_and_bounds()
    ensures { (text : List ℕ) (schema : SchemaShape) → IsSchemaText text schema → IsSchema schema }
{}
