//! What `infer` writes spells the inferred schema.
ghost use Rattle.std.specs.Prelude.{◌≡◌, true, ℕ, List, Ok};
ghost use Rattle.bw_model.specs.Name.{is_name};
ghost use Rattle.bw_model.specs.SchemaText.{IsSchemaText, SchemaShape};
ghost use Rattle.bw_csv_calls.specs.InferredSchema.{infer_schema};
ghost use Rattle.bw_csv_calls.specs.PrintedSchema.{schema_text};

/// A law: if a schema is inferred from a CSV text, and the table's name is a valid name, then
/// the text that `infer` writes spells that schema. It uses no schema in memory.
pub fn an_inferred_schema_text_spells_its_schema()
    ensures { (table csv : List ℕ) (schema : SchemaShape) → is_name table ≡ true
        → infer_schema table csv ≡ Ok schema → IsSchemaText (schema_text schema) schema }
{}
