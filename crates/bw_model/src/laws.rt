//! Laws of schemas: what every schema has by its type, and the places of errors in schema texts.
ghost use Rattle.std.specs.Prelude.{◌≡◌, ℕ, Err, IsTrue, List};
ghost use Rattle.std.specs.List.{list_all};
ghost use Rattle.bw_model.specs.Column.{names_of};
ghost use Rattle.bw_model.specs.Name.{is_name};
ghost use Rattle.bw_model.specs.Schema.{IsColumn, IsSchema};
ghost use Rattle.bw_model.specs.SchemaText.{column_shape, schema_of, schema_shape, is_range};
ghost use Rattle.bw_model.specs.FaultPlaces.{StandsAsListed};
ghost use Rattle.bw_model.specs.declared.fault.Fault.{Fault};

use crate::column::Column;
use crate::schema::Schema;

/// A law: an error of a schema text is where the table of errors lists it: at a line, or nowhere if
/// the text is too long.
#[tactic(auto, using(crate::proofs::FaultPlaceLemmas::schema_of_listed))]
pub fn schema_faults_stand_as_listed()
    ensures { (text : List ℕ) (fault : Fault) → schema_of text ≡ Err fault → StandsAsListed fault }
{}

impl Schema {
    /// A law: the names of the schema's table and columns are valid names. Each column's bounds fit
    /// 64 bits, are in order, and are less than 2^63 apart. Calling it visits each column.
    pub fn has_names_and_bounds(&self)
        ensures schema { IsSchema (schema_shape self.now) }
        ensures names { IsTrue (list_all is_name (names_of self.now.columns.items)) }
        ensures ranges { IsTrue (list_all (λ column. is_range column.lo column.hi)
            self.now.columns.items) }
    {
        let _name = self.name.as_bytes();
        for column in &self.columns {
            column.has_name_and_bounds();
        }
    }
}

impl Column {
    /// A law: the column's name is valid, and its bounds fit 64 bits.
    fn has_name_and_bounds(&self)
        ensures { IsColumn (column_shape self.now) }
    {
        let _name = self.name.as_bytes();
        let _bounds = (self.lo, self.hi);
    }
}
