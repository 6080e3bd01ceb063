//! What makes a table's bytes of coded columns.
ghost use Rattle.std.specs.Prelude.{ℕ, List, IfOk, IsOkUnless};
ghost use Rattle.bw_model.specs.declared.schema.Schema.{Schema};
ghost use Rattle.bw_model.specs.Fault.{no_memory};
ghost use Rattle.bw_model.specs.Row.{Value};
ghost use Rattle.bw_encode.specs.CodedTable.{IsCodedTable, encodings_in, rows_in};
ghost use Rattle.bw_encode.specs.Encode.{IsMadeTable};

use crate::coded_table::CodedTable;
use bw_model::Fault;
use std::alloc::Global;

/// Makes the bytes of a table.
pub trait TableMaker {
    /// The bytes of the table of rows under a schema.
    ghost bytes_of: { Self → Schema → List (List Value) → List ℕ };

    /// Returns the bytes of the table of coded columns under their schema. Errors: 801 if memory is
    /// refused.
    fn make(&self, alloc: Global, table: &CodedTable<'_>) -> Result<Vec<u8>, Fault>
        requires { IsCodedTable table.now }
        ensures bytes { IfOk result (λ bytes. IsMadeTable (bytes_of self.now)
            (encodings_in table.now) (rows_in table.now) bytes.items) }
        ensures only_oom { IsOkUnless result no_memory };
}
