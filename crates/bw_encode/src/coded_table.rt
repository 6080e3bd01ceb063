//! A CSV text by columns, and its columns coded.
use crate::coded::{Coded, coded_columns};
use crate::column_fields::ColumnFields;
use crate::columns::read_columns;
use crate::dialect::Dialect;
use crate::fields_text::fields_text;
use crate::selection::Selection;
use crate::table::{deliver_rows, schema_of};
use bw_model::{Fault, RowConsumer, Schema};
use std::alloc::{AllocError, Global};
use std::hash::RandomState;

/// The fields of a CSV text's rows, by columns, and how many bytes of the text were read.
#[derive(Drop)]
pub struct TextColumns {
    columns: Vec<ColumnFields>,
    bytes_read: usize,
}

impl TextColumns {
    ghost use Rattle.std.specs.Prelude.{◌≡◌, IfOk, IfErr, Ok, Err, false, length};
    ghost use Rattle.bw_model.specs.Fault.{is_memory};
    ghost use Rattle.bw_encode.specs.CodedTable.{AreEncodingsOf, HasRows, IsCodedTable};
    ghost use Rattle.bw_encode.specs.CodedTable.{bytes_in, encodings_in, rows_in};
    ghost use Rattle.bw_encode.specs.Rest.{bytes_read};
    ghost use Rattle.bw_encode.specs.Rows.{FieldRows, is_device_fault, rows_of};

    /// Reads the selected fields of the records of a text after its heading. In memory are then
    /// sixteen bytes a field of a column of numbers; of any other, its bytes and eight more.
    ///
    /// Errors: the first wrong record, of which the heading is record 0: 201, a text without a
    /// record; then for the heading 209, a loose quotation mark, unless the dialect is lenient, and
    /// 105, not 1 to 64 columns, or one that isn't there; and for each record after it 209, then
    /// 203, another number of fields, or a greater one if records are filled, and 207, a row past
    /// 2^24. Records past the limit of rows have no errors. 801 if memory is refused.
    pub fn read(
        alloc: Global,
        dialect: Dialect,
        selection: Selection<'_>,
        text: &[u8],
    ) -> Result<Self, Fault>
        ensures rows { IfOk result (λ columns. (table : FieldRows)
            × (rows_of dialect selection.entry text.now ≡ Ok table) × HasRows columns table) }
        ensures end { IfOk result (λ columns. bytes_in columns
            ≡ bytes_read dialect selection.entry.rows text.now) }
        ensures fault { IfErr result (λ fault. is_memory fault ≡ false
            → rows_of dialect selection.entry text.now ≡ Err fault) }
        ensures device { IfErr result (λ fault. is_device_fault fault ≡ false) }
    {
        let read = read_columns(alloc, dialect, selection, text)?;
        Ok(TextColumns {
            columns: read.columns,
            bytes_read: read.bytes_read,
        })
    }

    /// Returns how many bytes of the text precede the first record that wasn't read; all, if none
    /// is left.
    pub fn bytes_read(&self) -> usize
        ensures { result ≡ bytes_in self.now }
    {
        self.bytes_read
    }

    /// Encodes the columns: one whose fields are all empty or whole numbers of 64 bits, as
    /// they are printed, and less than 2^63 apart, has these numbers; any other has codes, the
    /// places of its fields in the list of its distinct fields in the order of bytes. Fields are
    /// found by hashes that depend on the hasher's keys. Fails only if memory is refused.
    pub fn encode(&self, alloc: Global, hasher: RandomState) -> Result<CodedTable<'_>, AllocError>
        requires { (table : FieldRows) × HasRows self.now table }
        ensures coded { IfOk result IsCodedTable }
        ensures encodings { IfOk result (λ coded. (table : FieldRows) → HasRows self.now table
            → AreEncodingsOf table (encodings_in coded)) }
        ensures rows { IfOk result (λ coded. (table : FieldRows) → HasRows self.now table
            → rows_in coded ≡ length table.rows) }
    {
        let rows = self.columns[0].len();
        let columns = coded_columns(alloc, hasher, &self.columns)?;
        Ok(CodedTable { columns, rows })
    }
}

/// The coded columns of a CSV text.
#[derive(Drop)]
pub struct CodedTable<'a> {
    columns: Vec<Coded<'a>>,
    rows: usize,
}

impl CodedTable<'_> {
    ghost use Rattle.std.specs.Prelude.{◌≡◌, ◌<◌, ℕ, [], true, IfOk, IsTrue, IsOkUnless, OnOk};
    ghost use Rattle.bw_model.specs.Column.{admits_values};
    ghost use Rattle.bw_model.specs.Fault.{no_memory};
    ghost use Rattle.bw_encode.specs.CodedTable.{IsCodedTable, encodings_in, rows_in};
    ghost use Rattle.bw_encode.specs.FieldsText.{fields_text};
    ghost use Rattle.bw_encode.specs.Table.{IsSchemaOf, row_at, rows_upto};

    /// Returns the schema of the table: columns c1, c2, .., each as narrow as its values. It admits
    /// each row. Fails only if memory is refused.
    pub fn schema(&self, alloc: Global) -> Result<Schema, AllocError>
        requires { IsCodedTable self.now }
        ensures schema { IfOk result (IsSchemaOf (encodings_in self.now)) }
        ensures admits { IfOk result (λ schema. (row : ℕ) → row < rows_in self.now
            → admits_values schema.columns.items (row_at (encodings_in self.now) row) ≡ true) }
    {
        let schema = schema_of(alloc, &self.columns)?;
        Ok(schema)
    }

    /// Returns the text that says what the codes stand for: for each column its kind, and for one
    /// of codes its distinct fields and how often each occurs. Fails only if memory is refused.
    pub fn fields_text(&self, alloc: Global) -> Result<Vec<u8>, AllocError>
        ensures { IfOk result (λ text. text.items ≡ fields_text (encodings_in self.now)) }
    {
        fields_text(alloc, &self.columns)
    }

    /// Delivers the rows to a consumer, in order. It must accept each of them. Fails only if memory
    /// is refused.
    pub fn deliver<K: RowConsumer>(&self, alloc: Global, consumer: &mut K) -> Result<(), Fault>
        requires coded { IsCodedTable self.now }
        requires takes { (row : ℕ) → row < rows_in self.now
            → IsTrue (K.takes consumer.old (row_at (encodings_in self.now) row)) }
        requires fresh { K.rows consumer.old ≡ 0 }
        requires starts { K.led consumer.old [] consumer.old }
        ensures led { OnOk result (K.led consumer.old
            (rows_upto (encodings_in self.now) (rows_in self.now)) consumer.new) }
        ensures only_oom { IsOkUnless result no_memory }
    {
        deliver_rows(alloc, &self.columns, self.rows, consumer)
    }
}
