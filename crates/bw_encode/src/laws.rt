//! Laws of encodings, and of texts that are read in parts.
ghost use Rattle.std.specs.Prelude.{◌≡◌, ◌<◌, ◌+◌, ◌↔◌, ℕ, List, [], Some, drop, length, slice_index};
ghost use Rattle.std.specs.Prelude.{slice_index_or};
ghost use Rattle.std.specs.Cmp.Lexicographic.{slice_cmp};
ghost use Rattle.std.specs.Ordering.{nat_cmp};
ghost use Rattle.std.specs.declared.cmp.Ordering.TheVariants.{Less};
ghost use Rattle.csv.specs.declared.parser.State.TheVariants.{StartRecord};
ghost use Rattle.bw_encode.specs.declared.dialect.Dialect.{Dialect};
ghost use Rattle.bw_encode.specs.Column.{Encoding, IsEncodingOf};
ghost use Rattle.bw_encode.specs.Dialect.{records_in, records_of};
ghost use Rattle.bw_encode.specs.Dictionary.{IsEncoded};
ghost use Rattle.bw_encode.specs.Rest.{bytes_read};

/// A law: the bytes of a text that aren't read by a limit of rows have the records after them.
pub fn a_text_goes_on_at_its_rest()
    ensures { (dialect : Dialect) (rows : ℕ) (text : List ℕ)
        → records_in dialect StartRecord (drop (bytes_read dialect (Some rows) text) text)
        ≡ drop (rows + 1) (records_of dialect text) }
{}

/// A law: two encodings of the same fields are equal.
pub fn a_column_has_one_encoding()
    ensures { (fields : List (List ℕ)) (one other : Encoding) → IsEncodingOf fields one
        → IsEncodingOf fields other → one ≡ other }
{}

/// A law: codes compare as the fields that they stand for do, in the order of bytes.
pub fn codes_compare_as_fields()
    ensures { (fields list : List (List ℕ)) (counts codes : List ℕ) (i j : ℕ)
        → IsEncoded fields list counts codes → i < length fields → j < length fields
        → (slice_index codes i < slice_index codes j)
        ↔ (slice_cmp nat_cmp (slice_index_or fields i []) (slice_index_or fields j []) ≡ Less) }
{}
