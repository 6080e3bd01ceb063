//! Laws of segments as bytes, for the readers and writers of such bytes, in either layout.
ghost use Rattle.std.specs.Prelude.{◌≡◌, ◌<◌, ◌≤◌, ◌^◌, ◌++◌, ℕ, List, None, suc, length, All};
ghost use Rattle.bw_model.specs.declared.column.Column.{Column};
ghost use Rattle.bw_model.specs.Groups.{group_size};
ghost use Rattle.bw_segment.specs.BlockFault.{block_fault, AreSound, IsSound};
ghost use Rattle.bw_segment.specs.Packing.{Packing, IsPacking, block_size, bytes_before};
ghost use Rattle.bw_segment.specs.Packing.{segment_size, block_at, block_bytes, segment_bytes};
ghost use Rattle.bw_segment.specs.Packing.{rows_spelled};
ghost use Rattle.bw_segment.specs.Meaning.{Meaning, IsGroup};

/// A law: bytes whose blocks are valid are the bytes of the rows that they spell, which are a
/// group.
pub fn sound_bytes_spell_a_group()
    ensures count { (packing : Packing) (columns : List Column) (count : ℕ) (bytes : List ℕ)
        → length (rows_spelled packing columns count bytes) ≡ count }
    ensures group { (packing : Packing) (name : List ℕ) (columns : List Column) (count : ℕ)
        (bytes : List ℕ) → IsPacking packing → 1 ≤ count → count ≤ group_size
        → IsSound packing columns count bytes
        → IsGroup (record {
          name = name;
          columns = columns;
          rows = rows_spelled packing columns count bytes;
        }) }
    ensures bytes { (packing : Packing) (columns : List Column) (count : ℕ) (bytes : List ℕ)
        → IsPacking packing → 1 ≤ count → count ≤ group_size
        → IsSound packing columns count bytes → All (λ byte. byte < 2 ^ 8) bytes
        → segment_bytes packing columns (rows_spelled packing columns count bytes) ≡ bytes }
{}

/// A law: the bytes of a group are valid, consist of the blocks of its columns, and spell its rows.
pub fn bytes_of_a_group_are_sound()
    ensures sound { (packing : Packing) (meaning : Meaning) → IsPacking packing → IsGroup meaning
        → IsSound packing meaning.columns (length meaning.rows)
        (segment_bytes packing meaning.columns meaning.rows) }
    ensures size { (packing : Packing) (meaning : Meaning) → IsPacking packing → IsGroup meaning
        → length (segment_bytes packing meaning.columns meaning.rows)
        ≡ segment_size packing meaning.columns }
    ensures block { (packing : Packing) (meaning : Meaning) (col : ℕ) → IsPacking packing
        → IsGroup meaning → col < length meaning.columns
        → block_at packing meaning.columns col (segment_bytes packing meaning.columns meaning.rows)
        ≡ block_bytes packing meaning.columns col meaning.rows }
    ensures rows { (packing : Packing) (meaning : Meaning) → IsPacking packing → IsGroup meaning
        → rows_spelled packing meaning.columns (length meaning.rows)
        (segment_bytes packing meaning.columns meaning.rows) ≡ meaning.rows }
{}

/// A law: a valid block after valid blocks.
pub fn blocks_are_added()
    ensures { (packing : Packing) (columns : List Column) (count blocks : ℕ) (bytes block : List ℕ)
        → AreSound packing columns count blocks bytes
        → length block ≡ block_size packing columns blocks
        → block_fault packing columns blocks count block ≡ None
        → AreSound packing columns count (suc blocks) (bytes ++ block) }
{}
