//! A law of groups: the content of their lanes.
ghost use Rattle.std.specs.Prelude.{◌≡◌, ◌<◌, ℕ, Some, length, map};
ghost use Rattle.bw_model.specs.Code.{width_at, slices_at, has_bit};
ghost use Rattle.bw_model.specs.StoredCodes.{byte_of};
ghost use Rattle.bw_model.specs.Variable.{null_variable, bit_variable};
ghost use Rattle.bw_segment.specs.Meaning.{Meaning, IsGroup, variable_lanes, byte_lanes};
ghost use Rattle.bw_segment.specs.Meaning.{code_lanes, null_bits};

/// A law: the bits and bytes in a group's lanes are those of its stored codes, and its nulls.
pub fn lanes_hold_codes()
    ensures nulls { (meaning : Meaning) (col variable : ℕ) → IsGroup meaning
        → col < length meaning.columns
        → null_variable meaning.columns col ≡ Some variable
        → null_bits meaning.rows col ≡ variable_lanes meaning variable }
    ensures bits { (meaning : Meaning) (col bit : ℕ) → IsGroup meaning
        → col < length meaning.columns
        → bit < width_at meaning.columns col
        → map (λ code. has_bit code bit) (code_lanes meaning col)
        ≡ variable_lanes meaning (bit_variable meaning.columns col bit) }
    ensures bytes { (meaning : Meaning) (col slice : ℕ) → IsGroup meaning
        → col < length meaning.columns
        → slice < slices_at meaning.columns col
        → map (byte_of slice) (code_lanes meaning col) ≡ byte_lanes meaning col slice }
{}
