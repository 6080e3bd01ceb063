//! Laws of groups, lanes and selections, for the crates that scan a table group by group.
ghost use Rattle.std.specs.Prelude.{◌≡◌, ◌+◌, ◌-◌, ◌/◌, ◌<◌, ◌≤◌, ◌++◌, ℕ, Bool, List, [], ◌∷◌};
ghost use Rattle.std.specs.Prelude.{map, length, take, drop, slice_index_or, All, IsTrue};
ghost use Rattle.bw_model.specs.declared.cond.Cond.{Cond};
ghost use Rattle.bw_model.specs.declared.column.Column.{Column};
ghost use Rattle.bw_model.specs.Column.{admits_values};
ghost use Rattle.bw_model.specs.Row.{Value};
ghost use Rattle.bw_model.specs.Groups.{group_size, groups_of, together, lanes_of};
ghost use Rattle.bw_model.specs.Selection.{positions_from, positions_of, selected_items, selection};
ghost use Rattle.bw_model.specs.Selection.{matching_positions, matching_rows};
ghost use Rattle.bw_model.specs.StoredCodes.{no_bits};
ghost use Rattle.bw_model.specs.Variable.{assignment_of, bits_of};

/// A law: a table is its first 512 rows, followed by the groups of the other rows, and its groups
/// together are the table.
pub fn groups_make_the_table()
    ensures size { group_size ≡ 512 }
    ensures nothing { let none : List (List Value) = [] in groups_of none ≡ [] }
    ensures first { (rows : List (List Value)) → 0 < length rows
        → groups_of rows ≡ take group_size rows ∷ groups_of (drop group_size rows) }
    ensures table { (rows : List (List Value)) → together (groups_of rows) ≡ rows }
    ensures count { (rows : List (List Value)) → length (groups_of rows)
        ≡ (length rows + 511) / 512 }
    ensures sizes { (rows : List (List Value))
        → All (λ group. (1 ≤ length group) × (length group ≤ group_size)) (groups_of rows) }
{}

/// A law: a group has 512 lanes: the assignments of its rows, and then zeros.
pub fn lanes_are_rows_and_zeros()
    ensures count { (columns : List Column) (rows : List (List Value)) → length rows ≤ group_size
        → length (lanes_of columns rows) ≡ group_size }
    ensures row { (columns : List Column) (rows : List (List Value)) (lane : ℕ) → lane < length rows
        → slice_index_or (lanes_of columns rows) lane no_bits
        ≡ assignment_of (bits_of columns (slice_index_or rows lane [])) }
    ensures padding { (columns : List Column) (rows : List (List Value)) (lane : ℕ)
        → length rows ≤ lane → slice_index_or (lanes_of columns rows) lane no_bits ≡ no_bits }
{}

/// A law: a condition's matching rows are those whose bit is 1, and those at its matching
/// positions. The selections of groups together are the selection of the table.
pub fn kept_rows_are_selected()
    ensures bits { (cond : Cond) (rows : List (List Value)) → matching_rows cond rows
        ≡ selected_items (selection cond rows) rows }
    ensures positions { (cond : Cond) (rows : List (List Value))
        → matching_rows cond rows ≡ map (λ position. slice_index_or rows position [])
        (matching_positions cond rows) }
    ensures kept { (cond : Cond) (front back : List (List Value))
        → matching_rows cond (front ++ back) ≡ matching_rows cond front ++ matching_rows cond back }
    ensures joined { (front back : List Bool) (position : ℕ)
        → positions_from position (front ++ back) ≡ positions_from position front
        ++ positions_from (position + length front) back }
    ensures selected { (front back : List Bool) (rows others : List (List Value))
        → length front ≡ length rows
        → selected_items (front ++ back) (rows ++ others) ≡ selected_items front rows
        ++ selected_items back others }
{}

/// A law: a row that the columns admit has a value for each of them.
pub fn admitted_rows_have_each_value()
    ensures { (columns : List Column) (row : List Value) → IsTrue (admits_values columns row)
        → length row ≡ length columns }
{}
