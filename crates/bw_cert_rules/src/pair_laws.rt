//! Laws of truth pairs.
ghost use Rattle.std.specs.Prelude.{◌≡◌, ℕ, List, Ok, IsTrue, length, map};
ghost use Rattle.bw_model.specs.declared.column.Column.{Column};
ghost use Rattle.bw_model.specs.declared.cond.Cond.{Cond};
ghost use Rattle.bw_model.specs.Cond.{names_within, truth_of};
ghost use Rattle.bw_model.specs.CondTree.{tree_of};
ghost use Rattle.bw_model.specs.Variable.{Assignment, row_of};
ghost use Rattle.bw_diagram.specs.Facts.{Facts, AreTrue};
ghost use Rattle.bw_cert_text.specs.CertificateFields.{body_fields};
ghost use Rattle.bw_cert_text.specs.declared.lines.BodyLine.{BodyLine};
ghost use Rattle.bw_cert_rules.specs.Rows.{TruthPair};
ghost use Rattle.bw_cert_rules.specs.Meaning.{Tells};
ghost use Rattle.bw_cert_rules.specs.Pair.{pair_of, line_fields};

use bw_diagram::cited_nodes_have_stated_values;

/// A law: if the facts of a diagram are true, the truth pair of a condition is two of its nodes.
/// Under every assignment, the first is 1 exactly if the condition is TRUE on the assignment's row,
/// and the second exactly if it is FALSE. The condition names only columns of the diagram.
pub fn pairs_tell_truths()
    ensures { (columns : List Column) (facts : Facts) (end : ℕ) (cond : Cond)
        (lines rest : List BodyLine) (pair : TruthPair)
        → facts.columns ≡ columns → AreTrue facts → IsTrue (names_within (length columns) cond)
        → pair_of columns facts end cond lines ≡ Ok (pair, rest)
        → Tells facts.nodes (λ assignment. truth_of (row_of columns assignment) cond) pair }
{
    cited_nodes_have_stated_values();
}

/// A law: conditions of the same tree, and lines of the same content, are read alike. The result is
/// the same truth pair, followed by lines of the same content, or the same error.
pub fn pairs_are_of_trees()
    ensures { (columns : List Column) (facts : Facts) (end : ℕ) (cond same : Cond)
        (lines others : List BodyLine)
        → tree_of cond ≡ tree_of same → map body_fields lines ≡ map body_fields others
        → line_fields (pair_of columns facts end cond lines)
        ≡ line_fields (pair_of columns facts end same others) }
{}
