//! The lines of joins, each checked by its rule.
ghost use Rattle.std.specs.Prelude.{◌≡◌, ◌<◌, true, IsTrue, IfOk, IfErr, Ok, Err};
ghost use Rattle.bw_cert_text.specs.BodyLines.{body_lines};
ghost use Rattle.bw_cert_rules.specs.Join.{is_zero, is_valid_keep, keeps_through, keeps_by_skip};
ghost use Rattle.bw_cert_rules.specs.Join.{keeps_by_skips};
ghost use Rattle.bw_cert_rules.specs.Known.{is_known_fault, nothing_known};
ghost use Rattle.bw_cert_rules.specs.Walk.{is_join, apply_join, keeps_taken};

use crate::edge::Edge;
use crate::known::Known;
use crate::line_checker::LineChecker;
use bw_cert_text::{BodyLines, EdgeProducts, Entry, Keep};
use bw_diagram::Connective;
use bw_model::{Fault, code};

impl LineChecker<'_> {
    /// Consumes the lines of a place's join, if skips lead there, and returns the lines that
    /// follow. `known` is what is known on fall-through before the call, and what the join keeps
    /// after it.
    pub(crate) fn take_join<'a>(
        self,
        known: &mut Known,
        edges: &[Edge],
        place: usize,
        lines: BodyLines<'a>,
        end: u64,
    ) -> Result<BodyLines<'a>, Fault>
        ensures taken { IfOk result (λ rest. apply_join self.entry.diagram.now end place edges.now
            (record { known = known.old; rest = body_lines lines.entry })
            ≡ Ok (record { known = known.new; rest = body_lines rest })) }
        ensures fault { IfErr result (λ fault. apply_join self.entry.diagram.now end place edges.now
            (record { known = known.old; rest = body_lines lines.entry }) ≡ Err fault) }
        ensures code { IfErr result (λ fault. IsTrue (is_known_fault fault)) }
    {
        if edges.is_empty() {
            return Ok(lines);
        }
        let Some((line, rest)) = lines.next() else {
            return Err(Fault::at_line(code::JOIN, end));
        };
        if !is_join(&line.entry, place) {
            return Err(Fault::at_line(code::JOIN, line.line));
        }
        self.take_keeps(known, edges, rest)
    }

    /// Consumes the lines KEEP that follow a line JOIN.
    fn take_keeps<'a>(
        self,
        known: &mut Known,
        edges: &[Edge],
        lines: BodyLines<'a>,
    ) -> Result<BodyLines<'a>, Fault>
        ensures taken { IfOk result (λ rest.
            keeps_taken self.entry.diagram.now known.old edges.now 0 nothing_known
            (body_lines lines.entry)
            ≡ Ok (record { known = known.new; rest = body_lines rest })) }
        ensures fault { IfErr result (λ fault.
            keeps_taken self.entry.diagram.now known.old edges.now 0 nothing_known
            (body_lines lines.entry) ≡ Err fault) }
        ensures code { IfErr result (λ fault. IsTrue (is_known_fault fault)) }
    {
        let through = *known;
        let mut kept: Known = [None; 64];
        let mut least = 0;
        let mut rest = lines;
        while let Some((line, more)) = rest.next() {
            let Entry::Keep(keep) = &line.entry else {
                break;
            };
            if !self.is_valid_keep(&through, edges, least, keep) {
                return Err(Fault::at_line(code::JOIN, line.line));
            }
            kept[keep.register as usize] = Some(keep.node);
            least = keep.register + 1;
            rest = more;
        }
        *known = kept;
        Ok(rest)
    }

    /// Returns whether a register, which isn't below the least, has the node that its line names,
    /// on every way to the join.
    #[tactic(auto, unfolding(crate::specs::Join::is_valid_keep))]
    fn is_valid_keep(self, through: &Known, edges: &[Edge], least: u8, keep: &Keep<'_>) -> bool
        ensures kept { result
            ≡ is_valid_keep self.entry.diagram.now through.now edges.now least keep.now }
        ensures register { result ≡ true → keep.now.register < 64 }
    {
        keep.register >= least
            && keep.register < 64
            && self.keeps_through(through, keep)
            && self.keeps_by_skips(keep, edges)
    }

    /// Returns whether it has that node on fall-through.
    fn keeps_through(self, through: &Known, keep: &Keep<'_>) -> bool
        requires { keep.now.register < 64 }
        ensures { result ≡ keeps_through self.entry.diagram.now through.now keep.now }
    {
        let Some(node) = through[keep.register as usize] else {
            return false;
        };
        self.diagram
            .product_node(Connective::Xor, node, keep.node, keep.through)
            == Some(0)
    }

    /// Returns whether it has that node by each skip; each has a pair of product rows.
    fn keeps_by_skips(self, keep: &Keep<'_>, edges: &[Edge]) -> bool
        requires { keep.now.register < 64 }
        ensures { result
            ≡ keeps_by_skips self.entry.diagram.now keep.now edges.now keep.now.edges }
    {
        let mut pairs = keep.edges.as_slice();
        let mut skips = edges;
        while let Some((edge, edges)) = skips.split_first() {
            let Some((rows, more)) = pairs.split_first() else {
                return false;
            };
            if !self.keeps_by_skip(keep, edge, *rows) {
                return false;
            }
            (skips, pairs) = (edges, more);
        }
        pairs.is_empty()
    }

    /// Returns whether its node at a skip differs from that node only if the skip's register is 1.
    fn keeps_by_skip(self, keep: &Keep<'_>, edge: &Edge, rows: EdgeProducts) -> bool
        requires { keep.now.register < 64 }
        ensures { result ≡ keeps_by_skip self.entry.diagram.now keep.now edge.now rows }
    {
        let known = &edge.known;
        let Some(node) = known[keep.register as usize] else {
            return false;
        };
        let Some(differs) = self
            .diagram
            .product_node(Connective::Xor, node, keep.node, rows.differs)
        else {
            return false;
        };
        let Some(Some(skipped)) = known.get(edge.register as usize).copied() else {
            return false;
        };
        self.diagram
            .product_node(Connective::Diff, differs, skipped, rows.within)
            == Some(0)
    }
}

/// Returns whether a line is the line JOIN of a place.
fn is_join(entry: &Entry<'_>, place: usize) -> bool
    ensures { result ≡ is_join place entry.now }
{
    match entry {
        Entry::Join(target) => *target == place as u64,
        _ => false,
    }
}
