//! Whatever a diagram contains, if there is memory it accepts each line that satisfies its rule,
//! and rejects any other by that line's own number. No clause can say so, since all exempt running
//! out of memory.
use crate::files::SCHEMA;
use bw_diagram::{ChainColumns, ChainKind, Connective, Diagram, Reason};
use bw_model::{Fault, Schema};
use std::process::Abort;
use std::test::Fail;

/// A kind of lines.
#[derive(Clone, Copy, Debug)]
enum LineKind {
    Node,
    Chain,
    Row,
}

/// The kinds, and the number by which a line that breaks its rule is rejected.
const KINDS: [(LineKind, u16); 3] = [
    (LineKind::Node, 601),
    (LineKind::Chain, 603),
    (LineKind::Row, 602),
];

/// The number of lines of each kind in a diagram.
#[derive(Clone, Copy, Debug)]
struct Held {
    nodes: u64,
    chains: u64,
    rows: u64,
}

impl Held {
    fn of(self, kind: LineKind) -> u64 {
        match kind {
            LineKind::Node => self.nodes,
            LineKind::Chain => self.chains,
            LineKind::Row => self.rows,
        }
    }
}

/// Adds a line after this many others of its kind: one that satisfies its rule whatever else the
/// diagram contains, or one that breaks it.
fn add(diagram: &mut Diagram<'_>, kind: LineKind, before: u64, obeys: bool) -> Result<(), Fault> {
    match kind {
        LineKind::Node => {
            let variable = if obeys { 13 } else { 14 };
            diagram.add_node(before.saturating_add(2), variable, 0, 1)
        }
        LineKind::Chain => {
            let columns = ChainColumns::One {
                kind: ChainKind::Equal,
                column: b"a",
                start: 0,
                len: 0,
                bound: 0,
                node: u64::from(obeys),
                prev: None,
            };
            diagram.add_chain(before, &columns)
        }
        LineKind::Row => {
            let product = u64::from(obeys);
            diagram.add_row(before, Connective::And, 1, 1, product, Reason::Shortcut)
        }
    }
}

/// The next line of a kind is rejected by its own number if it breaks its rule, and else accepted.
fn check_next(
    rt: &(impl AllocGlobal + Abort),
    diagram: &mut Diagram<'_>,
    kind: LineKind,
    code: u16,
    held: Held,
) {
    let before = held.of(kind);
    assert_eq!(rt;
        add(diagram, kind, before, false),
        Err(Fault::new(code)),
        "{kind:?} at {held:?}"
    );
    assert_eq!(rt;
        add(diagram, kind, before, true),
        Ok(()),
        "{kind:?} at {held:?}"
    );
}

#[test]
fn each_line_has_its_own_answer_whatever_is_held(rt: HostRuntime) -> Result<(), Fail> {
    let table = Schema::parse(rt.alloc(), SCHEMA)?;
    for number in 0..216 {
        let held = Held {
            nodes: number % 6,
            chains: number / 6 % 6,
            rows: number / 36,
        };
        for (kind, code) in KINDS {
            let mut diagram = Diagram::new(rt.alloc(), &table);
            for (each, _) in KINDS {
                for before in 0..held.of(each) {
                    add(&mut diagram, each, before, true)?;
                }
            }
            check_next(&rt, &mut diagram, kind, code, held);
        }
    }
    Ok(())
}

#[test]
fn lines_of_each_kind_come_by_turns(rt: HostRuntime) -> Result<(), Fail> {
    let table = Schema::parse(rt.alloc(), SCHEMA)?;
    let mut diagram = Diagram::new(rt.alloc(), &table);
    for before in 0..2000 {
        let held = Held {
            nodes: before,
            chains: before,
            rows: before,
        };
        for (kind, code) in KINDS {
            check_next(&rt, &mut diagram, kind, code, held);
        }
    }
    Ok(())
}
