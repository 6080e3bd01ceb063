//! Lines of nodes that a diagram rejects: none of them changes it.
use crate::files::SCHEMA;
use bw_diagram::Diagram;
use bw_model::{Fault, Schema};
use std::test::Fail;

const fn refusal(code: u16) -> Result<(), Fault> {
    Err(Fault::new(code))
}

#[test]
fn nodes_are_refused(rt: HostRuntime) -> Result<(), Fail> {
    let table = Schema::parse(rt.alloc(), SCHEMA)?;
    let mut diagram = Diagram::new(rt.alloc(), &table);
    for (n, v, low, high) in [
        (2, 14, 0, 1),
        (3, 0, 0, 1),
        (2, 1, 2, 0),
        (2, 1, 0, 2),
        (1, 0, 0, 0),
        (2, u64::MAX, 0, 1),
        (2, 0, 0, 1 << 32),
    ] {
        assert_eq!(rt;
            diagram.add_node(n, v, low, high),
            refusal(601),
            "node {n} {v} {low} {high}"
        );
    }
    assert_eq!(rt; diagram.add_node(2, 13, 0, 1), Ok(()));
    Ok(())
}
