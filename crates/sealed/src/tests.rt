// A few tables, by what a check of them answers.

use super::{Unsealed, check};
use engine::ContentAtom;
use models::{Model, Node, Tables};

// An element that must hold itself has no valid tree; where it may, it has one.
#[test]
fn holds_itself(rt: HostRuntime) {
    let models = [Model { start: 0, end: 1 }];
    let nodes = [Node::Atom(ContentAtom::Element(1))];
    let tables = Tables {
        nodes: &nodes,
        models: &models,
    };
    assert_eq!(rt; check(tables), Err(Unsealed::NoTree(1)));
    let models = [Model { start: 0, end: 2 }];
    let nodes = [Node::Atom(ContentAtom::Element(1)), Node::Opt];
    let tables = Tables {
        nodes: &nodes,
        models: &models,
    };
    assert_eq!(rt; check(tables), Ok(()));
}

// An element that may come and then must is ambiguous.
#[test]
fn may_and_must(rt: HostRuntime) {
    let models = [Model { start: 0, end: 4 }, Model { start: 4, end: 5 }];
    let nodes = [
        Node::Atom(ContentAtom::Element(2)),
        Node::Opt,
        Node::Atom(ContentAtom::Element(2)),
        Node::Seq,
        Node::Empty,
    ];
    let tables = Tables {
        nodes: &nodes,
        models: &models,
    };
    assert_eq!(rt; check(tables), Err(Unsealed::Ambiguous(1)));
}
