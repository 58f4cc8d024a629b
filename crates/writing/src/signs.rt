// Joints and marks, and the nodes that stand for them.

ghost use Rattle.std.specs.Prelude.{◌≡◌};
ghost use Rattle.writing.specs.Signs.{joint_node, mark_node};

use models::Node;

// How the members of an expression are joined.
#[derive(Clone, Copy, PartialEq, Eq, Debug)]
pub enum Joint {
    Sequence,
    Alternatives,
}

impl<A> From<Joint> for Node<A> {
    ghost from_gives = { λ joint r. r ≡ joint_node joint };

    fn from(joint: Joint) -> Node<A> {
        match joint {
            Joint::Sequence => Node::Seq,
            Joint::Alternatives => Node::Alt,
        }
    }
}

// What may come again, more than once or not at all.
#[derive(Clone, Copy, PartialEq, Eq, Debug)]
pub enum Mark {
    AnyNumber,
    AtLeastOne,
    Perhaps,
}

impl<A> From<Mark> for Node<A> {
    ghost from_gives = { λ mark r. r ≡ mark_node mark };

    fn from(mark: Mark) -> Node<A> {
        match mark {
            Mark::AnyNumber => Node::Star,
            Mark::AtLeastOne => Node::Plus,
            Mark::Perhaps => Node::Opt,
        }
    }
}
