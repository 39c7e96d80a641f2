// The node of a structure.
ghost use Rattle.std.specs.Prelude.{◌≡◌, IfSome, Some};
ghost use Rattle.jo_value.specs.Words.{IsNode, node_bits};

use crate::bits::{
    NODE_BORN, NODE_CHANGE, NODE_DEPTH, NODE_NAME, NODE_OFFSET, NODE_PARENT, NODE_TOP,
};
use crate::{NameId, Sid};

/// What a structure does to the names of its parent.
#[derive(Clone, Copy, Debug, PartialEq, Eq)]
pub enum Change {
    Add,
    Remove,
}

/// A structure, as the one change that makes it from its parent. The node of a root changes nothing.
#[derive(Clone, Copy, Debug, PartialEq, Eq)]
pub struct Node {
    pub parent: Sid,
    /// The name that is added or removed.
    pub name: NameId,
    /// The offset of that name.
    pub offset: u8,
    /// The first offset that was never given out.
    pub top: u8,
    /// How many changes lead here from the root.
    pub depth: u8,
    pub change: Change,
}

/// The word of a node.
pub fn node_word(node: Node) -> u64
    ensures { result ≡ node_bits node }
{
    NODE_PARENT.with(u64::from(node.parent.0))
        + NODE_NAME.with(u64::from(node.name.0))
        + NODE_OFFSET.with(u64::from(node.offset))
        + NODE_TOP.with(u64::from(node.top))
        + NODE_DEPTH.with(u64::from(node.depth))
        + NODE_CHANGE.with(u64::from(node.change == Change::Remove))
        + NODE_BORN.with(1)
}

/// The node whose word this is. `None` where it is the word of no node; so for 0, the word of an unborn one.
pub fn node_of(word: u64) -> Option<Node>
    ensures some { IfSome result (λ node. IsNode node × (node_bits node ≡ word)) }
    ensures whole { (node : Node) → IsNode node → node_bits node ≡ word → result ≡ Some node }
{
    let removes = NODE_CHANGE.of(word) == 1;
    let node = Node {
        parent: Sid(NODE_PARENT.of(word) as u16),
        name: NameId(NODE_NAME.of(word) as u16),
        offset: NODE_OFFSET.of(word) as u8,
        top: NODE_TOP.of(word) as u8,
        depth: NODE_DEPTH.of(word) as u8,
        change: if removes { Change::Remove } else { Change::Add },
    };
    (node_word(node) == word).then_some(node)
}
