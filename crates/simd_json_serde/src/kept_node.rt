//! The nodes of a parse in place, as a read keeps them.
ghost use Rattle.std.specs.Prelude.{◌≡◌};
ghost use Rattle.simd_json_parts.specs.Nodes.{static_item};
ghost use Rattle.simd_json_stages.specs.Placed.{textless};
ghost use Rattle.simd_json_serde.specs.KeptNodes.{kept_of};

use simd_json::{Container, SpanNode, StaticNode};

/// A node, and in place of its text where that begins in the input, and its length.
#[derive(Clone, Copy, Drop)]
pub(crate) enum KeptNode {
    String { at: usize, len: usize },
    Decimal { at: usize, len: usize },
    Array { len: usize, count: usize },
    Object { len: usize, count: usize },
    Null,
    Bool(bool),
    I64(i64),
    U64(u64),
    I128(i128),
    U128(u128),
}

impl SpanNode for KeptNode {
    ghost form = { kept_of };

    #[inline(always)]
    fn string(at: usize, len: usize) -> KeptNode {
        KeptNode::String { at, len }
    }

    #[inline(always)]
    fn decimal(at: usize, len: usize) -> KeptNode {
        KeptNode::Decimal { at, len }
    }

    #[inline(always)]
    fn wide_integer(_at: usize, _len: usize, value: StaticNode) -> KeptNode {
        static_node(value)
    }

    #[inline(always)]
    fn short_scalar(value: StaticNode) -> KeptNode {
        static_node(value)
    }

    #[inline(always)]
    fn header(container: Container, len: usize, count: usize) -> KeptNode {
        match container {
            Container::Array => KeptNode::Array { len, count },
            Container::Object => KeptNode::Object { len, count },
        }
    }
}

// The node of a value without members or text. Its kind is known where this is inlined, so the
// other cases disappear.
#[inline(always)]
fn static_node(value: StaticNode) -> KeptNode
    ensures { result ≡ kept_of (textless (static_item value)) }
{
    match value {
        StaticNode::Null => KeptNode::Null,
        StaticNode::Bool(b) => KeptNode::Bool(b),
        StaticNode::I64(n) => KeptNode::I64(n),
        StaticNode::U64(n) => KeptNode::U64(n),
        StaticNode::I128(n) => KeptNode::I128(n),
        StaticNode::U128(n) => KeptNode::U128(n),
    }
}
