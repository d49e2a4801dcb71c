use simd_json_parts::node::{Node, StaticNode, ValueType};

#[test]
fn integers_are_equal_by_number(rt: HostRuntime) {
    assert!(rt; StaticNode::U64(1) == StaticNode::I64(1));
    assert!(rt; StaticNode::I64(0) == StaticNode::U64(0));
    assert!(rt; StaticNode::I64(-1) != StaticNode::U64(u64::MAX));
    assert!(rt; StaticNode::U128(1) == StaticNode::I64(1));
    assert!(rt; StaticNode::I64(-1) == StaticNode::I128(-1));
    assert!(rt; StaticNode::U64(1) == StaticNode::U128(1));
    assert!(rt; StaticNode::I128(1) == StaticNode::U64(1));
    assert!(rt; StaticNode::I128(1) == StaticNode::U128(1));
    assert!(rt; StaticNode::I128(-1) != StaticNode::U128(u128::MAX));
    assert!(rt; StaticNode::I64(-1) != StaticNode::U128(u128::MAX));
    assert!(rt; StaticNode::Null != StaticNode::U64(0));
    assert!(rt; StaticNode::Bool(true) != StaticNode::U64(1));
    assert!(rt; StaticNode::Bool(true) != StaticNode::Bool(false));
    assert!(rt; StaticNode::default() == StaticNode::Null);
}

#[test]
fn nodes_have_their_kinds(rt: HostRuntime) {
    let nodes = [
        (Node::Static(StaticNode::Null), ValueType::Null),
        (Node::Static(StaticNode::Bool(true)), ValueType::Bool),
        (Node::Static(StaticNode::I64(-1)), ValueType::I64),
        (Node::Static(StaticNode::U64(1)), ValueType::U64),
        (Node::Static(StaticNode::I128(-1)), ValueType::I128),
        (Node::Static(StaticNode::U128(1)), ValueType::U128),
        (Node::String("1"), ValueType::String),
        (Node::Decimal("1.5"), ValueType::Decimal),
        (Node::Array { len: 1, count: 2 }, ValueType::Array),
        (Node::Object { len: 1, count: 2 }, ValueType::Object),
    ];
    for (node, kind) in &nodes {
        assert_eq!(rt; node.value_type(), *kind);
    }
    assert!(rt; Node::String("1.5") != Node::Decimal("1.5"));
    assert!(rt; Node::Array { len: 1, count: 2 } != Node::Array { len: 1, count: 1 });
}
