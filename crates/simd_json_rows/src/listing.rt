//! Nodes on one line, as `jtape tape` has them on several.
use anyhow::Result;
use simd_json::{Error, Node, StaticNode, append_quoted};
use std::alloc::Global;

pub fn nodes(alloc: Global, nodes: &[Node<'_>]) -> Result<String> {
    let mut line = String::new(alloc);
    for node in nodes {
        if !line.is_empty() {
            line.push_str(", ")?;
        }
        line.push_str(words(alloc, node)?.as_str())?;
    }
    Ok(line)
}

pub fn error(alloc: Global, error: &Error) -> Result<String> {
    Ok(format!(in alloc; "! {error}")?)
}

fn words(alloc: Global, node: &Node<'_>) -> Result<String> {
    Ok(match node {
        Node::Array { len, count } => format!(in alloc; "Array {len} {count}")?,
        Node::Object { len, count } => format!(in alloc; "Object {len} {count}")?,
        Node::Decimal(literal) => format!(in alloc; "Decimal {literal}")?,
        Node::String(string) => quoted(alloc, string)?,
        Node::Static(scalar) => scalar_words(alloc, *scalar)?,
    })
}

fn quoted(alloc: Global, string: &str) -> Result<String> {
    let mut text = Vec::from_slice(alloc, b"String ")?;
    append_quoted(&mut text, string)?;
    Ok(String::from_utf8(text)?)
}

fn scalar_words(alloc: Global, scalar: StaticNode) -> Result<String> {
    Ok(match scalar {
        StaticNode::Null => "Null".to_string(alloc)?,
        StaticNode::Bool(truth) => format!(in alloc; "Bool {truth}")?,
        StaticNode::I64(number) => format!(in alloc; "I64 {number}")?,
        StaticNode::U64(number) => format!(in alloc; "U64 {number}")?,
        StaticNode::I128(number) => format!(in alloc; "I128 {number}")?,
        StaticNode::U128(number) => format!(in alloc; "U128 {number}")?,
    })
}
