//! The nodes of a tape.
ghost use Rattle.std.specs.Prelude.{◌≡◌};
ghost use Rattle.simd_json_parts.specs.Headers.{count_of};
ghost use Rattle.simd_json_parts.specs.Nodes.{item_of};
ghost use Rattle.simd_json_parts.specs.NodeTypes.{static_type, item_type};

/// The kind of a value.
#[derive(Clone, Copy, Debug, Drop, PartialEq, Eq)]
pub enum ValueType {
    /// `null`.
    Null,
    /// `true` or `false`.
    Bool,
    /// A string.
    String,
    /// An integer written with `-` that fits `i64`.
    I64,
    /// An integer written without `-` that fits `u64`.
    U64,
    /// An integer written with `-` that fits `i128` and not `i64`.
    I128,
    /// An integer written without `-` that fits `u128` and not `u64`.
    U128,
    /// A number with a fraction or an exponent, kept as its literal.
    Decimal,
    /// A list of values.
    Array,
    /// A list of pairs of a key and a value.
    Object,
}

impl ValueType {
    ghost use Rattle.std.specs.Prelude.{◌≡◌};
    ghost use Rattle.simd_json_parts.specs.ErrorKinds.{type_words};

    /// The kind in words, as `an array`.
    pub fn words(&self) -> &'static str
        ensures { result.now ≡ type_words self.now }
    {
        match self {
            ValueType::Null => "null",
            ValueType::Bool => "a boolean",
            ValueType::String => "a string",
            ValueType::I64 => "a signed integer",
            ValueType::U64 => "an unsigned integer",
            ValueType::I128 => "a signed integer of 128 bits",
            ValueType::U128 => "an unsigned integer of 128 bits",
            ValueType::Decimal => "a decimal",
            ValueType::Array => "an array",
            ValueType::Object => "an object",
        }
    }
}

/// A value of fixed size: null, a truth value or an integer.
///
/// Two are equal if both are null, the same truth value, or integers of the same number, of
/// whatever kinds.
#[derive(Clone, Copy, Debug, Drop)]
pub enum StaticNode {
    /// `null`.
    Null,
    /// `true` or `false`.
    Bool(bool),
    /// An integer written with `-` that fits `i64`; `-0` is `I64(0)`.
    I64(i64),
    /// An integer written without `-` that fits `u64`.
    U64(u64),
    /// An integer written with `-` that fits `i128` and not `i64`.
    I128(i128),
    /// An integer written without `-` that fits `u128` and not `u64`.
    U128(u128),
}

impl StaticNode {
    /// The kind of the value.
    pub fn value_type(&self) -> ValueType
        ensures { result ≡ static_type self.now }
    {
        match self {
            StaticNode::Null => ValueType::Null,
            StaticNode::Bool(_) => ValueType::Bool,
            StaticNode::I64(_) => ValueType::I64,
            StaticNode::U64(_) => ValueType::U64,
            StaticNode::I128(_) => ValueType::I128,
            StaticNode::U128(_) => ValueType::U128,
        }
    }
}

impl PartialEq for StaticNode {
    ghost use Rattle.std.specs.Cmp.Rules.{comparing};
    ghost use Rattle.std.proofs.Common.{rules};
    ghost use Rattle.simd_json_parts.specs.StaticNodes.{same_static};

    ghost eq = { same_static };

    ghost laws = { Prim.search (comparing, rules) };

    fn eq(&self, other: &StaticNode) -> bool {
        match (*self, *other) {
            (StaticNode::Null, StaticNode::Null) => true,
            (StaticNode::Bool(a), StaticNode::Bool(b)) => a == b,
            (StaticNode::I64(a), StaticNode::I64(b)) => a == b,
            (StaticNode::U64(a), StaticNode::U64(b)) => a == b,
            (StaticNode::I64(a), StaticNode::U64(b)) | (StaticNode::U64(b), StaticNode::I64(a)) => {
                a >= 0 && a as u64 == b
            }
            (StaticNode::I128(a), StaticNode::I128(b)) => a == b,
            (StaticNode::U128(a), StaticNode::U128(b)) => a == b,
            (StaticNode::I64(a), StaticNode::I128(b)) | (StaticNode::I128(b), StaticNode::I64(a)) =>
                a as i128 == b,
            (StaticNode::U64(a), StaticNode::I128(b)) | (StaticNode::I128(b), StaticNode::U64(a)) =>
                a as i128 == b,
            (StaticNode::U64(a), StaticNode::U128(b)) | (StaticNode::U128(b), StaticNode::U64(a)) =>
                a as u128 == b,
            (StaticNode::I64(a), StaticNode::U128(b)) | (StaticNode::U128(b), StaticNode::I64(a)) =>
                a >= 0 && a as u128 == b,
            (StaticNode::I128(a), StaticNode::U128(b))
            | (StaticNode::U128(b), StaticNode::I128(a)) => a >= 0 && a as u128 == b,
            _ => false,
        }
    }
}

impl Eq for StaticNode {
    ghost use Rattle.std.specs.Cmp.Rules.{comparing};
    ghost use Rattle.std.proofs.Common.{rules};

    ghost laws = { Prim.search (comparing, rules) };
}

impl Default for StaticNode {
    ghost use Rattle.std.specs.Prelude.{◌≡◌};
    ghost use Rattle.simd_json_parts.specs.declared.node.StaticNode.TheVariants as fixed;

    ghost is_default = { λ value. value ≡ fixed.Null };

    fn default() -> Self {
        Self::Null
    }
}

/// One entry of a tape: a scalar, a key, or the header of a container, whose members follow it.
#[derive(Clone, Copy, Debug, Drop, PartialEq)]
pub enum Node<'input> {
    /// A string or a key, with its escapes decoded.
    String(&'input str),
    /// An object of `len` pairs, with `count` nodes beneath it: for each pair its key and then the
    /// value's nodes.
    Object {
        /// The number of pairs.
        len: usize,
        /// The number of nodes after this one that belong to it.
        count: usize,
    },
    /// An array of `len` values, with `count` nodes beneath it.
    Array {
        /// The number of values.
        len: usize,
        /// The number of nodes after this one that belong to it.
        count: usize,
    },
    /// A null, a truth value or an integer.
    Static(StaticNode),
    /// The literal of a number with a fraction or an exponent.
    Decimal(&'input str),
}

impl Node<'_> {
    /// The kind of the value that begins with the node. A key has the kind `String`.
    pub fn value_type(&self) -> ValueType
        ensures { result ≡ item_type (item_of self.now) }
    {
        match self {
            Node::String(_) => ValueType::String,
            Node::Object { .. } => ValueType::Object,
            Node::Array { .. } => ValueType::Array,
            Node::Static(value) => value.value_type(),
            Node::Decimal(_) => ValueType::Decimal,
        }
    }

    /// The number of nodes after this one that belong to it: those of its members if it is the
    /// header of an array or an object, and 0 otherwise.
    // Not a `match`: its jump table would cost more than the rest of a step over a value.
    #[inline(always)]
    pub fn count(&self) -> usize
        ensures { result ≡ count_of (item_of self.now) }
    {
        if let Node::Array { count, .. } = *self {
            count
        } else if let Node::Object { count, .. } = *self {
            count
        } else {
            0
        }
    }
}

/// A value of another kind than the expected one.
///
/// It prints in words, as `expected a string, found an array`.
#[derive(Clone, Copy, Debug, Drop, PartialEq, Eq)]
pub struct TryTypeError {
    /// The kind that was expected.
    pub expected: ValueType,
    /// The kind of the value.
    pub got: ValueType,
}

impl std::error::Error for TryTypeError {}
