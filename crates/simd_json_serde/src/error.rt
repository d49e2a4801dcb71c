//! Why nothing was read.
ghost use Rattle.std.specs.Prelude.{◌≡◌, ◌⊎◌, ◌↔◌, IsTrue, Some};
ghost use Rattle.simd_json_serde.specs.Words.{found_words, wanted_words};
ghost use Rattle.std.specs.Fmt.{DisplaysOnOk};
ghost use Rattle.simd_json_parts.specs.Document.{Document};
ghost use Rattle.simd_json_parts.specs.Listing.{listing};

use crate::nodes::Nodes;
use crate::path::append_path;
use simd_json::ValueType;
use std::alloc::Global;
use std::fmt;
use std::fmt::InlineText;

// How many bytes of a field's name or of a message are kept.
const NAME_LEN: usize = 32;

/// How a value and a type disagree.
#[derive(Clone, Copy, Debug, Drop, PartialEq, Eq)]
pub enum MismatchKind {
    /// A value of another kind was expected.
    InvalidType {
        /// The kind that was expected.
        expected: ValueType,
        /// The kind of the value.
        got: ValueType,
    },
    /// The value is not one of the type's, as an integer out of its range.
    InvalidValue,
    /// An array has too few or too many elements.
    InvalidLength,
    /// A value was expected after the last one.
    MissingValue,
    /// An object has no member for a field.
    MissingField,
    /// An object has two members for a field.
    DuplicateField,
    /// The type has no field with the key, and denies unknown fields.
    UnknownField,
    /// The type has no such variant.
    UnknownVariant,
    /// A message of the type's own.
    Custom,
    /// An allocation failed.
    OutOfMemory,
}

impl MismatchKind {
    // Whether it tells of a field's name, or is a message.
    fn has_name(self) -> bool {
        matches!(
            self,
            MismatchKind::MissingField | MismatchKind::DuplicateField | MismatchKind::Custom
        )
    }
}

// The front of a field's name or of a message.
pub(crate) type FaultName = InlineText<NAME_LEN>;

/// Why a step of a [`NodeReader`](crate::NodeReader) failed.
// The reader keeps the name: each step that returned it would make room for it.
#[derive(Clone, Copy, Drop)]
pub struct StepFault {
    pub(crate) kind: MismatchKind,
    // A node of the value.
    pub(crate) node: usize,
    // How many containers are open around the value.
    pub(crate) depth: usize,
}

impl StepFault {
    /// How the value and the type disagree.
    pub fn kind(&self) -> MismatchKind
        ensures { result ≡ self.now.kind }
    {
        self.kind
    }

    pub(crate) fn is_memory(&self) -> bool
        ensures { IsTrue result ↔ (self.now.kind ≡ MismatchKind.OutOfMemory) }
    {
        self.kind == MismatchKind::OutOfMemory
    }
}

/// Where a document does not fit a type, and how.
///
/// It prints as `/statuses/3/user/id: expected an integer, found a string`, without the path where
/// the value that was read does not fit as a whole.
#[derive(Drop)]
pub struct Mismatch {
    fault: StepFault,
    name: FaultName,
    path: String,
}

impl Mismatch {
    ghost use Rattle.simd_json_serde.specs.Messages.{path_of, given_name, mismatch_reason};
    ghost use Rattle.simd_json_serde.specs.Outcomes.{HasPath};
    ghost use Rattle.simd_json_serde.specs.Nodes.{items_of};

    // Of the value around a node, with the name that the reader kept last, if the fault has one.
    // The path is built only now: nothing is kept for it during a read.
    #[cold]
    pub(crate) fn new(
        alloc: Global,
        fault: StepFault,
        name: FaultName,
        nodes: Nodes<'_, '_>,
    ) -> Mismatch
        ensures fault { (result.fault ≡ fault) ⊎ (result.fault.kind ≡ MismatchKind.OutOfMemory) }
        ensures path { (d : Document) → items_of nodes.entry ≡ listing d → HasPath d result }
    {
        let mut path = String::new(alloc);
        if fault.is_memory() || append_path(nodes, &fault, &mut path).is_err() {
            return Mismatch::no_memory(alloc);
        }
        let name = if fault.kind.has_name() {
            name
        } else {
            InlineText::new()
        };
        Mismatch { fault, name, path }
    }

    #[cold]
    pub(crate) fn no_memory(alloc: Global) -> Mismatch
        ensures kind { result.fault.kind ≡ MismatchKind.OutOfMemory }
        ensures path { (d : Document) → HasPath d result }
    {
        Mismatch {
            fault: StepFault {
                kind: MismatchKind::OutOfMemory,
                node: 0,
                depth: 0,
            },
            name: InlineText::new(),
            path: String::new(alloc),
        }
    }

    /// How the value and the type disagree.
    pub fn kind(&self) -> MismatchKind
        ensures { result ≡ self.now.fault.kind }
    {
        self.fault.kind
    }

    /// The value's JSON Pointer (RFC 6901), from the value that was read on. For an unknown or a
    /// duplicate field, and for a key that is no value of its type, it ends with the key; for a
    /// missing field it leads to the object.
    pub fn path(&self) -> &str
        ensures { result.now ≡ path_of self.now }
    {
        self.path.as_str()
    }

    /// The name of a field that is missing or there twice, or the message of
    /// [`MismatchKind::Custom`]: of both at most 32 bytes, and `...` at the end of one that is cut.
    /// Else it is empty.
    pub fn name(&self) -> &str
        ensures { result.now ≡ given_name self.now }
    {
        self.name.as_str()
    }

    // Without the path.
    fn put_reason<W: fmt::Write>(&self, f: &mut fmt::Formatter<W>) -> fmt::Result
        ensures { DisplaysOnOk W.write_str_gives f.old result
            (Some (mismatch_reason self.now.fault.kind (given_name self.now))) f.new }
    {
        let name = self.name();
        match self.fault.kind {
            MismatchKind::InvalidType { expected, got } => {
                let (expected, got) = (expected_words(expected), words(got));
                write!(f, "expected {expected}, found {got}")
            }
            MismatchKind::InvalidValue => f.write_str("the value does not fit the type"),
            MismatchKind::InvalidLength => f.write_str("the array has another length"),
            MismatchKind::MissingValue => f.write_str("a value is missing"),
            MismatchKind::MissingField => write!(f, "missing field `{name}`"),
            MismatchKind::DuplicateField => write!(f, "duplicate field `{name}`"),
            MismatchKind::UnknownField => f.write_str("unknown field"),
            MismatchKind::UnknownVariant => f.write_str("unknown variant"),
            MismatchKind::Custom => f.write_str(name),
            MismatchKind::OutOfMemory => f.write_str("out of memory"),
        }
    }
}

// The kind in words. Integers are one kind here, since those of the tape differ by their size.
fn words(kind: ValueType) -> &'static str
    ensures { result.now ≡ found_words kind }
{
    match kind {
        ValueType::I64 | ValueType::U64 | ValueType::I128 | ValueType::U128 => "an integer",
        _ => kind.words(),
    }
}

// The same of the kind that was expected: a float may be any number.
fn expected_words(kind: ValueType) -> &'static str
    ensures { result.now ≡ wanted_words kind }
{
    match kind {
        ValueType::Decimal => "a number",
        _ => words(kind),
    }
}

impl fmt::Display for Mismatch {
    ghost use Rattle.simd_json_serde.specs.Messages.{printed_mismatch};

    ghost output = { λ m. Some (printed_mismatch m) };

    fn fmt<W: fmt::Write>(&self, f: &mut fmt::Formatter<W>) -> fmt::Result {
        let path = self.path();
        if !path.is_empty() {
            write!(f, "{path}: ")?;
        }
        self.put_reason(f)
    }
}

impl fmt::Debug for Mismatch {
    fn fmt<W: fmt::Write>(&self, f: &mut fmt::Formatter<W>) -> fmt::Result {
        write!(f, "Mismatch({self})")
    }
}

impl std::error::Error for Mismatch {}

/// Why nothing was read.
#[derive(Debug, Drop)]
pub enum ReadError {
    /// The input is not a document within the limits, or an allocation of the parse failed.
    Parse(simd_json::Error),
    /// The input is a document that does not fit the type, or an allocation of the read failed.
    Mismatch(Mismatch),
}

impl ReadError {
    ghost use Rattle.simd_json_serde.specs.Outcomes.{HasErrorPath, IsNoMemory};

    pub(crate) fn no_memory(alloc: Global) -> ReadError
        ensures kind { IsNoMemory result }
        ensures path { (d : Document) → HasErrorPath d result }
    {
        ReadError::Mismatch(Mismatch::no_memory(alloc))
    }
}

impl fmt::Display for ReadError {
    ghost use Rattle.simd_json_serde.specs.Messages.{printed_read_error};

    ghost output = { λ e. Some (printed_read_error e) };

    fn fmt<W: fmt::Write>(&self, f: &mut fmt::Formatter<W>) -> fmt::Result {
        match self {
            ReadError::Parse(e) => write!(f, "{e}"),
            ReadError::Mismatch(e) => write!(f, "{e}"),
        }
    }
}

impl std::error::Error for ReadError {}
