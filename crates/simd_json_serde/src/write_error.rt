//! Why no text was made.
use std::{fmt, io};

/// Why no text was made or written.
#[derive(Drop)]
pub enum WriteError {
    /// A key is neither a string nor a number nor a truth value, a flattened value is no object, an
    /// allocation failed, or it is the type's own error.
    Value(serde_json::Error),
    /// The text is not a document, since a `Serialize` that was written by hand has its steps in
    /// another order than that of a JSON text; it has more than 2^32 - 1 bytes; or an allocation of
    /// its check failed.
    Text(simd_json::Error),
    /// The writer's error, or one of kind `WriteZero` if it takes 0 bytes of a non-empty buffer.
    Io(io::Error),
}

impl From<serde_json::Error> for WriteError {
    ghost use Rattle.std.specs.Prelude.{◌≡◌};
    ghost use Rattle.simd_json_serde.specs.declared.write_error.WriteError.TheVariants as error;

    ghost from_gives = { λ e made. made ≡ error.Value e };

    fn from(error: serde_json::Error) -> WriteError {
        WriteError::Value(error)
    }
}

impl fmt::Display for WriteError {
    ghost use Rattle.simd_json_serde.specs.Messages.{printed_write_error};

    ghost output = { printed_write_error };

    fn fmt<W: fmt::Write>(&self, f: &mut fmt::Formatter<W>) -> fmt::Result {
        match self {
            WriteError::Value(e) => write!(f, "{e}"),
            WriteError::Text(e) => write!(f, "{e}"),
            WriteError::Io(e) => write!(f, "{e}"),
        }
    }
}

impl fmt::Debug for WriteError {
    fn fmt<W: fmt::Write>(&self, f: &mut fmt::Formatter<W>) -> fmt::Result {
        write!(f, "WriteError({self})")
    }
}

impl std::error::Error for WriteError {}
