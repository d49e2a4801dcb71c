//! How the machine rejects a token.
//!
//! A fault is an error of a token, small enough for the machine's steps to return it in registers.
//! It becomes an [`Error`] once, when the machine has ended. Errors of the whole input are found by
//! the first stage, and are not faults.
ghost use Rattle.std.specs.Prelude.{◌≡◌};
ghost use Rattle.simd_json_parts.specs.Faults.{fault_with};
ghost use Rattle.simd_json_stages.specs.Rejections.{error_type};

use simd_json_parts::error::{Error, ErrorType};

// Where and why a token was rejected.
#[derive(Clone, Copy, Drop)]
pub(crate) struct Fault {
    // the byte index in the input, of the token or of a byte in it
    pub(crate) index: usize,
    // the byte there, or a space at the end of the input; in a bad escape that after the backslash
    pub(crate) byte: u8,
    // what is wrong with it
    pub(crate) kind: FaultKind,
}

impl Fault {
    // The error that a caller sees.
    #[cold]
    pub(crate) fn into_error(self) -> Error
        ensures { result ≡ fault_with (error_type self.kind) self.index self.byte }
    {
        let kind = match self.kind {
            FaultKind::InternalError => ErrorType::InternalError,
            FaultKind::ExpectedArrayContent => ErrorType::ExpectedArrayContent,
            FaultKind::ExpectedObjectContent => ErrorType::ExpectedObjectContent,
            FaultKind::ExpectedObjectKey => ErrorType::ExpectedObjectKey,
            FaultKind::ExpectedObjectColon => ErrorType::ExpectedObjectColon,
            FaultKind::ExpectedTrue => ErrorType::ExpectedTrue,
            FaultKind::ExpectedFalse => ErrorType::ExpectedFalse,
            FaultKind::ExpectedNull => ErrorType::ExpectedNull,
            FaultKind::InvalidNumber => ErrorType::InvalidNumber,
            FaultKind::InvalidEscape => ErrorType::InvalidEscape,
            FaultKind::InvalidUnicodeCodepoint => ErrorType::InvalidUnicodeCodepoint,
            FaultKind::Syntax => ErrorType::Syntax,
            FaultKind::TrailingData => ErrorType::TrailingData,
            FaultKind::DepthLimitExceeded => ErrorType::DepthLimitExceeded,
        };
        Error::new(self.index, Some(char::from(self.byte)), kind)
    }
}

// What can be wrong with a token, by the names of `ErrorType`.
#[derive(Clone, Copy, Drop)]
pub(crate) enum FaultKind {
    InternalError,
    ExpectedArrayContent,
    ExpectedObjectContent,
    ExpectedObjectKey,
    ExpectedObjectColon,
    ExpectedTrue,
    ExpectedFalse,
    ExpectedNull,
    InvalidNumber,
    InvalidEscape,
    InvalidUnicodeCodepoint,
    Syntax,
    TrailingData,
    DepthLimitExceeded,
}
