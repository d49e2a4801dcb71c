use simd_json_parts::error::{Error, ErrorType, Result};
use simd_json_parts::node::ValueType;
use std::alloc::Global;
use std::process::Abort;
use std::test::Fail;

// How an error of this kind, without a place, is printed.
fn printed(rt: &HostRuntime, error: ErrorType) -> std::result::Result<String, Fail> {
    Ok(Error::generic(error).to_string(rt.alloc())?)
}

#[test]
fn reports_where_and_why(rt: HostRuntime) -> std::result::Result<(), Fail> {
    let error = Error::new(20, Some(' '), ErrorType::InvalidNumber);
    assert_eq!(rt; error.index(), 20);
    assert_eq!(rt; error.character(), Some(' '));
    assert!(rt; *error.error() == ErrorType::InvalidNumber);
    assert_eq!(rt;
        error.to_string(rt.alloc())?.as_str(),
        "InvalidNumber at character 20 (' ')"
    );
    let error = Error::generic(ErrorType::Eof);
    assert_eq!(rt; error.index(), 0);
    assert_eq!(rt; error.character(), None);
    assert_eq!(rt; error.to_string(rt.alloc())?.as_str(), "Eof at character 0");
    Ok(())
}

#[test]
fn prints_what_a_kind_holds(rt: HostRuntime) -> std::result::Result<(), Fail> {
    let unexpected = printed(&rt, ErrorType::Unexpected(Some(ValueType::I64), None))?;
    assert_eq!(rt;
        unexpected.as_str(),
        "Unexpected(Some(I64), None) at character 0"
    );
    let message = ErrorType::Serde(String::from_str(rt.alloc(), "a")?);
    assert_eq!(rt; printed(&rt, message)?.as_str(), "Serde(a) at character 0");
    Ok(())
}

#[test]
fn compares_fields(rt: HostRuntime) -> std::result::Result<(), Fail> {
    let unexpected = ErrorType::Unexpected(Some(ValueType::I64), None);
    assert!(rt; unexpected == unexpected);
    assert!(rt; unexpected != ErrorType::Unexpected(None, None));
    let a = ErrorType::Serde(String::from_str(rt.alloc(), "a")?);
    let b = ErrorType::Serde(String::from_str(rt.alloc(), "b")?);
    assert!(rt; a == a);
    assert!(rt; a != b);
    assert!(rt; Error::generic(a).is_data());
    assert!(rt; Error::generic(b).is_data());
    Ok(())
}

// A list with capacity for this many numbers.
fn list_of_capacity(alloc: Global, capacity: usize) -> Result<Vec<u64>> {
    Ok(Vec::with_capacity(alloc, capacity)?)
}

#[test]
fn reports_a_failed_growth(rt: HostRuntime) {
    assert!(rt; list_of_capacity(rt.alloc(), 3).is_ok());
    match list_of_capacity(rt.alloc(), usize::MAX) {
        Ok(_) => panic!(rt; "more than there is"),
        Err(error) => {
            assert!(rt; error == Error::generic(ErrorType::OutOfMemory));
            assert!(rt; error.is_io());
        }
    }
}

// Which of `is_io`, `is_eof`, `is_syntax` and `is_data` is true.
const IO: [bool; 4] = [true, false, false, false];

const EOF: [bool; 4] = [false, true, false, false];

const SYNTAX: [bool; 4] = [false, false, true, false];

const DATA: [bool; 4] = [false, false, false, true];

// Asserts what is printed of a kind, and which class it has.
fn assert_kind(rt: &(impl AllocGlobal + Abort), kind: ErrorType, name: &str, class: [bool; 4]) {
    let printed = kind.to_string(rt.alloc()).expect(rt, "there is memory");
    assert_eq!(rt; printed.as_str(), name);
    let e = Error::generic(kind);
    assert_eq!(rt;
        [e.is_io(), e.is_eof(), e.is_syntax(), e.is_data()],
        class,
        "{name:?}"
    );
}

#[test]
fn kinds_of_the_whole_input_are_printed(rt: HostRuntime) {
    assert_kind(&rt, ErrorType::InputTooLarge, "InputTooLarge", IO);
    assert_kind(
        &rt,
        ErrorType::InsufficientPadding,
        "InsufficientPadding",
        IO,
    );
    assert_kind(&rt, ErrorType::OutOfMemory, "OutOfMemory", IO);
    assert_kind(&rt, ErrorType::Eof, "Eof", EOF);
}

#[test]
fn kinds_of_syntax_are_printed(rt: HostRuntime) {
    assert_kind(&rt, ErrorType::InternalError, "InternalError", SYNTAX);
    assert_kind(&rt, ErrorType::BadKeyType, "BadKeyType", SYNTAX);
    assert_kind(
        &rt,
        ErrorType::ExpectedArrayComma,
        "ExpectedArrayComma",
        SYNTAX,
    );
    assert_kind(
        &rt,
        ErrorType::ExpectedObjectColon,
        "ExpectedObjectColon",
        SYNTAX,
    );
    assert_kind(&rt, ErrorType::ExpectedMapComma, "ExpectedMapComma", SYNTAX);
    assert_kind(&rt, ErrorType::ExpectedMapEnd, "ExpectedMapEnd", SYNTAX);
    assert_kind(&rt, ErrorType::InvalidEscape, "InvalidEscape", SYNTAX);
    assert_kind(&rt, ErrorType::InvalidExponent, "InvalidExponent", SYNTAX);
    assert_kind(&rt, ErrorType::InvalidNumber, "InvalidNumber", SYNTAX);
    assert_kind(&rt, ErrorType::InvalidUtf8, "InvalidUtf8", SYNTAX);
    assert_kind(
        &rt,
        ErrorType::InvalidUnicodeEscape,
        "InvalidUnicodeEscape",
        SYNTAX,
    );
    assert_kind(
        &rt,
        ErrorType::InvalidUnicodeCodepoint,
        "InvalidUnicodeCodepoint",
        SYNTAX,
    );
    assert_kind(&rt, ErrorType::KeyMustBeAString, "KeyMustBeAString", SYNTAX);
    assert_kind(&rt, ErrorType::NoStructure, "NoStructure", SYNTAX);
    assert_kind(&rt, ErrorType::Parser, "Parser", SYNTAX);
    assert_kind(&rt, ErrorType::Syntax, "Syntax", SYNTAX);
    assert_kind(&rt, ErrorType::TrailingData, "TrailingData", SYNTAX);
    assert_kind(
        &rt,
        ErrorType::UnexpectedCharacter,
        "UnexpectedCharacter",
        SYNTAX,
    );
    assert_kind(
        &rt,
        ErrorType::UnterminatedString,
        "UnterminatedString",
        SYNTAX,
    );
    assert_kind(
        &rt,
        ErrorType::ExpectedArrayContent,
        "ExpectedArrayContent",
        SYNTAX,
    );
    assert_kind(
        &rt,
        ErrorType::ExpectedObjectContent,
        "ExpectedObjectContent",
        SYNTAX,
    );
    assert_kind(
        &rt,
        ErrorType::ExpectedObjectKey,
        "ExpectedObjectKey",
        SYNTAX,
    );
    assert_kind(&rt, ErrorType::Overflow, "Overflow", SYNTAX);
    assert_kind(&rt, ErrorType::SimdUnsupported, "SimdUnsupported", SYNTAX);
}

#[test]
fn kinds_of_data_are_printed(rt: HostRuntime) {
    let serde = String::from_str(rt.alloc(), "a").expect(&rt, "there is memory");
    assert_kind(&rt, ErrorType::ExpectedArray, "ExpectedArray", DATA);
    assert_kind(&rt, ErrorType::ExpectedBoolean, "ExpectedBoolean", DATA);
    assert_kind(&rt, ErrorType::ExpectedEnum, "ExpectedEnum", DATA);
    assert_kind(&rt, ErrorType::ExpectedFloat, "ExpectedFloat", DATA);
    assert_kind(&rt, ErrorType::ExpectedInteger, "ExpectedInteger", DATA);
    assert_kind(&rt, ErrorType::ExpectedMap, "ExpectedMap", DATA);
    assert_kind(&rt, ErrorType::ExpectedNull, "ExpectedNull", DATA);
    assert_kind(&rt, ErrorType::ExpectedTrue, "ExpectedTrue", DATA);
    assert_kind(&rt, ErrorType::ExpectedFalse, "ExpectedFalse", DATA);
    assert_kind(&rt, ErrorType::ExpectedNumber, "ExpectedNumber", DATA);
    assert_kind(&rt, ErrorType::ExpectedSigned, "ExpectedSigned", DATA);
    assert_kind(&rt, ErrorType::ExpectedString, "ExpectedString", DATA);
    assert_kind(&rt, ErrorType::ExpectedUnsigned, "ExpectedUnsigned", DATA);
    assert_kind(
        &rt,
        ErrorType::DepthLimitExceeded,
        "DepthLimitExceeded",
        DATA,
    );
    assert_kind(
        &rt,
        ErrorType::Unexpected(Some(ValueType::I64), None),
        "Unexpected(Some(I64), None)",
        DATA,
    );
    assert_kind(&rt, ErrorType::Serde(serde), "Serde(a)", DATA);
}
