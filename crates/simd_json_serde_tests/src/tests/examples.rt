// The examples of the crate's page and of READING, and a read by the steps of a reader.
use crate::tests::{MEMORY, bytes_of};
use serde::{DeserializeOwned, Deserializer, Format};
use simd_json::to_tape;
use simd_json_serde::NodeReader;

// As they are written there.
mod page {
    use serde::Deserialize;
    use simd_json_serde::{ReadError, from_slice_mut};
    use std::alloc::Global;

    #[derive(Drop, Deserialize)]
    struct Line {
        level: String,
        status: u16,
    }

    // The status of a line of a log, as `{"level":"info","status":200}`.
    pub(super) fn status(alloc: Global, input: &mut [u8]) -> Result<u16, ReadError> {
        let line: Line = from_slice_mut(alloc, input)?;
        Ok(line.status)
    }
}

mod reading {
    use simd_json::tape::Value;
    use simd_json_serde::{ReadError, from_value};
    use std::alloc::Global;

    // The ports of the first server, if it lists any.
    pub(super) fn ports(alloc: Global, config: &Value<'_, '_>) -> Result<Vec<u16>, ReadError> {
        match config.pointer("/servers/0/ports") {
            Some(ports) => from_value(alloc, &ports),
            None => Ok(Vec::new(alloc)),
        }
    }
}

#[test]
fn examples_run(rt: HostRuntime) {
    let alloc = rt.alloc();
    let mut input = *br#"{"level":"info","status":200}"#;
    assert_eq!(rt; page::status(alloc, &mut input).ok(), Some(200));
    let mut input = *br#"{"servers":[{"ports":[80,8080]}]}"#;
    let tape = to_tape(alloc, &mut input).ok().expect(&rt, MEMORY);
    let ports = reading::ports(alloc, &tape.as_value()).ok();
    assert_eq!(rt; ports.expect(&rt, MEMORY).as_slice(), [80, 8080].as_slice());
}

#[test]
fn steps_pass_one_value_each(rt: HostRuntime) {
    let alloc = rt.alloc();
    let mut input = bytes_of(&rt, alloc, r#"[[1,{"a":[]}],7,"x"]"#);
    let tape = to_tape(alloc, &mut input).ok().expect(&rt, MEMORY);
    let mut reader = NodeReader::new(tape.nodes(), Vec::new(alloc));
    assert!(rt; reader.begin_seq(&[]).is_ok(), "an array");
    assert!(rt; reader.skip(&[]).is_ok(), "an array in it");
    let seven = u64::deserialize_owned(alloc, &mut Deserializer::new(&[], &mut reader));
    assert_eq!(rt; seven.ok(), Some(7));
    let text = String::deserialize_owned(alloc, &mut Deserializer::new(&[], &mut reader));
    assert_eq!(rt; text.ok().expect(&rt, MEMORY).as_str(), "x");
    assert_eq!(rt; reader.next_item(&[]).ok(), Some(false));
}
