// The functions of docs/READING.md, as they stand there.
use crate::tests::tape_of;

mod root {
    // How many sizes the document lists.
    pub(super) fn sizes(rt: &impl AllocGlobal) -> simd_json::Result<usize> {
        let mut input = *b"{\"name\":\"tape\",\"sizes\":[1,[2,3],4]}";
        let tape = simd_json::to_tape(rt.alloc(), &mut input)?;
        let sizes = tape
            .as_value()
            .get("sizes")
            .and_then(|value| value.as_array());
        Ok(sizes.map_or(0, |array| array.len()))
    }
}

mod members {
    use simd_json::tape::Value;

    // How many arrays there are among the members of a value.
    pub(super) fn arrays_in(value: Value<'_, '_>) -> usize {
        let mut count = 0usize;
        if let Some(array) = value.as_array() {
            for element in &array {
                if element.is_array() {
                    count = count.saturating_add(1);
                }
            }
        }
        if let Some(object) = value.as_object() {
            for (_, member) in &object {
                if member.is_array() {
                    count = count.saturating_add(1);
                }
            }
        }
        count
    }
}

mod errors {
    use simd_json::to_tape;
    use simd_json_check::Location;

    pub(super) fn line_of_error(rt: &impl AllocGlobal) -> Option<usize> {
        let input = *b"[1,\n2,]";
        let mut parsed = input;
        let error = to_tape(rt.alloc(), &mut parsed).err()?;
        Some(Location::new(&input, error).line())
    }
}

#[test]
fn documents_are_read_as_shown(rt: HostRuntime) {
    assert_eq!(rt; root::sizes(&rt), Ok(3));
    assert_eq!(rt; errors::line_of_error(&rt), Some(2));
    let mut input = *b"[1,[],[[]],{\"a\":[]}]";
    let tape = tape_of(&rt, &mut input);
    assert_eq!(rt; members::arrays_in(tape.as_value()), 2);
    let object = tape.as_value().get_idx(3).expect(&rt, "there are four");
    assert_eq!(rt; members::arrays_in(object), 1);
}
