//! What segments select, without frames that the caller lends.
ghost use Rattle.std.specs.Prelude.{◌≡◌, ◌∷◌, ◌++◌, [], OnOk, map, option_map, slice_get};
ghost use Rattle.simd_json.specs.Viewed.{doc};
ghost use Rattle.simd_json_path.specs.Nodes.{nodes};
ghost use Rattle.simd_json_path.specs.Paths.{selected_by};

use crate::frame::Frame;
use simd_json::tape::Value;
use simd_json_query::Segment;
use std::alloc::AllocError;

// The first value that segments select of a value, in a query that is applied to `root`. It
// recurses over segments.
pub(crate) fn first_from<'path, 'tape, 'input>(
    segments: &'path [Segment<'path>],
    root: Value<'tape, 'input>,
    value: Value<'tape, 'input>,
) -> Option<Value<'tape, 'input>>
    ensures { option_map doc result ≡ slice_get
        (nodes (selected_by (doc root.entry)) segments.now (doc value.entry ∷ [])) 0 }
{
    let Some((segment, others)) = segments.split_first() else {
        return Some(value);
    };
    let mut frame = Frame::new(segment, value);
    'nodes: while let Some(node) = frame.next(root) {
        if let Some(first) = first_from(others, root, node) {
            return Some(first);
        }
    }
    None
}

// Appends all of them.
pub(crate) fn append_from<'path, 'tape, 'input>(
    segments: &'path [Segment<'path>],
    root: Value<'tape, 'input>,
    value: Value<'tape, 'input>,
    values: &mut Vec<Value<'tape, 'input>>,
) -> Result<(), AllocError>
    ensures { OnOk result (map doc values.new.items ≡ map doc values.old.items
        ++ nodes (selected_by (doc root.entry)) segments.now (doc value.entry ∷ [])) }
{
    let Some((segment, others)) = segments.split_first() else {
        values.push(value)?;
        return Ok(());
    };
    let mut frame = Frame::new(segment, value);
    'nodes: while let Some(node) = frame.next(root) {
        append_from(others, root, node, values)?;
    }
    Ok(())
}
