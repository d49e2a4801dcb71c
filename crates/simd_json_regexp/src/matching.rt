//! Whether a text matches: each character is read once, and all that it may be is marked.
ghost use Rattle.std.specs.Prelude.{◌≡◌, ◌≤◌, ◌&&◌, ◌||◌, true, length};
ghost use Rattle.std.specs.Str.{chars};
ghost use Rattle.simd_json_regexp.specs.Marks.{accepts, is_last, matches, size, takes_empty};
ghost use Rattle.simd_json_regexp.specs.Nodes.{AreMeasured, regexp};

use crate::marks::{is_last, size, step, takes_empty};
use crate::node::Node;
use crate::pattern::MAX_POSITIONS;

// Whether the whole text matches.
pub(crate) fn matches(nodes: &[Node], text: &str) -> bool
    requires { AreMeasured nodes.now }
    ensures { result ≡ matches (regexp nodes.now) (chars text.now) }
{
    let mut marks = [false; MAX_POSITIONS];
    accepts(nodes, &mut marks[..size(nodes)], text)
}

// The same, where these characters are marked before.
fn accepts(nodes: &[Node], marks: &mut [bool], text: &str) -> bool
    requires measured { AreMeasured nodes.now }
    requires marks { length marks.old ≡ size (regexp nodes.now) }
    ensures { result ≡ accepts (regexp nodes.now) true marks.old (chars text.now) }
{
    let mut enters = true;
    for c in text.chars() {
        step(nodes, marks, enters, c);
        enters = false;
    }
    may_end(nodes, marks, enters)
}

// Whether the text may end here.
fn may_end(nodes: &[Node], marks: &[bool], enters: bool) -> bool
    requires measured { AreMeasured nodes.now }
    requires marks { length marks.now ≡ size (regexp nodes.now) }
    ensures { result
        ≡ (enters && takes_empty (regexp nodes.now) || is_last (regexp nodes.now) marks.now) }
{
    enters && takes_empty(nodes) || is_last(nodes, marks)
}
