//! The iterator over the arrays and objects of a value.
use crate::value::tape::Value;
use crate::value::tape::descendants::Siblings;
use std::iter::FusedIterator;

/// An iterator over the arrays and objects of a value, the value itself among them.
#[derive(Clone, Copy, Debug)]
pub struct Containers<'tape, 'input> {
    row: Siblings<'tape, 'input>,
}

impl<'tape, 'input> Containers<'tape, 'input> {
    ghost use Rattle.std.specs.Prelude.{◌≡◌};
    ghost use Rattle.simd_json.specs.Beneath.{containers};
    ghost use Rattle.simd_json.specs.Descending.{containers_left};
    ghost use Rattle.simd_json.specs.Viewed.{doc};

    pub(super) fn new(value: Value<'tape, 'input>) -> Containers<'tape, 'input>
        ensures { containers_left result ≡ containers (doc value.entry) }
    {
        Containers {
            row: Siblings::new(value),
        }
    }
}

impl<'tape, 'input> Iterator for Containers<'tape, 'input> {
    type Item = Value<'tape, 'input>;

    ghost use Rattle.std.specs.Iterator.{YieldsFirstBy, item_count};
    ghost use Rattle.simd_json.specs.Descending.{containers_left};
    ghost use Rattle.simd_json.specs.Viewed.{doc};

    ghost next_gives = { YieldsFirstBy doc containers_left };

    ghost remaining = { item_count containers_left };

    // A step goes from node to node: a key and a scalar hold no containers, so that it need not
    // know which strings are keys.
    #[inline(always)]
    fn next(&mut self) -> Option<Value<'tape, 'input>> {
        'nodes: while let Some((value, _)) = self.row.split_first() {
            self.row = self.row.enter();
            if value.is_container() {
                return Some(value);
            }
        }
        None
    }
}

impl<'tape, 'input> FusedIterator for Containers<'tape, 'input> {}
