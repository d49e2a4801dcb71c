//! A list that takes text as long as allocations succeed.
ghost use Rattle.std.specs.Prelude.{◌≡◌, ◌≤◌, ◌<◌, ◌∷◌, ◌++◌, Some, length, take, true};
ghost use Rattle.std.specs.Vec.{vec_capacity};

use crate::text::Target;
use std::alloc::Allocator;
use std::io;
use std::io::ErrorKind;

// A list that text is appended to, and whether one of its allocations failed. It is full then: it
// takes all that it has capacity for before it fails.
#[derive(Drop)]
pub(super) struct Growing<'v, A: Allocator> {
    pub(super) list: &'v mut Vec<u8, A>,
    // the capacity before the first text
    pub(super) capacity: usize,
    pub(super) has_failed: bool,
    ghost grown: { capacity ≤ vec_capacity list.now },
    ghost full: { has_failed ≡ true → capacity ≤ length list.now.items },
}

impl<A: Allocator> Target for Growing<'_, A> {
    // What a target holds is only appended to: so what is in front of the bytes stays as it is.
    ghost state = { λ g. record {
      held = Some (g.list.ghost_name ∷ g.capacity ∷ g.list.now.items);
      failed = Some g.has_failed;
    } };

    fn take_some(&mut self, bytes: &[u8]) -> io::Result<usize> {
        if self.has_failed {
            return Err(io::Error::from(ErrorKind::OutOfMemory));
        }
        if self.list.extend_from_slice(bytes).is_ok() {
            return Ok(bytes.len());
        }
        let taken = fill(self.list, bytes);
        if taken == 0 {
            self.has_failed = true;
            return Err(io::Error::from(ErrorKind::OutOfMemory));
        }
        Ok(taken)
    }
}

// Appends the first of the bytes, as many as the list has capacity for, and returns their number.
fn fill<A: Allocator>(list: &mut Vec<u8, A>, bytes: &[u8]) -> usize
    ensures few { result ≤ length bytes.now }
    ensures filled { list.new.items ≡ list.old.items ++ take result bytes.now }
    ensures full { result < length bytes.now → vec_capacity list.old ≤ length list.new.items }
    ensures capacity { vec_capacity list.old ≤ vec_capacity list.new }
{
    let spare = list.capacity() - list.len();
    let (front, _) = bytes.split_at(spare.min(bytes.len()));
    match list.extend_from_slice(front) {
        Ok(()) => front.len(),
        Err(_) => 0,
    }
}
