//! All bytes of a reader.
ghost use Rattle.std.specs.Prelude.{◌≡◌, false, true, OnOk};
ghost use Rattle.programs.specs.Failures.{EndsRead};
ghost use Rattle.programs.specs.Ports.{HasRead};

use crate::channel::Channel;
use crate::failure::Failure;
use std::alloc::Allocator;
use std::io::Read;

// How many bytes are read at a time.
const BLOCK: usize = 16_384;

// How many are reserved once a whole block was read. An allocator that maps so large a list by
// itself grows it without a copy, and bytes that are never written take no memory.
const MORE: usize = 262_144;

/// Returns the bytes of a reader up to its end.
///
/// Fails with `Read` if reading fails, and with `Resources` if an allocation does.
pub fn read_all<R: Read, A: Allocator>(a: A, reader: &mut Channel<R>) -> Result<Vec<u8, A>, Failure>
    requires { reader.old.failed ≡ false }
    ensures bytes { EndsRead reader.new.failed (R.remaining reader.old.inner)
        (R.remaining reader.new.inner)
        (λ input. HasRead (R.remaining reader.old.inner) (R.remaining reader.new.inner)
        input.items) result }
    ensures ended { OnOk result (reader.new.ended ≡ true) }
{
    let mut input = Vec::new(a);
    let mut block = [0; BLOCK];
    loop {
        let count = match reader.read(&mut block) {
            Ok(0) => return Ok(input),
            Ok(count) => count,
            Err(_) => return Err(Failure::Read),
        };
        if input.is_empty() && count == BLOCK {
            input.reserve(MORE)?;
        }
        input.extend_from_slice(&block[..count])?;
    }
}
