//! The row before the rows of all lines.
ghost use Rattle.std.specs.Prelude.{◌≡◌, false};
ghost use Rattle.jpick.specs.Runs.{Heads};

use crate::fields::{Spare, Wanted};
use crate::rows::put_row;
use programs::{Channel, Failure};
use simd_json_print::text::Text;
use std::alloc::Allocator;
use std::io::Write;

/// Writes the row of the queries themselves, as strings.
///
/// Fails with `Write` if writing does, or with `Closed` in its place, and with `Resources` if an
/// allocation fails, after a prefix of the row.
pub fn write_header<A: Allocator + Copy, W: Write>(
    a: A,
    wanted: &Wanted<'_>,
    out: &mut Channel<W>,
) -> Result<(), Failure>
    requires { out.old.failed ≡ false }
    ensures { Heads W.contents wanted.now out.old out.new result }
{
    let mut text = Text::<Channel<W>, 64>::new(out);
    let put = put_row(&mut text, &mut Spare::new(a), &mut [], wanted, None);
    match text.finish() {
        Ok(()) => Ok(put?),
        Err(_) => Err(Failure::of_output(out.closed(), true)),
    }
}
