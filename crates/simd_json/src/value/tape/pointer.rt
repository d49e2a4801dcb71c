//! JSON Pointer (RFC 6901): the value at a place within another.
ghost use Rattle.std.specs.Prelude.{◌≡◌, ◌≤◌, ◌<◌, None, drop, length, option_map, IfOk};
ghost use Rattle.std.specs.Result.{result_ok};
ghost use Rattle.simd_json_parts.specs.Followed.{first_step};
ghost use Rattle.simd_json_parts.specs.Pointed.{pointed, pointed_from, named};
ghost use Rattle.simd_json.specs.Viewed.{doc};
ghost use Rattle.simd_json_parts.specs.Views.{ok_map};

mod lookup;

use crate::value::tape::Value;
use lookup::child;
pub use simd_json_parts::pointer::{Pointer, PointerError, PointerExpected};
use simd_json_parts::pointer::{Parent, follow, is_plain, stop};
use std::convert::Infallible;

impl<'tape, 'input> Value<'tape, 'input> {
    ghost use Rattle.simd_json_parts.specs.PointedText.{text};
    ghost use Rattle.simd_json.specs.Viewed.{doc};

    /// The value that a JSON Pointer names (RFC 6901), or `None` where it is malformed or leads
    /// nowhere.
    ///
    /// The empty pointer names the value itself. Each `/` of another begins a reference token: the
    /// key of a pair of an object, of equal keys the first, with `~1` for `/` and `~0` for `~`; or
    /// the index of an element of an array, in digits without a leading zero.
    ///
    /// It costs little more than a call of [`get`](Value::get) or [`get_idx`](Value::get_idx) for
    /// each token.
    ///
    /// ```
    /// use simd_json::tape::Value;
    ///
    /// fn port(config: &Value<'_, '_>) -> Option<u16> {
    ///     config.pointer("/servers/0/port")?.as_u16()
    /// }
    /// ```
    pub fn pointer(&self, pointer: &str) -> Option<Value<'tape, 'input>>
        ensures { option_map doc result ≡ result_ok (pointed pointer.now (doc self.now)) }
    {
        let (reached, followed) = walk(*self, pointer);
        if followed < pointer.len() {
            return None;
        }
        Some(reached)
    }

    /// The value that a JSON Pointer names, as [`pointer`](Value::pointer) returns it.
    ///
    /// Returns where the pointer stops, and what it lacks there, where it is malformed or leads
    /// nowhere.
    pub fn try_pointer(&self, pointer: &str) -> Result<Value<'tape, 'input>, PointerError>
        ensures { ok_map doc result ≡ pointed pointer.now (doc self.now) }
    {
        let (reached, followed) = walk(*self, pointer);
        if followed < pointer.len() {
            return Err(stop(pointer.as_bytes(), followed, reached.value_type()));
        }
        Ok(reached)
    }

    /// The value that a split pointer names, or `None` where it leads nowhere, as
    /// [`pointer`](Value::pointer) of its text.
    pub fn at<const N: usize>(&self, pointer: &Pointer<'_, N>) -> Option<Value<'tape, 'input>>
        ensures { option_map doc result ≡ result_ok (pointed (text pointer.now) (doc self.now)) }
    {
        let text = pointer.as_str();
        let ends = pointer.ends();
        let mut reached = *self;
        let mut at = 0;
        for end in ends {
            let token = &text[at + 1..*end];
            reached = child(reached, token, is_plain(token.as_bytes()))?;
            at = *end;
        }
        Some(reached)
    }
}

// As far as the pointer leads: the value there, and how many bytes of the pointer were followed.
fn walk<'tape, 'input>(value: Value<'tape, 'input>, pointer: &str) -> (Value<'tape, 'input>, usize)
    ensures within { result.1 ≤ length pointer.now }
    ensures led { pointed pointer.now (doc value.entry)
        ≡ pointed_from result.1 (drop result.1 pointer.now) (doc result.0) }
    ensures stopped { result.1 < length pointer.now
        → result_ok (first_step (drop result.1 pointer.now) (doc result.0)) ≡ None }
{
    match follow(value, pointer) {
        Ok(led) => led,
        Err(never) => match never {},
    }
}

impl<'tape, 'input> Parent for Value<'tape, 'input> {
    ghost use Rattle.simd_json.specs.Viewed.{doc};

    type Stop = Infallible;

    ghost names = { λ v token found.
        IfOk found (λ o. option_map doc o ≡ result_ok (named token (doc v))) };

    #[inline(always)]
    fn child(self, token: &str, is_plain: bool) -> Result<Option<Self>, Infallible> {
        Ok(child(self, token, is_plain))
    }
}
