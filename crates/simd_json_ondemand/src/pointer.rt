//! JSON Pointer (RFC 6901): the value at a place within another.
ghost use Rattle.std.specs.Prelude.{◌≡◌, is_some, option_map, true, IfErr, List, Some, ℕ};
ghost use Rattle.std.specs.Prelude.{option_and_then};
ghost use Rattle.simd_json_ondemand.specs.Reached.{member_reached, named_at};
ghost use Rattle.simd_json_ondemand.specs.Sites.{member_sites, site};
ghost use Rattle.simd_json_ondemand.specs.Stopped.{told};
ghost use Rattle.simd_json_parts.specs.Pointed.{unescaped, pointed};
ghost use Rattle.std.specs.Result.{result_ok};
ghost use Rattle.simd_json_parts.specs.Bytes.{byte_at, quote};
ghost use Rattle.simd_json_parts.specs.Views.{as_str, ok_map};
ghost use Rattle.simd_json_parts.specs.Document as parts;

use crate::key::is_written;
use crate::object::Object;
use crate::unexpected::{Expected, Unexpected};
use crate::value::Value;
use crate::walk::{StoppedAt, found, told};
use simd_json_parts::pointer::{Parent, Pointer, follow, is_plain, is_well_formed, read_index};

impl<'d> Value<'d> {
    ghost use Rattle.simd_json_ondemand.specs.Docs as docs;
    ghost use Rattle.simd_json_ondemand.specs.Docs.{doc};
    ghost use Rattle.simd_json_ondemand.specs.Keys.{is_key};
    ghost use Rattle.simd_json_ondemand.specs.Reached.{pointed_at};
    ghost use Rattle.simd_json_ondemand.specs.Sites.{site};
    ghost use Rattle.simd_json_ondemand.specs.Stopped.{told};
    ghost use Rattle.simd_json_ondemand.specs.Walks.{found};
    ghost use Rattle.simd_json_ondemand.specs.declared.unexpected.Expected.TheVariants.{Container};
    ghost use Rattle.simd_json_parts.specs.PointedText.{text};

    /// Returns the value that a JSON Pointer names (RFC 6901), or `None` where it is malformed or
    /// leads nowhere. `None` does not tell the end of an array or an object from bytes that are
    /// none; [`try_pointer`](Value::try_pointer) does.
    ///
    /// The empty pointer names the value itself. Each `/` of another begins a reference token: the
    /// key of a member of an object, of equal keys the first, with `~1` for `/` and `~0` for `~`;
    /// or the index of a value of an array, in digits without a leading zero.
    ///
    /// It costs little more than a call of [`get`](Value::get) or [`get_idx`](Value::get_idx) for
    /// each token.
    ///
    /// ```
    /// use simd_json_ondemand::Value;
    ///
    /// fn port(config: Value<'_>) -> Option<u16> {
    ///     config.pointer("/servers/0/port")?.as_u16()
    /// }
    /// ```
    pub fn pointer(self, pointer: &str) -> Option<Value<'d>>
        ensures document { (d : parts.Document) → doc self.entry ≡ Some d → option_map doc result
            ≡ option_map (λ e. Some e) (result_ok (pointed pointer.now d)) }
        ensures walk { option_map site result ≡ found (pointed_at pointer.now (site self.entry)) }
    {
        found(self.follow(pointer))
    }

    /// Returns the value that a JSON Pointer names (RFC 6901), as [`pointer`](Value::pointer), or
    /// `None` where it leads nowhere: the pointer is malformed, or an array or an object on its way
    /// comes to its closing bracket without such a value. A token that is no index names nothing in
    /// an array, and one with another `~` than `~0` and `~1` nothing in an object, whatever they
    /// hold: there nothing is walked.
    ///
    /// Returns an error that expects `Container` where the pointer leads into a value that is
    /// neither an array nor an object, and one that names the place where the walk along an array
    /// or an object stopped before, as [`Array::try_next`](crate::Array::try_next) and
    /// [`Object::try_next`](crate::Object::try_next) do.
    ///
    /// ```
    /// use simd_json_ondemand::{Unexpected, Value};
    ///
    /// fn port(config: Value<'_>) -> std::result::Result<Option<u64>, Unexpected> {
    ///     match config.try_pointer("/servers/0/port")? {
    ///         Some(port) => Ok(Some(port.try_as_u64()?)),
    ///         None => Ok(None),
    ///     }
    /// }
    /// ```
    pub fn try_pointer(self, pointer: &str) -> Result<Option<Value<'d>>, Unexpected>
        ensures walk { ok_map (option_map site) result ≡ pointed_at pointer.now (site self.entry) }
        ensures document { (d : parts.Document) → doc self.entry ≡ Some d
            → option_map doc (found result)
            ≡ option_map (λ e. Some e) (result_ok (pointed pointer.now d)) }
        ensures container { (d : parts.Document) → doc self.entry ≡ Some d
            → IfErr result (λ e. e.expected ≡ Container) }
    {
        told(self.follow(pointer))
    }

    // The value that a pointer names.
    fn follow(self, pointer: &str) -> Result<Option<Value<'d>>, StoppedAt<'d>>
        ensures walk { told (option_map site) result ≡ pointed_at pointer.now (site self.entry) }
        ensures document { (d : parts.Document) → doc self.entry ≡ Some d
            → option_map doc (found result)
            ≡ option_map (λ e. Some e) (result_ok (pointed pointer.now d)) }
        ensures container { (d : parts.Document) → doc self.entry ≡ Some d
            → IfErr result (λ s. s.expected ≡ Container) }
    {
        let (reached, followed) = match follow(self, pointer) {
            Ok(led) => led,
            Err(stop) => return Err(stop),
        };
        if followed < pointer.len() {
            return Ok(None);
        }
        Ok(Some(reached))
    }

    /// Returns the value that a split pointer names, or `None` where it leads nowhere, as
    /// [`pointer`](Value::pointer) of its text.
    pub fn at<const N: usize>(self, pointer: &Pointer<'_, N>) -> Option<Value<'d>>
        ensures document { (d : parts.Document) → doc self.entry ≡ Some d → option_map doc result
            ≡ option_map (λ e. Some e) (result_ok (pointed (text pointer.now) d)) }
        ensures walk { option_map site result
            ≡ found (pointed_at (text pointer.now) (site self.entry)) }
    {
        let text = pointer.as_str();
        let ends = pointer.ends();
        let mut reached = self;
        let mut at = 0;
        for end in ends {
            let token = &text[at + 1..*end];
            reached = found(reached.child(token, is_plain(token.as_bytes())))?;
            at = *end;
        }
        Some(reached)
    }

    // Whether the string here is the key that a token is.
    #[inline(always)]
    fn is_named(self, token: &[u8]) -> bool
        requires opening { byte_at (docs.text self.document) (docs.index_of self) ≡ quote }
        requires formed { is_some (unescaped token.now) ≡ true }
        ensures { (key : List ℕ) → unescaped token.now ≡ Some key
            → result ≡ is_key key (option_and_then as_str (doc self.entry)) }
    {
        is_written::<true>(self.bytes(), token)
    }
}

impl<'d> Parent for Value<'d> {
    type Stop = StoppedAt<'d>;

    ghost names = { λ v token found. told (option_map site) found ≡ named_at token (site v) };

    fn child(self, token: &str, is_plain: bool) -> Result<Option<Value<'d>>, StoppedAt<'d>> {
        if self.is_array() {
            return match read_index(token) {
                Some(index) => self.element(index),
                None => Ok(None),
            };
        }
        if !self.is_object() {
            return Err(self.document.stop(self.at, Expected::Container));
        }
        if is_plain {
            return self.member(token);
        }
        let token = token.as_bytes();
        if !is_well_formed(token) {
            return Ok(None);
        }
        match self.members() {
            Ok(members) => find_named(members, token),
            Err(stop) => Err(stop),
        }
    }
}

// The value of the first member with the key that a token is.
fn find_named<'d>(object: Object<'d>, token: &[u8]) -> Result<Option<Value<'d>>, StoppedAt<'d>>
    requires { is_some (unescaped token.now) ≡ true }
    ensures { told (option_map site) result
        ≡ member_reached (unescaped token.now) (member_sites object.entry) }
{
    let mut left = object;
    loop {
        match left.step() {
            Ok(Some((key, value))) => {
                if key.is_named(token) {
                    return Ok(Some(value));
                }
            }
            Ok(None) => return Ok(None),
            Err(stop) => return Err(stop),
        }
    }
}
