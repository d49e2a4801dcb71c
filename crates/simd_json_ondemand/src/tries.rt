//! The forms with errors: each names the place where the walk stopped, and what it expected there.
use crate::array::Array;
use crate::object::Object;
use crate::unexpected::{Expected, Unexpected};
use crate::value::Value;
use crate::walk::told;
use simd_json_parts::node::ValueType;

impl<'d> Value<'d> {
    ghost use Rattle.std.specs.Prelude.{◌≡◌, ◌⊎◌, Some, None, IfOk, MatchResult, ok_or, option_map};
    ghost use Rattle.std.specs.Result.{result_ok};
    ghost use Rattle.simd_json_ondemand.specs.Docs.{doc, form, as_standing, HasEscape};
    ghost use Rattle.simd_json_ondemand.specs.Iterated.{elements_to_come, all_some};
    ghost use Rattle.simd_json_ondemand.specs.IteratedMembers.{members_left, all_members};
    ghost use Rattle.simd_json_ondemand.specs.Reached.{key_reached};
    ghost use Rattle.simd_json_ondemand.specs.Sites.{array_sites, element_sites, site};
    ghost use Rattle.simd_json_ondemand.specs.Sites.{member_sites, object_sites};
    ghost use Rattle.simd_json_ondemand.specs.Walked.{unexpected_here, tried, string_wanted};
    ghost use Rattle.simd_json_ondemand.specs.Walked.{member_with, array_walk, object_walk};
    ghost use Rattle.simd_json_ondemand.specs.Walked.{elements_ahead, members_ahead};
    ghost use Rattle.simd_json_ondemand.specs.Walked.{members_from_first};
    ghost use Rattle.simd_json_ondemand.specs.Walks.{stopped, whole, first, walk_past};
    ghost use Rattle.simd_json_parts.specs.Views.{ok_map, as_array, as_object, try_get};
    ghost use Rattle.simd_json_parts.specs.Views.{try_get_idx};
    ghost use Rattle.simd_json_ondemand.specs.declared.unexpected.Expected.TheVariants.{Kind};
    ghost use Rattle.simd_json_parts.specs.Accessors as accessors;
    ghost use Rattle.simd_json_parts.specs.Document as parts;

    /// Returns the error that says that something else was expected of the value: for accessors
    /// that have no `try_` form.
    #[cold]
    pub fn unexpected(self, expected: Expected) -> Unexpected
        ensures { result ≡ unexpected_here expected self.entry }
    {
        self.document.stop(self.at, expected).error()
    }

    // The result of an accessor, or the error that a value of this kind was expected.
    #[inline(always)]
    fn or_unexpected<T>(self, value: Option<T>, kind: ValueType) -> Result<T, Unexpected>
        ensures { result ≡ ok_or value (unexpected_here (Kind kind) self.entry) }
    {
        match value {
            Some(value) => Ok(value),
            None => Err(self.unexpected(Expected::Kind(kind))),
        }
    }

    /// Returns the truth value, or an error that expects `Bool`.
    #[inline(always)]
    pub fn try_as_bool(self) -> Result<bool, Unexpected>
        ensures { result ≡ tried accessors.bool self.entry }
    {
        self.or_unexpected(self.as_bool(), ValueType::Bool)
    }

    /// Returns the integer, if it fits `i64`, else an error that expects `I64`.
    #[inline(always)]
    pub fn try_as_i64(self) -> Result<i64, Unexpected>
        ensures { result ≡ tried accessors.i64 self.entry }
    {
        self.or_unexpected(self.as_i64(), ValueType::I64)
    }

    /// Returns the integer, if it fits `u64`, else an error that expects `U64`.
    #[inline(always)]
    pub fn try_as_u64(self) -> Result<u64, Unexpected>
        ensures { result ≡ tried accessors.u64 self.entry }
    {
        self.or_unexpected(self.as_u64(), ValueType::U64)
    }

    /// Returns the literal of a number with a fraction or an exponent, as it is written, or an
    /// error that expects `Decimal`.
    #[inline(always)]
    pub fn try_as_decimal(self) -> Result<&'d str, Unexpected>
        ensures { ok_map (λ s. s.now) result ≡ tried accessors.decimal self.entry }
    {
        self.or_unexpected(self.as_decimal(), ValueType::Decimal)
    }

    /// Returns the string, if it has no escape, else an error that expects `PlainString`, or
    /// `String` if the value is no string. [`decode`](Value::decode) returns any string.
    #[inline(always)]
    pub fn try_as_str(self) -> Result<&'d str, Unexpected>
        ensures { MatchResult result (λ s. as_standing accessors.str self.entry ≡ Some s.now)
            (λ e. (e ≡ unexpected_here (string_wanted (form self.entry)) self.entry)
            × ((as_standing accessors.str self.entry ≡ None) ⊎ HasEscape self.entry)) }
    {
        match self.as_str() {
            Some(string) => Ok(string),
            None if self.first() == b'"' => Err(self.unexpected(Expected::PlainString)),
            None => Err(self.unexpected(Expected::Kind(ValueType::String))),
        }
    }

    /// Returns the values of the array, or an error that expects `Array`; if the input ends behind
    /// the opening bracket, one that expects a value.
    #[inline(always)]
    pub fn try_as_array(self) -> Result<Array<'d>, Unexpected>
        ensures walk { MatchResult result (λ array. array_walk self.entry ≡ elements_ahead array)
            (λ e. array_walk self.entry ≡ stopped e) }
        ensures sites { MatchResult result (λ array. array_sites self.entry ≡ element_sites array)
            (λ e. array_sites self.entry ≡ stopped e) }
        ensures document { (d : parts.Document) → doc self.entry ≡ Some d
            → option_map elements_to_come (result_ok result) ≡ option_map all_some (as_array d) }
        ensures all { (d : parts.Document) → doc self.entry ≡ Some d
            → option_map elements_ahead (result_ok result)
            ≡ option_map (λ ds. whole (all_some ds)) (as_array d) }
    {
        told(self.elements())
    }

    /// Returns the members of the object, or an error that expects `Object`; if the input ends
    /// behind the opening brace, one that expects a key.
    #[inline(always)]
    pub fn try_as_object(self) -> Result<Object<'d>, Unexpected>
        ensures walk { MatchResult result (λ object. object_walk self.entry ≡ members_ahead object)
            (λ e. object_walk self.entry ≡ stopped e) }
        ensures sites { MatchResult result (λ object. object_sites self.entry ≡ member_sites object)
            (λ e. object_sites self.entry ≡ stopped e) }
        ensures document { (d : parts.Document) → doc self.entry ≡ Some d
            → option_map members_left (result_ok result) ≡ option_map all_members (as_object d) }
        ensures first { IfOk result (λ object.
            members_ahead object ≡ members_from_first object) }
        ensures all { (d : parts.Document) → doc self.entry ≡ Some d
            → option_map members_ahead (result_ok result)
            ≡ option_map (λ ms. whole (all_members ms)) (as_object d) }
    {
        told(self.members())
    }

    /// Returns the value of the first member of the object with this key, or `None` if the members
    /// come to the closing brace and none has the key. Members of nested objects are skipped.
    ///
    /// Returns an error that expects `Object` if the value is no object, and one that names the
    /// place where the walk along the members stopped before, as
    /// [`Object::try_next`](Object::try_next) does.
    ///
    /// ```
    /// use simd_json_ondemand::{Unexpected, Value};
    ///
    /// fn port(settings: Value<'_>) -> std::result::Result<Option<u64>, Unexpected> {
    ///     match settings.try_get("port")? {
    ///         Some(port) => Ok(Some(port.try_as_u64()?)),
    ///         None => Ok(None),
    ///     }
    /// }
    /// ```
    #[inline(always)]
    pub fn try_get(self, key: &str) -> Result<Option<Value<'d>>, Unexpected>
        ensures walk { ok_map (option_map doc) result
            ≡ member_with key.now (object_walk self.entry) }
        ensures site { ok_map (option_map site) result
            ≡ key_reached key.now (object_sites self.entry) }
        ensures document { (d : parts.Document) → doc self.entry ≡ Some d
            → result_ok (ok_map (option_map doc) result)
            ≡ option_map (option_map (λ e. Some e)) (result_ok (try_get key.now d)) }
    {
        told(self.member(key))
    }

    /// Returns the value at an index of the array, or `None` if the values come to the closing
    /// bracket and are no more than `index`. The values before it are skipped.
    ///
    /// Returns an error that expects `Array` if the value is no array, and one that names the place
    /// where the walk along the values stopped before, as [`Array::try_next`](Array::try_next)
    /// does.
    pub fn try_get_idx(self, index: usize) -> Result<Option<Value<'d>>, Unexpected>
        ensures walk { ok_map (option_map doc) result
            ≡ first (walk_past index (array_walk self.entry)) }
        ensures site { ok_map (option_map site) result
            ≡ first (walk_past index (array_sites self.entry)) }
        ensures document { (d : parts.Document) → doc self.entry ≡ Some d
            → result_ok (ok_map (option_map doc) result)
            ≡ option_map (option_map (λ e. Some e)) (result_ok (try_get_idx index d)) }
    {
        told(self.element(index))
    }
}

impl<'d> Array<'d> {
    ghost use Rattle.std.specs.Prelude.{◌≡◌, MatchOption, MatchResult};
    ghost use Rattle.simd_json_ondemand.specs.Docs.{doc};
    ghost use Rattle.simd_json_ondemand.specs.Sites.{element_sites, site};
    ghost use Rattle.simd_json_ondemand.specs.Walked.{elements_ahead};
    ghost use Rattle.simd_json_ondemand.specs.Walks.{stopped, ended, came};

    /// Returns the next value, or `None` at the end of the array, which is its closing bracket.
    ///
    /// Returns an error where the walk stops before: where neither a comma nor the bracket follows
    /// a value, or no value begins where one is expected. The cursor stays where it is. What is
    /// inside a value is not tested, but skipped by its brackets.
    #[inline(always)]
    pub fn try_next(&mut self) -> Result<Option<Value<'d>>, Unexpected>
        ensures steps { MatchResult result
            (λ next. MatchOption next ((elements_ahead self.old ≡ ended) × (self.new ≡ self.old))
            (λ value. elements_ahead self.old ≡ came (doc value) (elements_ahead self.new)))
            (λ e. (elements_ahead self.old ≡ stopped e) × (self.new ≡ self.old)) }
        ensures sites { MatchResult result
            (λ next. MatchOption next (element_sites self.old ≡ ended)
            (λ value. element_sites self.old ≡ came (site value) (element_sites self.new)))
            (λ e. element_sites self.old ≡ stopped e) }
    {
        told(self.step())
    }
}

impl<'d> Object<'d> {
    ghost use Rattle.std.specs.Prelude.{◌≡◌, Some, IfOk, IfSome, MatchOption, MatchResult};
    ghost use Rattle.simd_json_ondemand.specs.Docs.{doc};
    ghost use Rattle.simd_json_ondemand.specs.IteratedMembers.{pair_doc};
    ghost use Rattle.simd_json_ondemand.specs.Sites.{member_sites, pair_site};
    ghost use Rattle.simd_json_ondemand.specs.Walked.{members_ahead, members_from_first};
    ghost use Rattle.simd_json_ondemand.specs.Walks.{stopped, ended, came, walk_round};
    ghost use Rattle.simd_json_ondemand.specs.Within.{AreInSameObject, after, after_last};
    ghost use Rattle.simd_json_parts.specs.Document.{string};

    /// Returns the key and the value of the next member, or `None` at the end of the object, which
    /// is its closing brace.
    ///
    /// Returns an error where the walk stops before: where neither a comma nor the brace follows a
    /// value, no string is where a key is expected, no colon follows the key, or no value begins
    /// behind it. The cursor stays where it is. What is inside a value is not tested, but passed
    /// over by its brackets.
    #[inline(always)]
    pub fn try_next(&mut self) -> Result<Option<(Value<'d>, Value<'d>)>, Unexpected>
        ensures steps { MatchResult result
            (λ next. MatchOption next ((members_ahead self.old ≡ ended) × (self.new ≡ self.old))
            (λ member. members_ahead self.old ≡ came (pair_doc member) (members_ahead self.new)))
            (λ e. (members_ahead self.old ≡ stopped e) × (self.new ≡ self.old)) }
        ensures sites { MatchResult result
            (λ next. MatchOption next (member_sites self.old ≡ ended)
            (λ member. member_sites self.old ≡ came (pair_site member) (member_sites self.new)))
            (λ e. member_sites self.old ≡ stopped e) }
        ensures last { IfOk result (λ next. IfSome next (λ member.
            after_last self.new.document self.new.at self.new.position
            ≡ Some (after member.1))) }
        ensures object { AreInSameObject self.old self.new }
    {
        told(self.step())
    }

    /// Returns the value of the first of the members left that has this key or, if these come to
    /// the closing brace and none has it, of the first of all members that has it, and moves
    /// behind that member, as [`find`](Object::find) does. If the object has no such member, it
    /// returns `None`, and the cursor stays where it is.
    ///
    /// Returns an error where the walk stops before, as [`try_next`](Object::try_next): the cursor
    /// stays where it is.
    #[inline(always)]
    pub fn try_find(&mut self, key: &str) -> Result<Option<Value<'d>>, Unexpected>
        ensures found { MatchResult result
            (λ found. MatchOption found
            ((walk_round key.now (members_ahead self.old) (members_from_first self.old) ≡ ended)
            × (self.new ≡ self.old))
            (λ value. walk_round key.now (members_ahead self.old) (members_from_first self.old)
            ≡ came (Some (string key.now), doc value) (members_ahead self.new)))
            (λ e. (walk_round key.now (members_ahead self.old) (members_from_first self.old)
            ≡ stopped e) × (self.new ≡ self.old)) }
        ensures object { AreInSameObject self.old self.new }
    {
        told(self.find_round(key))
    }
}
