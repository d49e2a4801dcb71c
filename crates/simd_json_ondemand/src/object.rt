//! An object of a document: a cursor over its members.
ghost use Rattle.std.specs.Prelude.{◌<◌, length, ◌≡◌, [], Some, IfOk, IfSome, MatchOption};
ghost use Rattle.std.specs.Prelude.{MatchResult, true, option_and_then, option_map};
ghost use Rattle.std.specs.Iterator.{YieldsFirstBy, item_count};
ghost use Rattle.simd_json_parts.specs.Bytes.{byte_at, quote};
ghost use Rattle.std.specs.Result.{result_ok};
ghost use Rattle.simd_json_parts.specs.Views.{as_str};
ghost use Rattle.simd_json_parts.specs.Document as parts;

use crate::array::Position;
use crate::end::End;
use crate::key::WantedKey;
use crate::unexpected::Expected;
use crate::value::{Document, Value};
use crate::walk::{StoppedAt, found};
use simd_json_parts::node::ValueType;
use std::iter::FusedIterator;

/// The members of an object that are left: an iterator over pairs of a key and a value, which can
/// be copied. The key is a string. A value is skipped when the member after it is asked for, in
/// time linear in the number of its tokens.
///
/// Over bytes that are no document the members end where the walk stops: where neither a comma nor
/// the closing brace follows a value, or no key, colon and value follow. The iterator does not tell
/// that from the end of the object; [`try_next`](Object::try_next) does.
#[derive(Clone, Copy, Debug)]
pub struct Object<'d> {
    pub(crate) document: Document<'d>,
    // the number of the first token inside the object
    pub(crate) first: usize,
    pub(crate) at: usize,
    pub(crate) position: Position,
    ghost begins: { first < length document.indexes.now },
    ghost inside: { at < length document.indexes.now },
}

impl<'d> Iterator for Object<'d> {
    type Item = (Value<'d>, Value<'d>);

    ghost use Rattle.simd_json_ondemand.specs.IteratedMembers.{members_left, pair_doc};

    ghost next_gives = { YieldsFirstBy pair_doc members_left };

    ghost remaining = { item_count members_left };

    #[inline(always)]
    fn next(&mut self) -> Option<(Value<'d>, Value<'d>)> {
        self.next_member()
    }
}

impl<'d> FusedIterator for Object<'d> {}

impl<'d> Object<'d> {
    ghost use Rattle.simd_json_ondemand.specs.Docs.{index_of, text};
    ghost use Rattle.simd_json_ondemand.specs.IteratedMembers.{members_left, pair_doc};
    ghost use Rattle.simd_json_ondemand.specs.Sites.{member_sites, pair_site};
    ghost use Rattle.simd_json_ondemand.specs.Stopped.{error_at};
    ghost use Rattle.simd_json_ondemand.specs.Walked.{members_ahead};
    ghost use Rattle.simd_json_ondemand.specs.Walks.{stopped, ended, came, items};
    ghost use Rattle.simd_json_ondemand.specs.Within.{IsInObject, AreInSameObject};
    ghost use Rattle.simd_json_ondemand.specs.Within.{after, after_at, after_last};
    ghost use Rattle.simd_json_ondemand.specs.declared.value.Value.{Value};

    // Goes on to the next member, and returns its key and its value, or `None` at the closing
    // brace. Where the walk stops the cursor stays where it is.
    #[inline(always)]
    pub(crate) fn step(&mut self) -> Result<Option<(Value<'d>, Value<'d>)>, StoppedAt<'d>>
        ensures steps { MatchResult result
            (λ next. MatchOption next ((members_ahead self.old ≡ ended) × (self.new ≡ self.old))
            (λ member. members_ahead self.old ≡ came (pair_doc member) (members_ahead self.new)))
            (λ s. (members_ahead self.old ≡ stopped (error_at s)) × (self.new ≡ self.old)) }
        ensures sites { MatchResult result
            (λ next. MatchOption next (member_sites self.old ≡ ended)
            (λ member. member_sites self.old ≡ came (pair_site member) (member_sites self.new)))
            (λ s. member_sites self.old ≡ stopped (error_at s)) }
        ensures last { IfOk result (λ next. IfSome next (λ member.
            after_last self.new.document self.new.at self.new.position
            ≡ Some (after member.1))) }
        ensures key { IfOk result (λ next. IfSome next (λ member.
            byte_at (text member.0.document) (index_of member.0) ≡ quote)) }
        ensures object { AreInSameObject self.old self.new }
        ensures inside { (v : Value) → IsInObject v self.old → IsInObject v self.new }
    {
        let document = self.document;
        let first = self.first;
        match document.member_ahead(self.at, self.position) {
            Ok(Some(at)) => {
                *self = Object {
                    document,
                    first,
                    at,
                    position: Position::AtValue,
                };
                let key = Value {
                    document,
                    at: at - 2,
                };
                Ok(Some((key, Value { document, at })))
            }
            Ok(None) => Ok(None),
            Err(stop) => Err(stop),
        }
    }

    /// Returns the next pair of a key and a value, as `next` does. The contract of this function
    /// says more: where they are, and that the cursor stays in its object, as [`end`](Object::end)
    /// and [`pass`](Object::pass) want it.
    ///
    /// Over bytes that [`Document::check`](crate::Document::check) did not check the members may
    /// end early without a word; [`try_next`](Object::try_next) returns an error then.
    #[inline(always)]
    pub fn next_member(&mut self) -> Option<(Value<'d>, Value<'d>)>
        ensures steps { YieldsFirstBy pair_doc members_left self.old result self.new }
        ensures ahead { MatchOption result (items (members_ahead self.old) ≡ [])
            (λ member. members_ahead self.old ≡ came (pair_doc member) (members_ahead self.new)) }
        ensures sites { MatchOption result (items (member_sites self.old) ≡ [])
            (λ member. member_sites self.old ≡ came (pair_site member) (member_sites self.new)) }
        ensures last { IfSome result (λ pair.
            after_last self.new.document self.new.at self.new.position ≡ Some (after pair.1)) }
        ensures object { AreInSameObject self.old self.new }
        ensures inside { (v : Value) → IsInObject v self.old → IsInObject v self.new }
    {
        found(self.step())
    }

    /// Returns where the object ends. Only what is left of it is read.
    #[inline(always)]
    pub fn end(self) -> End
        ensures { result.after ≡ after_at self.entry.document self.entry.at self.entry.position }
    {
        self.document.end(self.at, self.position)
    }

    /// Goes on at the end of the value that was returned last, so that it is not skipped from its
    /// beginning: a cursor that has read some of it tells where it ends. The members that are left
    /// stay the same.
    ///
    /// The end must be that of the value that was returned last. With another, members may be
    /// skipped, or those of another object follow.
    ///
    /// ```
    /// use simd_json_ondemand::Value;
    ///
    /// // Two fields of a message, with the name of its author between them.
    /// fn fields<'d>(message: Value<'d>) -> Option<(&'d str, Option<u64>)> {
    ///     let mut fields = message.as_object()?;
    ///     let mut author = fields.find("author")?.as_object()?;
    ///     let name = author.find("name")?.as_str()?;
    ///     fields.pass(author.end());
    ///     Some((name, fields.find("likes")?.as_u64()))
    /// }
    /// ```
    #[inline(always)]
    pub fn pass(&mut self, end: End)
        ensures left { after_last self.old.document self.old.at self.old.position ≡ Some end.after
            → members_left self.new ≡ members_left self.old }
        ensures ahead { after_last self.old.document self.old.at self.old.position
            ≡ Some end.after → members_ahead self.new ≡ members_ahead self.old }
        ensures object { AreInSameObject self.old self.new }
        ensures inside { after_last self.old.document self.old.at self.old.position
            ≡ Some end.after → (v : Value) → IsInObject v self.old → IsInObject v self.new }
    {
        let document = self.document;
        let first = self.first;
        if self.at < end.after && end.after < document.indexes.len() {
            *self = Object {
                document,
                first,
                at: end.after,
                position: Position::AfterValue,
            };
        }
    }
}

impl<'d> Value<'d> {
    ghost use Rattle.simd_json_ondemand.specs.Docs.{doc, form, index_of, text};
    ghost use Rattle.simd_json_ondemand.specs.IteratedMembers.{members_left, all_members_in};
    ghost use Rattle.simd_json_ondemand.specs.IteratedMembers.{all_members};
    ghost use Rattle.simd_json_ondemand.specs.Keys.{is_key};
    ghost use Rattle.simd_json_ondemand.specs.Reached.{key_reached};
    ghost use Rattle.simd_json_ondemand.specs.Sites.{member_sites, object_sites, site};
    ghost use Rattle.simd_json_ondemand.specs.Standing.{opens_object};
    ghost use Rattle.simd_json_ondemand.specs.Stopped.{error_at, told};
    ghost use Rattle.simd_json_ondemand.specs.Walked.{member_with, members_ahead};
    ghost use Rattle.simd_json_ondemand.specs.Walked.{members_from_first, object_walk};
    ghost use Rattle.simd_json_ondemand.specs.Walks.{found, items, stopped, whole};
    ghost use Rattle.simd_json_ondemand.specs.Within.{IsInObject};
    ghost use Rattle.simd_json_parts.specs.Views.{as_object, get};

    // The members of the object.
    #[inline(always)]
    pub(crate) fn members(self) -> Result<Object<'d>, StoppedAt<'d>>
        ensures walk { MatchResult result (λ object. object_walk self.entry ≡ members_ahead object)
            (λ s. object_walk self.entry ≡ stopped (error_at s)) }
        ensures sites { MatchResult result (λ object. object_sites self.entry ≡ member_sites object)
            (λ s. object_sites self.entry ≡ stopped (error_at s)) }
        ensures first { IfOk result (λ object.
            members_ahead object ≡ members_from_first object) }
        ensures all { (d : parts.Document) → doc self.entry ≡ Some d
            → option_map members_ahead (result_ok result)
            ≡ option_map (λ ms. whole (all_members ms)) (as_object d) }
        ensures inside { (d : parts.Document) → doc self.entry ≡ Some d
            → IfOk result (IsInObject self.entry) }
        ensures any { IfOk result (λ object. opens_object (form self.entry) ≡ true) }
    {
        let document = self.document;
        let at = self.at + 1;
        if self.first() != b'{' {
            return Err(document.stop(self.at, Expected::Kind(ValueType::Object)));
        }
        if at == document.indexes.len() {
            return Err(document.stop(at, Expected::Key));
        }
        Ok(Object {
            document,
            first: at,
            at,
            position: Position::First,
        })
    }

    /// Returns the members of the object, or `None` if the value is no object.
    #[inline(always)]
    pub fn as_object(self) -> Option<Object<'d>>
        ensures document { (d : parts.Document) → doc self.entry ≡ Some d
            → option_map members_left result ≡ option_map all_members (as_object d) }
        ensures first { IfSome result (λ object. members_left object ≡ all_members_in object) }
        ensures inside { (d : parts.Document) → doc self.entry ≡ Some d
            → IfSome result (IsInObject self.entry) }
        ensures any { IfSome result (λ object. opens_object (form self.entry) ≡ true) }
        ensures all { (d : parts.Document) → doc self.entry ≡ Some d
            → option_map members_ahead result
            ≡ option_map (λ ms. whole (all_members ms)) (as_object d) }
        ensures sites { MatchOption result (items (object_sites self.entry) ≡ [])
            (λ object. object_sites self.entry ≡ member_sites object) }
        ensures from { IfSome result (λ object.
            members_ahead object ≡ members_from_first object) }
    {
        self.members().ok()
    }

    // The value of the first member with the key.
    #[inline(always)]
    pub(crate) fn member(self, key: &str) -> Result<Option<Value<'d>>, StoppedAt<'d>>
        ensures walk { told (option_map doc) result
            ≡ member_with key.now (object_walk self.entry) }
        ensures site { told (option_map site) result
            ≡ key_reached key.now (object_sites self.entry) }
        ensures any { IfOk result (λ value. opens_object (form self.entry) ≡ true) }
    {
        match self.members() {
            Ok(mut members) => members.find_left(WantedKey::new(key)),
            Err(stop) => Err(stop),
        }
    }

    /// Returns the value of the first member of the object with this key, or `None` if the object
    /// has no such member or the value is no object. Members of nested objects are skipped.
    /// `None` does not tell a missing key from bytes that are no object;
    /// [`try_get`](Value::try_get) does.
    #[inline(always)]
    pub fn get(self, key: &str) -> Option<Value<'d>>
        ensures document { (d : parts.Document) → doc self.entry ≡ Some d → option_map doc result
            ≡ option_map (λ e. Some e) (get key.now d) }
        ensures any { IfSome result (λ value. opens_object (form self.entry) ≡ true) }
        ensures site { option_map site result
            ≡ found (key_reached key.now (object_sites self.entry)) }
    {
        found(self.member(key))
    }

    // Whether the string here is the key.
    #[inline(always)]
    pub(crate) fn is_key(self, wanted: WantedKey<'_>) -> bool
        requires { byte_at (text self.document) (index_of self) ≡ quote }
        ensures { result ≡ is_key wanted.entry.key.now (option_and_then as_str (doc self.entry)) }
    {
        wanted.is_at(self.bytes())
    }
}
