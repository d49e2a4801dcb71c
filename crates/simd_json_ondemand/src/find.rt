//! Look-up by key in an object, from where a cursor is and then once round.
use crate::array::Position;
use crate::key::WantedKey;
use crate::object::Object;
use crate::value::Value;
use crate::walk::{StoppedAt, found};

impl<'d> Object<'d> {
    ghost use Rattle.std.specs.Prelude.{◌≡◌, [], Some, IfOk, IfSome, MatchOption, MatchResult};
    ghost use Rattle.std.specs.Prelude.{option_map};
    ghost use Rattle.simd_json_ondemand.specs.Docs.{doc};
    ghost use Rattle.simd_json_ondemand.specs.Reached.{key_reached};
    ghost use Rattle.simd_json_ondemand.specs.Sites.{member_sites, site};
    ghost use Rattle.simd_json_ondemand.specs.Stopped.{error_at, told};
    ghost use Rattle.simd_json_ondemand.specs.Walked.{members_ahead, members_from_first};
    ghost use Rattle.simd_json_ondemand.specs.Walks.{stopped, ended, came, items};
    ghost use Rattle.simd_json_ondemand.specs.Walks.{walk_from, walk_round};
    ghost use Rattle.simd_json_ondemand.specs.Within.{IsInObject, AreInSameObject};
    ghost use Rattle.simd_json_ondemand.specs.Within.{after, after_last};
    ghost use Rattle.simd_json_ondemand.specs.declared.value.Value.{Value};
    ghost use Rattle.simd_json_parts.specs.Document.{string};

    /// Returns the value of the first of the members left that has this key or, if none has it, of
    /// the first of all members of the object that has it, and moves behind that member. If the
    /// object has no such member, it returns `None`, and the cursor stays where it is.
    ///
    /// Keys that are asked for in the order of the input take one pass along the object. One that
    /// is missing, or is before the cursor, is looked for as far as the object ends, and then from
    /// its beginning up to where the search began. `None` does not tell a missing key from bytes
    /// that are no object; [`try_find`](Object::try_find) does.
    ///
    /// A key in the input may have escapes: `{"\u0061":1}` has the key `a`. One with an invalid
    /// escape is equal to none.
    #[inline(always)]
    pub fn find(&mut self, key: &str) -> Option<Value<'d>>
        ensures found { MatchOption result
            ((items (walk_round key.now (members_ahead self.old) (members_from_first self.old))
            ≡ []) × (self.new ≡ self.old))
            (λ value. walk_round key.now (members_ahead self.old) (members_from_first self.old)
            ≡ came (Some (string key.now), doc value) (members_ahead self.new)) }
        ensures last { IfSome result (λ value.
            after_last self.new.document self.new.at self.new.position ≡ Some (after value)) }
        ensures object { AreInSameObject self.old self.new }
        ensures inside { (v : Value) → IsInObject v self.old → IsInObject v self.new }
    {
        found(self.find_round(key))
    }

    // Looks for the key among the members left, and then among all.
    #[inline(always)]
    pub(crate) fn find_round(&mut self, key: &str) -> Result<Option<Value<'d>>, StoppedAt<'d>>
        ensures found { MatchResult result
            (λ found. MatchOption found
            ((walk_round key.now (members_ahead self.old) (members_from_first self.old) ≡ ended)
            × (self.new ≡ self.old))
            (λ value. walk_round key.now (members_ahead self.old) (members_from_first self.old)
            ≡ came (Some (string key.now), doc value) (members_ahead self.new)))
            (λ s. (walk_round key.now (members_ahead self.old) (members_from_first self.old)
            ≡ stopped (error_at s)) × (self.new ≡ self.old)) }
        ensures last { IfOk result (λ found. IfSome found (λ value.
            after_last self.new.document self.new.at self.new.position ≡ Some (after value))) }
        ensures object { AreInSameObject self.old self.new }
        ensures inside { (v : Value) → IsInObject v self.old → IsInObject v self.new }
    {
        let wanted = WantedKey::new(key);
        match self.find_left(wanted) {
            Ok(None) => {}
            Ok(Some(value)) => return Ok(Some(value)),
            Err(stop) => return Err(stop),
        }
        match self.find_before(wanted) {
            Ok(Some((all, value))) => {
                *self = all;
                Ok(Some(value))
            }
            Ok(None) => Ok(None),
            Err(stop) => Err(stop),
        }
    }

    // Searches the members that are left, and no other.
    #[inline(always)]
    pub(crate) fn find_left(
        &mut self,
        wanted: WantedKey<'_>,
    ) -> Result<Option<Value<'d>>, StoppedAt<'d>>
        ensures found { MatchResult result
            (λ found. MatchOption found
            ((walk_from wanted.entry.key.now (members_ahead self.old) ≡ ended)
            × (self.new ≡ self.old))
            (λ value. walk_from wanted.entry.key.now (members_ahead self.old)
            ≡ came (Some (string wanted.entry.key.now), doc value) (members_ahead self.new)))
            (λ s. (walk_from wanted.entry.key.now (members_ahead self.old)
            ≡ stopped (error_at s)) × (self.new ≡ self.old)) }
        ensures site { told (option_map site) result
            ≡ key_reached wanted.entry.key.now (member_sites self.old) }
        ensures last { IfOk result (λ found. IfSome found (λ value.
            after_last self.new.document self.new.at self.new.position ≡ Some (after value))) }
        ensures object { AreInSameObject self.old self.new }
        ensures inside { (v : Value) → IsInObject v self.old → IsInObject v self.new }
    {
        let mut left = *self;
        loop {
            match left.step() {
                Ok(Some((name, value))) => {
                    if name.is_key(wanted) {
                        *self = left;
                        return Ok(Some(value));
                    }
                }
                Ok(None) => return Ok(None),
                Err(stop) => return Err(stop),
            }
        }
    }

    // Searches the members before this cursor, where those after it end without the key: returns a
    // cursor behind the member, and its value.
    #[cold]
    #[inline(never)]
    fn find_before(
        self,
        wanted: WantedKey<'_>,
    ) -> Result<Option<(Object<'d>, Value<'d>)>, StoppedAt<'d>>
        requires { walk_from wanted.key.now (members_ahead self) ≡ ended }
        ensures found { MatchResult result
            (λ found. MatchOption found
            (walk_from wanted.entry.key.now (members_from_first self.entry) ≡ ended)
            (λ r. walk_from wanted.entry.key.now (members_from_first self.entry)
            ≡ came (Some (string wanted.entry.key.now), doc r.1) (members_ahead r.0)))
            (λ s. walk_from wanted.entry.key.now (members_from_first self.entry)
            ≡ stopped (error_at s)) }
        ensures last { IfOk result (λ found. IfSome found (λ r.
            after_last r.0.document r.0.at r.0.position ≡ Some (after r.1))) }
        ensures object { IfOk result (λ found. IfSome found (λ r.
            AreInSameObject self.entry r.0)) }
        ensures inside { IfOk result (λ found. IfSome found (λ r.
            (v : Value) → IsInObject v self.entry → IsInObject v r.0)) }
    {
        let mut all = Object {
            document: self.document,
            first: self.first,
            at: self.first,
            position: Position::First,
        };
        while all.at != self.at || all.position != self.position {
            match all.step() {
                Ok(Some((name, value))) => {
                    if name.is_key(wanted) {
                        return Ok(Some((all, value)));
                    }
                    if self.position == Position::AfterValue {
                        all.pass(value.end());
                    }
                }
                Ok(None) => return Ok(None),
                Err(stop) => return Err(stop),
            }
        }
        Ok(None)
    }
}
