//! An array of a document: a cursor over its values.
ghost use Rattle.std.specs.Prelude.{◌<◌, length, ◌≡◌, [], Some, IfSome, IfOk, MatchOption};
ghost use Rattle.std.specs.Prelude.{MatchResult, option_map, true};
ghost use Rattle.std.specs.Iterator.{YieldsFirstBy, item_count};
ghost use Rattle.std.specs.Result.{result_ok};
ghost use Rattle.simd_json_parts.specs.Document as parts;

use crate::end::End;
use crate::unexpected::Expected;
use crate::value::{Document, Value};
use crate::walk::{StoppedAt, found};
use simd_json_parts::node::ValueType;
use std::iter::FusedIterator;

/// Where a cursor is among the structural indexes.
#[derive(Clone, Copy, Debug, PartialEq, Eq)]
pub(crate) enum Position {
    // at the first token inside the array
    First,
    // at the first token of a value that has been returned
    AtValue,
    // at the token after such a value
    AfterValue,
}

/// The values of an array that are left: an iterator, which can be copied. A value is skipped when
/// the one after it is asked for, in time linear in the number of its tokens.
///
/// Over bytes that are no document the values end where the walk stops: where neither a comma nor
/// the closing bracket follows a value, or no value begins. The iterator does not tell that from
/// the end of the array; [`try_next`](Array::try_next) does.
#[derive(Clone, Copy, Debug)]
pub struct Array<'d> {
    pub(crate) document: Document<'d>,
    pub(crate) at: usize,
    pub(crate) position: Position,
    ghost inside: { at < length document.indexes.now },
}

impl<'d> Iterator for Array<'d> {
    type Item = Value<'d>;

    ghost use Rattle.simd_json_ondemand.specs.Docs.{doc};
    ghost use Rattle.simd_json_ondemand.specs.Iterated.{elements_to_come};

    ghost next_gives = { YieldsFirstBy doc elements_to_come };

    ghost remaining = { item_count elements_to_come };

    #[inline(always)]
    fn next(&mut self) -> Option<Value<'d>> {
        self.next_value()
    }
}

impl<'d> FusedIterator for Array<'d> {}

impl<'d> Array<'d> {
    ghost use Rattle.simd_json_ondemand.specs.Docs.{doc};
    ghost use Rattle.simd_json_ondemand.specs.Iterated.{elements_to_come};
    ghost use Rattle.simd_json_ondemand.specs.Sites.{element_sites, site};
    ghost use Rattle.simd_json_ondemand.specs.Stopped.{error_at, told};
    ghost use Rattle.simd_json_ondemand.specs.Walked.{elements_ahead};
    ghost use Rattle.simd_json_ondemand.specs.Walks.{stopped, ended, came, first, items, walk_past};
    ghost use Rattle.simd_json_ondemand.specs.Within.{IsInArray, after, after_at, after_last};
    ghost use Rattle.simd_json_ondemand.specs.declared.value.Value.{Value};

    // Goes on to the next value, and returns it, or `None` at the closing bracket. Where the walk
    // stops the cursor stays where it is.
    #[inline(always)]
    pub(crate) fn step(&mut self) -> Result<Option<Value<'d>>, StoppedAt<'d>>
        ensures steps { MatchResult result
            (λ next. MatchOption next ((elements_ahead self.old ≡ ended) × (self.new ≡ self.old))
            (λ value. elements_ahead self.old ≡ came (doc value) (elements_ahead self.new)))
            (λ s. (elements_ahead self.old ≡ stopped (error_at s)) × (self.new ≡ self.old)) }
        ensures sites { MatchResult result
            (λ next. MatchOption next (element_sites self.old ≡ ended)
            (λ value. element_sites self.old ≡ came (site value) (element_sites self.new)))
            (λ s. element_sites self.old ≡ stopped (error_at s)) }
        ensures last { IfOk result (λ next. IfSome next (λ value.
            after_last self.new.document self.new.at self.new.position ≡ Some (after value))) }
        ensures inside { (v : Value) → IsInArray v self.old → IsInArray v self.new }
    {
        let document = self.document;
        match document.element_ahead(self.at, self.position) {
            Ok(Some(at)) => {
                *self = Array {
                    document,
                    at,
                    position: Position::AtValue,
                };
                Ok(Some(Value { document, at }))
            }
            Ok(None) => Ok(None),
            Err(stop) => Err(stop),
        }
    }

    /// Returns the next value, as `next` does. The contract of this function says more: where it
    /// is, and that the cursor stays in its array, as [`end`](Array::end) and
    /// [`pass`](Array::pass) want it.
    ///
    /// Over bytes that [`Document::check`](crate::Document::check) did not check the values may end
    /// early without a word; [`try_next`](Array::try_next) returns an error then.
    #[inline(always)]
    pub fn next_value(&mut self) -> Option<Value<'d>>
        ensures steps { YieldsFirstBy doc elements_to_come self.old result self.new }
        ensures ahead { MatchOption result (items (elements_ahead self.old) ≡ [])
            (λ value. elements_ahead self.old ≡ came (doc value) (elements_ahead self.new)) }
        ensures sites { MatchOption result (items (element_sites self.old) ≡ [])
            (λ value. element_sites self.old ≡ came (site value) (element_sites self.new)) }
        ensures last { IfSome result (λ value.
            after_last self.new.document self.new.at self.new.position ≡ Some (after value)) }
        ensures inside { (v : Value) → IsInArray v self.old → IsInArray v self.new }
    {
        found(self.step())
    }

    // The value after the next `index` values.
    fn behind(self, index: usize) -> Result<Option<Value<'d>>, StoppedAt<'d>>
        ensures documents { told (option_map doc) result
            ≡ first (walk_past index (elements_ahead self.entry)) }
        ensures sites { told (option_map site) result
            ≡ first (walk_past index (element_sites self.entry)) }
    {
        let mut elements = self;
        let mut left = index;
        loop {
            match elements.step() {
                Ok(Some(value)) => {
                    if left == 0 {
                        return Ok(Some(value));
                    }
                    left -= 1;
                }
                Ok(None) => return Ok(None),
                Err(stop) => return Err(stop),
            }
        }
    }

    /// Returns where the array ends. Only what is left of it is read.
    #[inline(always)]
    pub fn end(self) -> End
        ensures { result.after ≡ after_at self.entry.document self.entry.at self.entry.position }
    {
        self.document.end(self.at, self.position)
    }

    /// Goes on at the end of the value that was returned last, as [`Object::pass`] does.
    ///
    /// [`Object::pass`]: crate::Object::pass
    #[inline(always)]
    pub fn pass(&mut self, end: End)
        ensures left { after_last self.old.document self.old.at self.old.position ≡ Some end.after
            → elements_to_come self.new ≡ elements_to_come self.old }
        ensures ahead { after_last self.old.document self.old.at self.old.position
            ≡ Some end.after → elements_ahead self.new ≡ elements_ahead self.old }
        ensures inside { after_last self.old.document self.old.at self.old.position
            ≡ Some end.after → (v : Value) → IsInArray v self.old → IsInArray v self.new }
    {
        let document = self.document;
        if self.at < end.after && end.after < document.indexes.len() {
            *self = Array {
                document,
                at: end.after,
                position: Position::AfterValue,
            };
        }
    }
}

impl<'d> Value<'d> {
    ghost use Rattle.simd_json_ondemand.specs.Docs.{doc, form};
    ghost use Rattle.simd_json_ondemand.specs.Iterated.{elements_to_come, all_some};
    ghost use Rattle.simd_json_ondemand.specs.Sites.{array_sites, element_sites, site};
    ghost use Rattle.simd_json_ondemand.specs.Standing.{opens_array};
    ghost use Rattle.simd_json_ondemand.specs.Stopped.{error_at, told};
    ghost use Rattle.simd_json_ondemand.specs.Walked.{array_walk, elements_ahead};
    ghost use Rattle.simd_json_ondemand.specs.Walks.{first, found, items, stopped, walk_past};
    ghost use Rattle.simd_json_ondemand.specs.Walks.{whole};
    ghost use Rattle.simd_json_parts.specs.Views.{as_array, get_idx};
    ghost use Rattle.simd_json_ondemand.specs.Within.{IsInArray};

    // The values of the array.
    #[inline(always)]
    pub(crate) fn elements(self) -> Result<Array<'d>, StoppedAt<'d>>
        ensures walk { MatchResult result (λ array. array_walk self.entry ≡ elements_ahead array)
            (λ s. array_walk self.entry ≡ stopped (error_at s)) }
        ensures sites { MatchResult result (λ array. array_sites self.entry ≡ element_sites array)
            (λ s. array_sites self.entry ≡ stopped (error_at s)) }
        ensures all { (d : parts.Document) → doc self.entry ≡ Some d
            → option_map elements_ahead (result_ok result)
            ≡ option_map (λ ds. whole (all_some ds)) (as_array d) }
        ensures inside { (d : parts.Document) → doc self.entry ≡ Some d
            → IfOk result (IsInArray self.entry) }
        ensures any { IfOk result (λ array. opens_array (form self.entry) ≡ true) }
    {
        let document = self.document;
        let at = self.at + 1;
        if self.first() != b'[' {
            return Err(document.stop(self.at, Expected::Kind(ValueType::Array)));
        }
        if at == document.indexes.len() {
            return Err(document.stop(at, Expected::Value));
        }
        Ok(Array {
            document,
            at,
            position: Position::First,
        })
    }

    /// Returns the values of the array, or `None` if the value is no array.
    #[inline(always)]
    pub fn as_array(self) -> Option<Array<'d>>
        ensures document { (d : parts.Document) → doc self.entry ≡ Some d
            → option_map elements_to_come result ≡ option_map all_some (as_array d) }
        ensures inside { (d : parts.Document) → doc self.entry ≡ Some d
            → IfSome result (IsInArray self.entry) }
        ensures any { IfSome result (λ array. opens_array (form self.entry) ≡ true) }
        ensures all { (d : parts.Document) → doc self.entry ≡ Some d
            → option_map elements_ahead result
            ≡ option_map (λ ds. whole (all_some ds)) (as_array d) }
        ensures sites { MatchOption result (items (array_sites self.entry) ≡ [])
            (λ array. array_sites self.entry ≡ element_sites array) }
    {
        self.elements().ok()
    }

    // The value at an index of the array.
    #[inline(always)]
    pub(crate) fn element(self, index: usize) -> Result<Option<Value<'d>>, StoppedAt<'d>>
        ensures walk { told (option_map doc) result
            ≡ first (walk_past index (array_walk self.entry)) }
        ensures site { told (option_map site) result
            ≡ first (walk_past index (array_sites self.entry)) }
    {
        match self.elements() {
            Ok(elements) => elements.behind(index),
            Err(stop) => Err(stop),
        }
    }

    /// Returns the value at an index of the array, or `None` if the array has no more than `index`
    /// values or the value is no array. The values before it are skipped. `None` does not tell a
    /// missing value from bytes that are no array; [`try_get_idx`](Value::try_get_idx) does.
    pub fn get_idx(self, index: usize) -> Option<Value<'d>>
        ensures document { (d : parts.Document) → doc self.entry ≡ Some d → option_map doc result
            ≡ option_map (λ e. Some e) (get_idx index d) }
        ensures site { option_map site result
            ≡ found (first (walk_past index (array_sites self.entry))) }
    {
        found(self.element(index))
    }
}
