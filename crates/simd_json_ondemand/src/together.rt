//! JSON Pointers that are looked up together: one walk along an object comes by the values of any
//! number of its keys.
ghost use Rattle.std.specs.Prelude.{◌≡◌, ◌<◌, ℕ, IsTrue, None, Some, get_or, is_some, drop, length, map};
ghost use Rattle.std.specs.Prelude.{option_and_then, option_map, true};
ghost use Rattle.std.specs.List.{slice_get};
ghost use Rattle.std.specs.Result.{result_ok};
ghost use Rattle.simd_json_parts.specs.Bytes.{byte_at, quote};
ghost use Rattle.simd_json_parts.specs.Document as parts;
ghost use Rattle.simd_json_parts.specs.Pointed.{pointed};
ghost use Rattle.simd_json_parts.specs.Views.{as_str};
ghost use Rattle.simd_json_ondemand.specs.Prepared.{first_key, pointer_text};
ghost use Rattle.simd_json_ondemand.specs.WantedKey.{MayBegin, noted};
ghost use Rattle.simd_json_ondemand.specs.Docs.{doc, index_of};
ghost use Rattle.simd_json_ondemand.specs.Docs as docs;
ghost use Rattle.simd_json_ondemand.specs.Keys.{is_key};
ghost use Rattle.simd_json_ondemand.specs.Reached.{key_reached, named_at, pointed_at};
ghost use Rattle.simd_json_ondemand.specs.Sites.{member_sites, site};
ghost use Rattle.simd_json_ondemand.specs.Walks.{found};
ghost use Rattle.simd_json_ondemand.specs.declared.prepared.PreparedPointer.{PreparedPointer};

use crate::object::Object;
use crate::prepared::PreparedPointer;
use crate::value::Value;
use std::alloc::Allocator;

impl<'d> Value<'d> {
    /// Finds the values that JSON Pointers name, of each what [`pointer`](Value::pointer) returns,
    /// in one walk along the members of an object: for any number of keys, in any order. Of longer
    /// pointers the rest is followed from there. Nothing is allocated.
    ///
    /// ```
    /// use simd_json_ondemand::{Document, Index, PreparedPointer, Result};
    ///
    /// // The sum of the statuses of requests whose path is known.
    /// fn sum(rt: &impl AllocGlobal, lines: &[&[u8]]) -> Result<u64> {
    ///     let wanted = [
    ///         PreparedPointer::new(rt.alloc(), "/status")?,
    ///         PreparedPointer::new(rt.alloc(), "/request/path")?,
    ///     ];
    ///     let mut index = Index::new(rt.alloc(), 1024)?;
    ///     let mut sum = 0u64;
    ///     for line in lines {
    ///         let mut found = [None; 2];
    ///         let root = Document::scan(&mut index, line)?.as_value();
    ///         root.pointers(&wanted, &mut found);
    ///         if let [Some(status), Some(_)] = found {
    ///             sum = sum.saturating_add(status.as_u64().unwrap_or(0));
    ///         }
    ///     }
    ///     Ok(sum)
    /// }
    /// ```
    pub fn pointers<A: Allocator>(
        self,
        pointers: &[PreparedPointer<A>],
        values: &mut [Option<Value<'d>>],
    )
        requires { length values.old ≡ length pointers.now }
        ensures walk { map (option_map site) values.new
            ≡ map (λ p. found (pointed_at (pointer_text p) (site self.entry))) pointers.now }
        ensures document { (d : parts.Document) → doc self.entry ≡ Some d
            → map (option_map doc) values.new ≡ map (λ p. option_map (λ e. Some e)
            (result_ok (pointed (pointer_text p) d))) pointers.now }
    {
        let is_walked = self.find_keys(pointers, values);
        for k in 0..pointers.len() {
            if !is_walked || !pointers[k].is_key {
                values[k] = self.behind(&pointers[k], values[k], is_walked);
            }
        }
    }

    // Finds the values of the keys that the first tokens are, and returns true; or returns false
    // where no object is walked.
    fn find_keys<A: Allocator>(
        self,
        pointers: &[PreparedPointer<A>],
        values: &mut [Option<Value<'d>>],
    ) -> bool
        requires { length values.old ≡ length pointers.now }
        ensures length { length values.new ≡ length values.old }
        ensures walked { IsTrue result → (k : ℕ) (p : PreparedPointer A)
            → slice_get pointers.now k ≡ Some p → 0 < p.key_end
            → option_map site (get_or values.new k None)
            ≡ found (named_at (first_key p) (site self.entry)) }
    {
        match self.members() {
            Ok(members) => {
                let begins = clear(pointers, values);
                members.find_each(pointers, &begins, values);
                true
            }
            Err(_) => false,
        }
    }

    // The value that a pointer names. If the object was walked, and its first token is a key, that
    // leads to the value `first`, or nowhere.
    fn behind<A: Allocator>(
        self,
        pointer: &PreparedPointer<A>,
        first: Option<Value<'d>>,
        is_walked: bool,
    ) -> Option<Value<'d>>
        requires { is_walked ≡ true → 0 < pointer.now.key_end → option_map site first
            ≡ found (named_at (first_key pointer.now) (site self)) }
        ensures walk { option_map site result
            ≡ found (pointed_at (pointer_text pointer.now) (site self.entry)) }
        ensures document { (d : parts.Document) → doc self.entry ≡ Some d → option_map doc result
            ≡ option_map (λ e. Some e) (result_ok (pointed (pointer_text pointer.now) d)) }
    {
        let text = pointer.text.as_str();
        if !is_walked || pointer.key_end == 0 {
            return self.pointer(text);
        }
        match first {
            Some(value) => value.pointer(&text[pointer.key_end..]),
            None => None,
        }
    }

    // The byte after the opening quote of the key here.
    #[inline(always)]
    fn key_byte(self) -> u8
        requires { byte_at (docs.text self.document) (index_of self) ≡ quote }
        ensures { result ≡ get_or (drop (index_of self.entry) (docs.text self.entry.document)) 1 0 }
    {
        self.bytes()[1]
    }
}

// Clears the values. Returns for each byte, modulo 64, whether the string of a key that is wanted
// may begin with it: with the first byte of the key, with a quote if that is empty, or with a
// backslash.
#[inline(always)]
fn clear<A: Allocator>(
    pointers: &[PreparedPointer<A>],
    values: &mut [Option<Value<'_>>],
) -> [bool; 64]
    requires { length values.old ≡ length pointers.now }
    ensures length { length values.new ≡ length values.old }
    ensures none { (k : ℕ) → get_or values.new k None ≡ None }
    ensures begins { MayBegin (λ p. 0 < p.key_end) (λ p. get_or p.first 0 0) pointers.now result }
{
    let mut begins = [false; 64];
    begins[(b'\\' % 64) as usize] = true;
    for k in 0..pointers.len() {
        values[k] = None;
        begins[(pointers[k].first[0] % 64) as usize] = true;
    }
    begins
}

impl<'d> Object<'d> {
    // Finds of each key the value of the first member that has it.
    #[inline(always)]
    fn find_each<A: Allocator>(
        self,
        pointers: &[PreparedPointer<A>],
        begins: &[bool; 64],
        values: &mut [Option<Value<'d>>],
    )
        requires length { length values.old ≡ length pointers.now }
        requires none { (k : ℕ) → get_or values.old k None ≡ None }
        requires begins { MayBegin (λ p. 0 < p.key_end) (λ p. get_or p.first 0 0) pointers.now
            begins.now }
        ensures length { length values.new ≡ length values.old }
        ensures sites { (k : ℕ) (p : PreparedPointer A)
            → slice_get pointers.now k ≡ Some p → 0 < p.key_end
            → option_map site (get_or values.new k None)
            ≡ found (key_reached (first_key p) (member_sites self.entry)) }
    {
        let mut left = self;
        loop {
            match left.step() {
                Ok(Some((key, value))) => {
                    if note(key, value, pointers, begins, values) {
                        return;
                    }
                }
                Ok(None) => return,
                Err(_) => return,
            }
        }
    }
}

// Notes the value of a member at each pointer that wants its key and has found none. Returns
// whether all have found one.
#[inline(always)]
fn note<'d, A: Allocator>(
    key: Value<'d>,
    value: Value<'d>,
    pointers: &[PreparedPointer<A>],
    begins: &[bool; 64],
    values: &mut [Option<Value<'d>>],
) -> bool
    requires key { byte_at (docs.text key.document) (index_of key) ≡ quote }
    requires length { length values.old ≡ length pointers.now }
    requires begins { MayBegin (λ p. 0 < p.key_end) (λ p. get_or p.first 0 0) pointers.now
        begins.now }
    ensures length { length values.new ≡ length values.old }
    ensures noted { (k : ℕ) (p : PreparedPointer A)
        → slice_get pointers.now k ≡ Some p → 0 < p.key_end
        → get_or values.new k None
        ≡ noted (is_key (first_key p) (option_and_then as_str (doc key.entry))) value.entry
        (get_or values.old k None) }
    ensures all { IsTrue result → (k : ℕ) (p : PreparedPointer A)
        → slice_get pointers.now k ≡ Some p → 0 < p.key_end
        → is_some (get_or values.new k None) ≡ true }
{
    let byte = key.key_byte();
    if !begins[(byte % 64) as usize] {
        return false;
    }
    let mut are_found = true;
    for k in 0..pointers.len() {
        if values[k].is_none() {
            if pointers[k].is_at(key, byte) {
                values[k] = Some(value);
            } else {
                are_found = false;
            }
        }
    }
    are_found
}

impl<A: Allocator> PreparedPointer<A> {
    // Whether the string here, whose opening quote is followed by a byte, is the key.
    #[inline(always)]
    fn is_at(&self, key: Value<'_>, byte: u8) -> bool
        requires key { byte_at (docs.text key.document) (index_of key) ≡ quote }
        requires byte { byte ≡ get_or (drop (index_of key) (docs.text key.document)) 1 0 }
        ensures { 0 < self.now.key_end → result
            ≡ is_key (first_key self.now) (option_and_then as_str (doc key.entry)) }
    {
        if self.first[0] != byte && byte != b'\\' {
            return false;
        }
        if self.key_end == 0 {
            return false;
        }
        key.is_key(self.key())
    }
}
