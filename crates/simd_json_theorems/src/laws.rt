//! Laws of the definitions. Each function has an empty body: its contract is the law, which is
//! proved.
ghost use Rattle.std.specs.Prelude.{◌≡◌, ◌≢◌, ◌↔◌, ◌<◌, ◌+◌, ◌++◌, ◌⊎◌, ℕ, suc, List, take};
ghost use Rattle.std.specs.Prelude.{IsUtf8, Some, None, Ok, Err, true};
ghost use Rattle.std.specs.Cmp.{IsEquivalence};
ghost use Rattle.simd_json_parts.specs.Answer.{answer, padded_answer};
ghost use Rattle.simd_json_parts.specs.Accessors.{Accessor, as_t, try_as_t, get_t, try_get_t};
ghost use Rattle.simd_json_parts.specs.Descent.{descent, value_from, element_and, elements_by};
ghost use Rattle.simd_json_parts.specs.Descent.{member_and, members_by};
ghost use Rattle.simd_json_parts.specs.Document.{Document};
ghost use Rattle.simd_json_parts.specs.Equality.{equal};
ghost use Rattle.simd_json_theorems.specs.Normalized.{normalized};
ghost use Rattle.simd_json_parts.specs.ErrorKinds.{Class, class_of, io, eof, syntax, shape};
ghost use Rattle.simd_json_parts.specs.ErrorKinds.{is_unexpected_token};
ghost use Rattle.simd_json_parts.specs.FaultKinds.{IsOfInput, IsOfToken, IsNamedFault, IsBeginning};
ghost use Rattle.simd_json_parts.specs.Faults.{whole_fault};
ghost use Rattle.simd_json_parts.specs.Grammar.{Denotes};
ghost use Rattle.simd_json_parts.specs.Headers.{IsHeaded};
ghost use Rattle.simd_json_parts.specs.InputFaults.{input_fault};
ghost use Rattle.simd_json_parts.specs.Limits.{WithinLimits};
ghost use Rattle.simd_json_parts.specs.Listing.{listing};
ghost use Rattle.simd_json_theorems.specs.NodeEquality.{same_items};
ghost use Rattle.simd_json_parts.specs.Nodes.{Item};
ghost use Rattle.simd_json_theorems.specs.Spellable.{IsSpellable};
ghost use Rattle.simd_json_parts.specs.Tokens.{Token};
ghost use Rattle.simd_json_parts.specs.Views.{mismatch};
ghost use Rattle.simd_json_parts.specs.declared.error.Error.{Error};
ghost use Rattle.simd_json_parts.specs.declared.error.ErrorType.{ErrorType};
ghost use Rattle.simd_json_parts.specs.declared.error.ErrorType.TheVariants.{ExpectedObjectKey};
ghost use Rattle.simd_json_parts.specs.declared.error.ErrorType.TheVariants.{InsufficientPadding};

mod numbers;
pub mod printing;
mod strings;
mod tokens;

pub use numbers::{
    leading_zeros_stand_alone, longest_prefixes, numbers_are_integers_or_decimals,
    numbers_are_read, patterns_are_sets,
};
pub use strings::{
    longest_pieces, opened_strings_are_closed, pieces_spell_one_string, strings_are_read,
    strings_stand_by_themselves,
};
pub use tokens::{
    only_whitespace_stands_between_tokens, positions_rise,
    positions_without_a_token_lie_after_a_fault, strings_end_before_the_next_position,
    strings_have_positions, tokens_stand_at_positions,
};

/// A listing is a first node and as many more as its `count` says, with as many members as its
/// `len`.
pub fn listings_are_headed()
    ensures { (d : Document) → IsHeaded d }
{}

/// A listing is of one document, and ends where that document does.
pub fn listings_are_of_one_document()
    ensures { (d e : Document) (xs ys : List Item) → listing d ++ xs ≡ listing e ++ ys
        → (d ≡ e) × (xs ≡ ys) }
{}

/// Equality of documents is an equivalence: they are equal exactly if they are the same but for the
/// sign of a zero.
pub fn equality_is_an_equivalence()
    ensures equivalence { IsEquivalence equal }
    ensures same { (d e : Document) → (equal d e ≡ true) ↔ (normalized d ≡ normalized e) }
{}

/// The result is the error of the whole input if there is one, else the descent's.
pub fn input_faults_come_first()
    ensures fault { (b : List ℕ) (limit : ℕ) (e : Error) → input_fault b ≡ Some e
        → answer b limit ≡ Err e }
    ensures none { (b : List ℕ) (limit : ℕ) → input_fault b ≡ None
        → answer b limit ≡ descent b limit }
{}

/// The bound on the turns of the descent is never met: elements and members are read as by
/// equations that have none.
pub fn turns_are_enough()
    ensures elements { (b : List ℕ) (missing : Error) (levels : ℕ) (ts : List Token)
        → elements_by b missing (value_from b missing levels) ts
        ≡ element_and b missing (value_from b missing levels)
        (elements_by b missing (value_from b missing levels)) ts }
    ensures members { (b : List ℕ) (missing : Error) (levels : ℕ) (kind : ErrorType)
        (ts : List Token)
        → members_by b missing (value_from b missing levels) kind ts
        ≡ member_and b missing (value_from b missing levels)
        (members_by b missing (value_from b missing levels) ExpectedObjectKey) kind ts }
{}

/// Each error has a named kind: one of four for the whole input, at index 0 and without a
/// character, or one of fourteen for a token, with a character. In the padded form padding may be
/// lacking too.
pub fn rejections_are_of_named_kinds()
    ensures input { (b : List ℕ) (e : Error) → input_fault b ≡ Some e → IsOfInput e }
    ensures token { (b : List ℕ) (limit : ℕ) (e : Error) → descent b limit ≡ Err e → IsOfToken e }
    ensures either { (b : List ℕ) (limit : ℕ) (e : Error) → answer b limit ≡ Err e
        → IsNamedFault e }
    ensures padded { (s : List ℕ) (len limit : ℕ) (e : Error) → padded_answer s len limit ≡ Err e
        → IsNamedFault e ⊎ (e ≡ whole_fault InsufficientPadding) }
{}

/// Each kind of error has exactly one of four classes, which differ.
pub fn kinds_have_one_class()
    ensures some { (kind : ErrorType) → (class_of kind ≡ io) ⊎ (class_of kind ≡ eof)
        ⊎ (class_of kind ≡ syntax) ⊎ (class_of kind ≡ shape) }
    ensures differ { (io ≢ eof) × (io ≢ syntax) × (io ≢ shape) × (eof ≢ syntax) × (eof ≢ shape)
        × (syntax ≢ shape) }
{}

/// What is accepted is a document: the whole input denotes it, and its length, its nesting and its
/// integers are within the limits. So nothing outside the grammar is ever accepted.
pub fn answers_are_documents()
    ensures { (b : List ℕ) (limit : ℕ) (d : Document) → answer b limit ≡ Ok d
        → Denotes b d × WithinLimits b d limit }
{}

/// What bytes denote can be spelled: its decimals are literals, and its strings and keys are UTF-8.
pub fn documents_can_be_spelled()
    ensures { (b : List ℕ) (d : Document) → Denotes b d → IsSpellable d }
{}

/// Bytes that denote a document are UTF-8.
pub fn documents_are_utf8()
    ensures { (b : List ℕ) (d : Document) → Denotes b d → IsUtf8 b }
{}

/// Bytes that denote a document within the limits are read as that document.
pub fn documents_are_answered()
    ensures { (b : List ℕ) (d : Document) (limit : ℕ) → Denotes b d → WithinLimits b d limit
        → answer b limit ≡ Ok d }
{}

/// Bytes denote one document at most, however deep it nests and however great its integers are: the
/// grammar is unambiguous.
pub fn bytes_denote_one_document()
    ensures { (b : List ℕ) (d e : Document) → Denotes b d → Denotes b e → d ≡ e }
{}

/// No error is reported late: if the input as a whole has no error, the bytes before the index of
/// an error begin some document. So up to there nothing is wrong yet.
pub fn faults_are_not_reported_late()
    ensures { (b : List ℕ) (limit : ℕ) (e : Error) → input_fault b ≡ None → descent b limit ≡ Err e
        → IsBeginning (take e.index b) }
{}

/// No token is rejected early after an element (`ExpectedArrayContent`), where a key is expected
/// (`ExpectedObjectContent`, `ExpectedObjectKey`), after a key (`ExpectedObjectColon`) or after a
/// member (`ExpectedObjectContent`): the bytes begin no document once they have the first byte of
/// that token.
pub fn unexpected_tokens_are_not_reported_early()
    ensures { (b : List ℕ) (limit : ℕ) (e : Error) → input_fault b ≡ None → descent b limit ≡ Err e
        → is_unexpected_token e.error ≡ true
        → IsBeginning (take (suc e.index) b) → ⊥ }
{}

/// Documents are equal exactly if their nodes are, one by one: so one comparison of nodes compares
/// values.
pub fn documents_are_compared_node_by_node()
    ensures { (d e : Document) → same_items (listing d) (listing e) ≡ equal d e }
{}

/// An accessor and its `try_` form agree, also at a key: one returns a value exactly if the other
/// does, and then the same. Otherwise the error has the kind that the accessor expects and the kind
/// of the value.
pub fn accessors_agree<T>()
    ensures value { (t : Accessor T) (d : Document) (x : T)
        → (try_as_t t d ≡ Ok x) ↔ (as_t t d ≡ Some x) }
    ensures rejected { (t : Accessor T) (d : Document) → as_t t d ≡ None
        → try_as_t t d ≡ Err (mismatch t.expected d) }
    ensures at_key { (t : Accessor T) (key : List ℕ) (d : Document) (x : T)
        → (try_get_t t key d ≡ Ok (Some x)) ↔ (get_t t key d ≡ Some x) }
{}
