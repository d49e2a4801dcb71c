//! Laws of printed texts.
ghost use Rattle.std.specs.Prelude.{◌≡◌, ◌≤◌, ℕ, List, length, IsUtf8, Ok, true};
ghost use Rattle.simd_json_parts.specs.Answer.{answer};
ghost use Rattle.simd_json_parts.specs.Document.{Document};
ghost use Rattle.simd_json_parts.specs.Equality.{equal};
ghost use Rattle.simd_json_theorems.specs.Normalized.{normalized};
ghost use Rattle.simd_json_parts.specs.Grammar.{Denotes};
ghost use Rattle.simd_json_parts.specs.Limits.{depth, max_length, IntegersFit};
ghost use Rattle.simd_json_parts.specs.Printed.{compact, pretty};
ghost use Rattle.simd_json_theorems.specs.Spellable.{IsSpellable};

/// A printed text denotes the document that is printed, with no sign on a zero: a document that is
/// equal to it, and nests as deep. So it is for each document whose decimals are literals, whose
/// strings and keys are UTF-8, and whose integers are in the ranges of their signs.
pub fn printed_texts_denote_their_documents()
    ensures compact { (d : Document) → IsSpellable d → IntegersFit d
        → Denotes (compact d) (normalized d) }
    ensures pretty { (d : Document) → IsSpellable d → IntegersFit d
        → Denotes (pretty d) (normalized d) }
    ensures equal { (d : Document) → equal (normalized d) d ≡ true }
    ensures depth { (d : Document) → depth (normalized d) ≡ depth d }
{}

/// So a printed text is UTF-8.
pub fn printed_texts_are_utf8()
    ensures compact { (d : Document) → IsSpellable d → IntegersFit d → IsUtf8 (compact d) }
    ensures pretty { (d : Document) → IsSpellable d → IntegersFit d → IsUtf8 (pretty d) }
{}

/// Equal documents are printed alike.
pub fn equal_documents_are_printed_alike()
    ensures compact { (d e : Document) → equal d e ≡ true → compact d ≡ compact e }
    ensures pretty { (d e : Document) → equal d e ≡ true → pretty d ≡ pretty e }
{}

/// And documents that are printed alike are equal.
pub fn printed_texts_are_of_one_document()
    ensures compact { (d e : Document) → IsSpellable d → IntegersFit d
        → IsSpellable e → IntegersFit e
        → compact d ≡ compact e → equal d e ≡ true }
    ensures pretty { (d e : Document) → IsSpellable d → IntegersFit d
        → IsSpellable e → IntegersFit e
        → pretty d ≡ pretty e → equal d e ≡ true }
{}

/// A printed text whose length and nesting are within the limits is read as the document that was
/// printed, with no sign on a zero.
pub fn printed_texts_are_read_again()
    ensures compact { (d : Document) (limit : ℕ) → IsSpellable d → IntegersFit d
        → length (compact d) ≤ max_length
        → depth d ≤ limit → answer (compact d) limit ≡ Ok (normalized d) }
    ensures pretty { (d : Document) (limit : ℕ) → IsSpellable d → IntegersFit d
        → length (pretty d) ≤ max_length
        → depth d ≤ limit → answer (pretty d) limit ≡ Ok (normalized d) }
{}

/// Compact text is the shortest: no fewer bytes denote the document.
pub fn compact_texts_are_shortest()
    ensures { (b : List ℕ) (d : Document) → Denotes b d → IntegersFit d
        → length (compact d) ≤ length b }
{}

/// So a document that is accepted can be printed and read again within the same limits: compactly
/// always, and pretty where that text is not too long.
pub fn answers_are_printed_and_read_again()
    ensures compact { (b : List ℕ) (limit : ℕ) (d : Document) → answer b limit ≡ Ok d
        → answer (compact d) limit ≡ Ok (normalized d) }
    ensures pretty { (b : List ℕ) (limit : ℕ) (d : Document) → answer b limit ≡ Ok d
        → length (pretty d) ≤ max_length → answer (pretty d) limit ≡ Ok (normalized d) }
{}
