//! Laws of the statement that all entry points share, and of the documents of values. Each function
//! has an empty body: its contract is the law.
ghost use Rattle.std.specs.Prelude.{◌≡◌, ◌≤◌, ◌↔◌, ◌∷◌, ℕ, List, length, take, Option, Some, None};
ghost use Rattle.std.specs.Prelude.{Ok, IsSome};
ghost use Rattle.std.specs.Result.{result_err};
ghost use Rattle.simd_json.specs.Beneath.{beneath, descendants};
ghost use Rattle.simd_json.specs.Parsed.{HasMemory, IsPaddedParse, IsParse, IsRejected};
ghost use Rattle.simd_json.specs.Parsed.{answered_nodes};
ghost use Rattle.simd_json_stages.specs.Capacities.{positions_after};
ghost use Rattle.simd_json.specs.Capacities.{KeepsCapacities, Capacities, capacity};
ghost use Rattle.simd_json_parts.specs.Answer.{answer};
ghost use Rattle.simd_json_parts.specs.Document.{Document};
ghost use Rattle.simd_json_parts.specs.Grammar.{Denotes};
ghost use Rattle.simd_json_parts.specs.InputFaults.{input_fault, padding_fault};
ghost use Rattle.simd_json_parts.specs.Limits.{WithinLimits, depth, max_length};
ghost use Rattle.simd_json_parts.specs.Listing.{listing};
ghost use Rattle.simd_json_parts.specs.Views.{member_count};
ghost use Rattle.simd_json_parts.specs.Nodes.{Item};
ghost use Rattle.simd_json_parts.specs.Headers.{count_of, len_of};
ghost use Rattle.simd_json_parts.specs.Printed.{compact, pretty};
ghost use Rattle.simd_json.specs.PrintedAgain.{IsParsedAgain};
ghost use Rattle.simd_json.specs.Viewed.{doc};
ghost use Rattle.simd_json.specs.declared.value.tape.value.Value.{Value};
ghost use Rattle.simd_json_parts.specs.declared.error.Error.{Error};

/// A parse in which no allocation fails returns the result of the definitions, with the nodes of
/// their document, and lists the structural indexes that belong to this result.
pub fn parses_are_answers()
    ensures { (b : List ℕ) (limit capacity : ℕ) (fault : Option Error)
        (nodes : List Item) (listed : List ℕ)
        → IsParse b limit capacity fault nodes listed → HasMemory fault
        → (fault ≡ result_err (answer b limit)) × (nodes ≡ answered_nodes (answer b limit))
        × (listed ≡ positions_after b (result_err (answer b limit))) }
{}

/// So two parses of the same bytes with the same limit agree, whatever the entry point and whatever
/// buffers and tape held. A parse of the padded form is one of its document's bytes, whatever the
/// padding holds.
pub fn parses_agree()
    ensures same { (b : List ℕ) (limit capacity capacity2 : ℕ) (fault fault2 : Option Error)
        (nodes nodes2 : List Item) (listed listed2 : List ℕ)
        → IsParse b limit capacity fault nodes listed
        → IsParse b limit capacity2 fault2 nodes2 listed2
        → HasMemory fault → HasMemory fault2
        → (fault ≡ fault2) × (nodes ≡ nodes2) × (listed ≡ listed2) }
    ensures padded { (s : List ℕ) (len limit capacity : ℕ) (fault : Option Error)
        (nodes : List Item) (listed : List ℕ) → padding_fault s len ≡ None
        → IsPaddedParse s len limit capacity fault nodes listed
        → IsParse (take len s) limit capacity fault nodes listed }
    ensures padding { (s s2 : List ℕ) (len limit capacity capacity2 : ℕ)
        (fault fault2 : Option Error) (nodes nodes2 : List Item) (listed listed2 : List ℕ)
        → padding_fault s len ≡ None → padding_fault s2 len ≡ None
        → take len s ≡ take len s2
        → IsPaddedParse s len limit capacity fault nodes listed
        → IsPaddedParse s2 len limit capacity2 fault2 nodes2 listed2
        → HasMemory fault → HasMemory fault2
        → (fault ≡ fault2) × (nodes ≡ nodes2) × (listed ≡ listed2) }
{}

/// A parse that has capacity for its bytes does not return `OutOfMemory`.
pub fn capacity_suffices()
    ensures { (b : List ℕ) (limit capacity : ℕ) (fault : Option Error)
        (nodes : List Item) (listed : List ℕ)
        → IsParse b limit capacity fault nodes listed → length b ≤ capacity
        → HasMemory fault }
{}

/// If no list gets shorter and the limit stays, capacity does not shrink.
pub fn kept_lists_keep_capacity()
    ensures { (old new : Capacities) → new.limit ≡ old.limit → KeepsCapacities old new
        → capacity old ≤ capacity new }
{}

/// An error has a character exactly if it is a token's: if the input as a whole has no error.
pub fn faults_of_tokens_have_characters()
    ensures { (b : List ℕ) (limit : ℕ) (e : Error) → IsRejected b limit e
        → (IsSome e.character ↔ (input_fault b ≡ None)) }
{}

/// A document is known by its listing.
pub fn documents_are_known_by_their_listing()
    ensures { (d e : Document) → listing d ≡ listing e → d ≡ e }
{}

/// So the document of a parsed tape's value, whose listing is the tape's, is the document that the
/// bytes denote.
pub fn values_stand_for_parsed_documents()
    ensures { (b : List ℕ) (limit capacity : ℕ) (nodes : List Item) (listed : List ℕ)
        (d : Document)
        → IsParse b limit capacity None nodes listed → listing d ≡ nodes
        → Denotes b d × WithinLimits b d limit × (answer b limit ≡ Ok d) }
{}

/// The values at most `n` levels beneath a value are all of them, if the value is no deeper than
/// `n`.
pub fn descendants_within_the_depth_are_all()
    ensures { (d : Document) (n : ℕ) → depth d ≤ n → beneath n d ≡ descendants d }
{}

/// The first node of a listing has the number of nodes beneath it and of the document's members.
pub fn headers_count_nodes_and_members()
    ensures { (d : Document) (header : Item) (beneath : List Item)
        → listing d ≡ header ∷ beneath
        → (length beneath ≡ count_of header) × (len_of header ≡ member_count d) }
{}

/// The printed text of a value, parsed again with a limit of at least its depth, is the value's
/// document, with zeros unsigned, which is equal to it: unless an allocation fails or the text is
/// too long.
pub fn printed_values_are_parsed_again()
    ensures compact { (v : Value) (limit capacity : ℕ) (fault : Option Error)
        (nodes : List Item) (listed : List ℕ)
        → length (compact (doc v)) ≤ max_length → depth (doc v) ≤ limit
        → IsParse (compact (doc v)) limit capacity fault nodes listed → HasMemory fault
        → IsParsedAgain (doc v) fault nodes }
    ensures pretty { (v : Value) (limit capacity : ℕ) (fault : Option Error)
        (nodes : List Item) (listed : List ℕ)
        → length (pretty (doc v)) ≤ max_length → depth (doc v) ≤ limit
        → IsParse (pretty (doc v)) limit capacity fault nodes listed → HasMemory fault
        → IsParsedAgain (doc v) fault nodes }
{}
