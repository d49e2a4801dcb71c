//! Laws of what accessors return. Each function has an empty body: its contract is the law, which
//! is proved.
ghost use Rattle.std.specs.Prelude.{◌≡◌, Some, None};
ghost use Rattle.simd_json_ondemand.specs.Docs.{doc, form, kind, standing, as_standing};
ghost use Rattle.simd_json_ondemand.specs.Standing.{opens_array, opens_object};
ghost use Rattle.simd_json_ondemand.specs.declared.value.Value.{Value};
ghost use Rattle.simd_json_parts.specs.Accessors.{Accessor, as_t};
ghost use Rattle.simd_json_parts.specs.Document.{Document, Elements, Members, array, object};
ghost use Rattle.simd_json_parts.specs.Views.{value_type, is_array, is_object};

/// Where a document begins at a value, each accessor of a string or a scalar returns what the same
/// accessor of a tape does. An accessor is of a string or a scalar if it returns `None` for an
/// array or an object.
pub fn accessors_return_what_a_tape_does<T>()
    ensures { (t : Accessor T) → ((ds : Elements) → as_t t (array ds) ≡ None)
        → ((ms : Members) → as_t t (object ms) ≡ None)
        → (v : Value) (d : Document) → doc v ≡ Some d → as_standing t v ≡ as_t t d }
{}

/// And the kind of the value is that of the document.
pub fn kinds_are_those_of_documents()
    ensures kind { (v : Value) (d : Document) → doc v ≡ Some d → kind v ≡ Some (value_type d) }
    ensures array { (v : Value) (d : Document) → doc v ≡ Some d
        → opens_array (form v) ≡ is_array d }
    ensures object { (v : Value) (d : Document) → doc v ≡ Some d
        → opens_object (form v) ≡ is_object d }
{}
