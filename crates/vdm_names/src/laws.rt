// Laws of the list of names. Each is the contract of a function that does nothing.

ghost use Rattle.std.specs.Prelude.{◌≡◌, ℕ, ◌<◌, List, Some, bytes_eq, length, slice_get};
ghost use Rattle.std.specs.List.{IsDistinct};
ghost use Rattle.vdm_kinds.specs.NameList.{built_in_names, with_name, number_in};

/// No text stands twice among the built-in names, nor with a further text where none did before.
pub fn no_name_twice()
    ensures built_in { IsDistinct bytes_eq built_in_names }
    ensures further { (names : List (List ℕ)) (text : List ℕ)
        → IsDistinct bytes_eq names → IsDistinct bytes_eq (with_name names text) }
{}

/// A text that was given a name has that number from then on, and stands at it.
pub fn names_are_found()
    ensures kept { (names : List (List ℕ)) (text : List ℕ)
        → number_in (with_name names text) text ≡ number_in names text }
    ensures within { (names : List (List ℕ)) (text : List ℕ)
        → number_in (with_name names text) text < length (with_name names text) }
    ensures found { (names : List (List ℕ)) (text : List ℕ)
        → slice_get (with_name names text) (number_in names text) ≡ Some text }
{}
