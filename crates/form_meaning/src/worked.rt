// Forms worked out.

ghost use Rattle.std.specs.Prelude.{◌≡◌, ◌||◌, nat_eq, true, false, [], ◌∷◌, None};
ghost use Rattle.vdm_kinds.specs.declared.basic_type.BasicType.TheVariants.{Nat, Int, Char};
ghost use Rattle.vdm_kinds.specs.declared.name.Name.{Name};
ghost use Rattle.abstract_syntax.specs.Types.{basic_type, optional_type, set_type, union_type, one_type, no_types, named_type};
ghost use Rattle.form_meaning.specs.Forms.{any_form, no_form, one_of, one_alt, no_alts, one_form, no_forms, only, joined, nil_alt, boolean_alt, number_alt, character_alt, quote_alt, tuple_alt, set_alt, object_alt};
ghost use Rattle.form_meaning.specs.Meeting.{meets};
ghost use Rattle.form_meaning.specs.Types.{part_form};
ghost use Rattle.form_meaning.specs.Worked.{nothing_found, no_class, name, place, is_same, below_both};

/// Kinds are compared, and no parts; tuples by their lengths, quotes by their names, objects by whether some class is below both.
pub fn what_meets()
    ensures parts { meets is_same [] (only (set_alt (only number_alt))) (only (set_alt (only boolean_alt))) ≡ true }
    ensures kinds { meets is_same [] (only (set_alt any_form)) (only number_alt) ≡ false }
    ensures some { meets is_same [] (one_of (one_alt nil_alt (one_alt number_alt no_alts))) (only number_alt) ≡ true }
    ensures lengths { meets is_same [] (only (tuple_alt (one_form any_form (one_form any_form no_forms)))) (only (tuple_alt (one_form any_form no_forms))) ≡ false }
    ensures quotes { meets is_same [] (only (quote_alt (name 7))) (only (quote_alt (name 8))) ≡ false }
    ensures itself { meets is_same (name 7 ∷ name 8 ∷ []) (only (object_alt (name 7))) (only (object_alt (name 7))) ≡ true }
    ensures apart { meets is_same (name 7 ∷ name 8 ∷ []) (only (object_alt (name 7))) (only (object_alt (name 8))) ≡ false }
    ensures below { meets below_both (name 7 ∷ name 8 ∷ name 9 ∷ []) (only (object_alt (name 7))) (only (object_alt (name 8))) ≡ true }
{}

/// What types take, each kind once.
pub fn forms_of_types()
    ensures optional { part_form nothing_found no_class (name 0) (optional_type (basic_type Nat place) place) ≡ one_of (one_alt nil_alt (one_alt number_alt no_alts)) }
    ensures union { part_form nothing_found no_class (name 0) (union_type (one_type (basic_type Nat place) (one_type (basic_type Char place) (one_type (basic_type Int place) no_types))) place) ≡ one_of (one_alt number_alt (one_alt character_alt no_alts)) }
    ensures parts { part_form nothing_found no_class (name 0) (union_type (one_type (set_type (basic_type Nat place) place) (one_type (set_type (basic_type Char place) place) no_types)) place) ≡ only (set_alt (one_of (one_alt number_alt (one_alt character_alt no_alts)))) }
{}
