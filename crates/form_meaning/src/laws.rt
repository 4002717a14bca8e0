// What the definitions say, in other words. Each law is the contract of a function that does nothing.

ghost use Rattle.std.specs.Prelude.{◌≡◌, ◌||◌, Bool, true, false, List};
ghost use Rattle.vdm_kinds.specs.declared.name.Name.{Name};
ghost use Rattle.form_meaning.specs.Forms.{FormTree, any_form, no_form, AltTree, AltTrees, one_of, one_alt, only, joined};
ghost use Rattle.form_meaning.specs.Meeting.{meets, meets_one};

/// Meeting is symmetric; what may be anything meets all; what has no value meets that alone; and what may be of several kinds meets
/// what one of them meets.
pub fn forms_meet()
    ensures symmetric { (descends : Name → Name → Bool) (classes : List Name) (a b : FormTree) → meets descends classes a b ≡ meets descends classes b a }
    ensures anything { (descends : Name → Name → Bool) (classes : List Name) (a : FormTree) → meets descends classes any_form a ≡ true }
    ensures nothing { (descends : Name → Name → Bool) (classes : List Name) (alternatives : AltTrees) → meets descends classes no_form (one_of alternatives) ≡ false }
    ensures several { (descends : Name → Name → Bool) (classes : List Name) (alternative : AltTree) (alternatives others : AltTrees)
        → meets descends classes (one_of (one_alt alternative alternatives)) (one_of others)
        ≡ (meets_one descends classes alternative others || meets descends classes (one_of alternatives) (one_of others)) }
{}

/// What may be anything stays so, and what has no value adds nothing.
pub fn forms_joined()
    ensures anything { (a : FormTree) → joined any_form a ≡ any_form }
    ensures nothing { (a : FormTree) → joined no_form a ≡ a }
    ensures nothing_more { (a : FormTree) → joined a no_form ≡ a }
    ensures anything_more { (a : FormTree) → joined a any_form ≡ any_form }
{}
