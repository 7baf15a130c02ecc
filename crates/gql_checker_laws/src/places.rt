//! Laws of what is found at one place.

ghost use Rattle.std.specs.Prelude.{◌≡◌, ◌↔◌, ◌||◌, ℕ, [], Bool, true, false, List, Option, None, Some, IsTrue, is_some};
ghost use Rattle.jb_tree.specs.declared.value.Value.{Value};
ghost use Rattle.gql_resolvers.specs.Fault.{told_at};
ghost use Rattle.gql_resolvers.specs.Resolved.{Fault, Meaning, Meanings, Misfit, gives_leaf, gives_list, gives_object, gives_skip, answered, refused};
ghost use Rattle.gql_resolvers.specs.Spot.{Spot};
ghost use Rattle.gql_resolvers.specs.Trail.{Segment, Trail};
ghost use Rattle.gql_resolvers.specs.World.{World};
ghost use Rattle.gql_checker_laws.specs.Claims.{Claim, Found, both, nothing};
ghost use Rattle.gql_checker_laws.specs.Identical.{is_identical};
ghost use Rattle.gql_checker_laws.specs.Walk.{Below, array_for, groups_found, items_found, outcome_found, set_found, settled_by, unless_idle};
ghost use Rattle.gql_checker_laws.specs.Findings.{Findings, with_all_told};
ghost use Rattle.gql_checker_laws.specs.Found.{IsFound};
ghost use Rattle.gql_checker_laws.specs.Places.{HasPlain, ended, fault_found, members_at, own_found, place_found};
ghost use Rattle.gql_checker_laws.specs.Reported.{is_idle, is_leaf};

/// What the walk finds at a place, by what is answered there (section 6.4): nothing, where there is no value and no error is listed
/// below; a fault, where an error that ends there tells it; and of an answer that fits, whether the value is that leaf, a list of that
/// length or an object of those keys, after what is found inside it.
pub fn places_are_found_by_their_answers<X, T, G, S>()
    ensures idle { (v : Option Value) (cs : List Claim) (f : Found) → is_idle v cs ≡ true → unless_idle v cs f ≡ nothing }
    ensures busy { (v : Option Value) (cs : List Claim) (f : Found) → is_idle v cs ≡ false → unless_idle v cs f ≡ f }
    ensures unasked { (w : World X T G S) (run : Below w) (spot : Spot G) (fault : Fault) (v : Option Value) (cs : List Claim)
        → is_idle v cs ≡ false → outcome_found w run spot (refused fault) v cs ≡ fault_found w.sources spot fault v cs }
    ensures asked { (w : World X T G S) (run : Below w) (spot : Spot G) (m : Meaning X) (v : Option Value) (cs : List Claim)
        → is_idle v cs ≡ false → outcome_found w run spot (answered m) v cs ≡ place_found w run spot m v cs }
    ensures misfit { (w : World X T G S) (run : Below w) (spot : Spot G) (m : Meaning X) (misfit : Misfit) (v : Option Value) (cs : List Claim)
        → w.misfit spot.type m ≡ Some misfit → place_found w run spot m v cs ≡ fault_found w.sources spot (told_at (w.span_of spot.group) misfit) v cs }
    ensures leaf { (w : World X T G S) (run : Below w) (spot : Spot G) (leaf : Value) (v : Option Value) (cs : List Claim)
        → w.misfit spot.type (gives_leaf leaf) ≡ None → place_found w run spot (gives_leaf leaf) v cs ≡ own_found spot false (is_leaf leaf v) v }
    ensures skip { (w : World X T G S) (run : Below w) (spot : Spot G) (v : Option Value) (cs : List Claim)
        → w.misfit spot.type gives_skip ≡ None → place_found w run spot gives_skip v cs ≡ own_found spot false false v }
    ensures list { (w : World X T G S) (run : Below w) (spot : Spot G) (ms : Meanings X) (v : Option Value) (cs : List Claim)
        → w.misfit spot.type (gives_list ms) ≡ None → place_found w run spot (gives_list ms) v cs
        ≡ ended spot (items_found w run spot 0 ms (array_for ms v) cs).passes (is_some (array_for ms v)) v (items_found w run spot 0 ms (array_for ms v) cs) }
    ensures object { (w : World X T G S) (run : Below w) (spot : Spot G) (x : X) (U : T) (v : Option Value) (cs : List Claim)
        → w.misfit spot.type (gives_object x) ≡ None → w.type_of x ≡ Some U
        → place_found w run spot (gives_object x) v cs ≡ members_at w run spot U x v cs }
{}

/// Where the data have nothing, no value in it is bad.
pub fn nothing_is_bad_where_no_data_are<X, T, G, S>()
    ensures items { (w : World X T G S) (run : Below w) (list : Spot G) (i : ℕ) (ms : Meanings X) (cs : List Claim)
        → (items_found w run list i ms None cs).bad ≡ None }
    ensures groups { (w : World X T G S) (run : Below w) (U : T) (x : X) (outer : Trail) (gs : List G) (cs : List Claim)
        → (groups_found w run U x outer gs None cs).bad ≡ None }
    ensures set { (w : World X T G S) (depth : ℕ) (U : T) (x : X) (outer : Trail) (s : S) (cs : List Claim)
        → (set_found w depth U x outer s None cs).bad ≡ None }
{}

/// What is found is added to what was found before: nothing changes nothing; one finding after another is both; what a place has
/// itself comes after what is inside it, for a value that is given and not null, or is not given and has nothing bad inside; and errors
/// that tell a fault come before it.
pub fn findings_add_up()
    ensures none { (it : Findings) → IsFound nothing it it false }
    ensures two { (a b : Found) (before between after : Findings) (p q : Bool) → IsFound a before between p → IsFound b between after q
        → IsFound (both a b) before after (p || q) }
    ensures inside { (inner : Found) (given strict : Bool) (path : List Segment) (v : Option Value) (before between after : Findings) (p q : Bool)
        → (given ≡ false → inner.bad ≡ None) → (given ≡ true → HasPlain v) → IsFound inner before between p
        → IsFound (settled_by p given [] strict path v nothing) between after q
        → IsFound (settled_by inner.passes given [] strict path v inner) before after q }
    ensures fault { (comes strict : Bool) (told : List ℕ) (path : List Segment) (v : Option Value) (before between after : Findings) (q : Bool)
        → between ≡ with_all_told told before → IsFound (settled_by comes false [] strict path v nothing) between after q
        → IsFound (settled_by comes false told strict path v nothing) before after q }
{}

/// A test that says whether two values are one says whether they are identical.
pub fn identical_leaves_are_one()
    ensures { (b : Bool) (leaf v : Value) → (IsTrue b ↔ (leaf ≡ v)) → b ≡ is_identical leaf v }
{}
