//! Laws of walking through lists and selection sets, as code goes through them.

ghost use Rattle.std.specs.Prelude.{◌≡◌, ◌+◌, ◌||◌, ◌∷◌, ℕ, [], Bool, false, List, Option, None, Some, Result, length, map, is_some};
ghost use Rattle.jb_tree.specs.declared.value.Value.{Value};
ghost use Rattle.jb_tree.specs.Value.{array_items};
ghost use Rattle.gql_collect.specs.Grouping.{groups_seen};
ghost use Rattle.gql_collect.specs.Groups.{SameGroups, applying};
ghost use Rattle.gql_collect.specs.declared.group.Group.{Group as FieldsOfKey};
ghost use Rattle.gql_document_types.specs.declared.selection.Selection.{Selection};
ghost use Rattle.gql_exec.specs.Group.{Group};
ghost use Rattle.gql_exec.specs.Request.{Request};
ghost use Rattle.gql_exec.specs.RequestWorld.{plain_world, setting_on};
ghost use Rattle.gql_exec.specs.Trails.{group_of};
ghost use Rattle.gql_resolvers.specs.Execute.{Member};
ghost use Rattle.gql_resolvers.specs.Meaning.{meanings_by};
ghost use Rattle.gql_resolvers.specs.Resolved.{Meaning, Meanings, gives_list, no_answer, answer_then};
ghost use Rattle.gql_resolvers.specs.Spot.{Spot, field_spot, item_spot, trail};
ghost use Rattle.gql_resolvers.specs.Trail.{Trail};
ghost use Rattle.gql_resolvers.specs.World.{World};
ghost use Rattle.gql_resolvers.specs.declared.resolve_error.FieldError.{FieldError};
ghost use Rattle.gql_resolvers.specs.declared.resolved_value.ResolvedValue.{ResolvedValue};
ghost use Rattle.gql_response.specs.declared.path.ResponseDataPathSegment.TheVariants.{Field, ListIndex};
ghost use Rattle.gql_schema_types.specs.declared.types.ObjectType.{ObjectType};
ghost use Rattle.gql_checker_laws.specs.Claims.{Claim, share};
ghost use Rattle.gql_checker_laws.specs.Walk.{array_for, groups_found, items_found, object_for, outcome_found, same_keys};
ghost use Rattle.gql_checker_laws.specs.Findings.{Findings};
ghost use Rattle.gql_checker_laws.specs.Found.{FindsBelow, FindsGroups, IsFound};
ghost use Rattle.gql_checker_laws.specs.Places.{item_found, members_at, own_found, place_found};
ghost use Rattle.gql_checker_laws.specs.Reported.{have_keys, item_at, items_of, member_at, members_of};
ghost use Rattle.gql_checker_laws.specs.Walked.{IsVisiting, IsWalking};

/// A list is walked through item by item (section 6.4.3): from what was found so far and what is found at the next item, what is found
/// so far then; and at its end, what is found of the list.
pub fn lists_are_walked_item_by_item<X>()
    ensures begun { (w : World X ObjectType Group (List (List Selection))) (list : Spot Group) (vs : Option (List Value)) (cs : List Claim)
        (before : Findings) (left all : Meanings X) → left ≡ all → IsWalking w list vs cs false before before 0 left all }
    ensures more { (w : World X ObjectType Group (List (List Selection))) (list : Spot Group) (vs : Option (List Value)) (cs : List Claim)
        (passes comes : Bool) (now next before : Findings) (i : ℕ) (left rest all : Meanings X) (m : Meaning X) (v : Option Value) (own : List Claim)
        → left ≡ answer_then m rest → v ≡ item_at i vs → own ≡ share (ListIndex i) cs
        → FindsBelow w list.group now next comes (λ run. item_found w run (item_spot list i) m v own)
        → IsWalking w list vs cs passes now before i left all → IsWalking w list vs cs (passes || comes) next before (i + 1) rest all }
    ensures ends { (w : World X ObjectType Group (List (List Selection))) (list : Spot Group) (vs : Option (List Value)) (cs : List Claim)
        (passes : Bool) (now before : Findings) (i : ℕ) (left all : Meanings X) → left ≡ no_answer → IsWalking w list vs cs passes now before i left all
        → FindsBelow w list.group before now passes (λ run. items_found w run list 0 all vs cs) }
{}

/// A selection set is walked through group by group (section 6.3), as a list is item by item.
pub fn sets_are_walked_group_by_group<X>()
    ensures begun { (w : World X ObjectType Group (List (List Selection))) (U : ObjectType) (x : X) (outer : Trail) (ms : Option (List Member))
        (cs : List Claim) (before : Findings) (left all : List Group) → left ≡ all → IsVisiting w U x outer ms cs false before before 0 left all }
    ensures more { (w : World X ObjectType Group (List (List Selection))) (U : ObjectType) (x : X) (outer : Trail) (ms : Option (List Member))
        (cs : List Claim) (passes comes : Bool) (now next before : Findings) (i : ℕ) (left rest all : List Group) (g : Group) (v : Option Value)
        (own : List Claim) → left ≡ g ∷ rest → v ≡ member_at i ms → own ≡ share (Field (w.name_of g)) cs
        → FindsBelow w g now next comes (λ run. outcome_found w run (field_spot w U outer g) (w.asks U x g) v own)
        → IsVisiting w U x outer ms cs passes now before i left all → IsVisiting w U x outer ms cs (passes || comes) next before (i + 1) rest all }
    ensures ends { (w : World X ObjectType Group (List (List Selection))) (U : ObjectType) (x : X) (outer : Trail) (ms : Option (List Member))
        (cs : List Claim) (passes : Bool) (now before : Findings) (i : ℕ) (left all : List Group) → left ≡ []
        → IsVisiting w U x outer ms cs passes now before i left all
        → FindsGroups w all before now passes (λ run. groups_found w run U x outer all ms cs) }
{}

/// What a response has at a place, by the number of items or the keys of the groups, is what the walk looks at there.
pub fn walks_look_at_what_a_response_has<O, X>()
    ensures same { (n : ℕ) (u : Value) (vs : List Value) → array_items u ≡ Some vs → length vs ≡ n → items_of n (Some u) ≡ Some vs }
    ensures other { (n : ℕ) (u : Value) (vs : List Value) → array_items u ≡ Some vs → (length vs ≡ n → ⊥) → items_of n (Some u) ≡ None }
    ensures unlisted { (n : ℕ) (u : Value) → array_items u ≡ None → items_of n (Some u) ≡ None }
    ensures items { (see : O → X) (items : List (Result (ResolvedValue O) FieldError)) (v : Option Value)
        → items_of (length items) v ≡ array_for (meanings_by see items) v }
    ensures keys { (r : Request X) (groups : List FieldsOfKey) (ms : List Member)
        → have_keys groups ms ≡ same_keys (plain_world r) (map group_of groups) ms }
    ensures members { (r : Request X) (groups : List FieldsOfKey) (v : Option Value)
        → members_of groups v ≡ object_for (plain_world r) (map group_of groups) v }
{}

/// What is found at a list or an object that fits is what is found in it, and then what is found of the place itself.
pub fn places_are_found_after_what_is_in_them<O, X>()
    ensures list { (see : O → X) (w : World X ObjectType Group (List (List Selection))) (spot : Spot Group)
        (items : List (Result (ResolvedValue O) FieldError)) (v : Option Value) (cs : List Claim) (vs : Option (List Value)) (given : Bool)
        (before between after : Findings) (p q : Bool)
        → w.misfit spot.type (gives_list (meanings_by see items)) ≡ None → vs ≡ items_of (length items) v → given ≡ is_some vs
        → FindsBelow w spot.group before between p (λ run. items_found w run spot 0 (meanings_by see items) vs cs)
        → IsFound (own_found spot p given v) between after q
        → FindsBelow w spot.group before after q (λ run. place_found w run spot (gives_list (meanings_by see items)) v cs) }
    ensures object { (r : Request X) (U : ObjectType) (groups : List FieldsOfKey) (spot : Spot Group)
        → SameGroups (groups_seen groups) (applying (setting_on r U) spot.group.pieces) → (x : X) (v : Option Value) (cs : List Claim)
        (ms : Option (List Member)) (given : Bool) (outer : Trail) (before between after : Findings) (p q : Bool)
        → outer ≡ trail spot → ms ≡ members_of groups v → given ≡ is_some ms
        → FindsGroups (plain_world r) (map group_of groups) before between p
        (λ run. groups_found (plain_world r) run U x outer (map group_of groups) ms cs)
        → IsFound (own_found spot p given v) between after q
        → FindsBelow (plain_world r) spot.group before after q (λ run. members_at (plain_world r) run spot U x v cs) }
{}
