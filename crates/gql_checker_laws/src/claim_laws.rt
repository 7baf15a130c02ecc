//! Laws of the judgement on a response.

ghost use Rattle.std.specs.Prelude.{◌≡◌, ℕ, Bool, List, Option, length, map};
ghost use Rattle.jb_tree.specs.declared.value.Value.{Value};
ghost use Rattle.gql_collect.specs.Grouping.{groups_seen};
ghost use Rattle.gql_collect.specs.Groups.{SameGroups, applying};
ghost use Rattle.gql_collect.specs.declared.group.Group.{Group as FieldsOfKey};
ghost use Rattle.gql_document_types.specs.Ranks.{AreRanked};
ghost use Rattle.gql_document_types.specs.declared.selection.Selection.{Selection};
ghost use Rattle.gql_exec.specs.Request.{Request};
ghost use Rattle.gql_exec.specs.RequestWorld.{plain_world, setting_on};
ghost use Rattle.gql_exec.specs.Trails.{group_of};
ghost use Rattle.gql_resolvers.specs.Depth.{Suffices};
ghost use Rattle.gql_resolvers.specs.Execute.{Member};
ghost use Rattle.gql_response.specs.declared.execution_response.ExecutionResponse.{ExecutionResponse as Response};
ghost use Rattle.gql_schema_types.specs.declared.types.ObjectType.{ObjectType};
ghost use Rattle.gql_checker_laws.specs.Claims.{first_missing};
ghost use Rattle.gql_checker_laws.specs.Walk.{is_none, object_for, same_keys};
ghost use Rattle.gql_checker_laws.specs.Findings.{Findings, none_yet};
ghost use Rattle.gql_checker_laws.specs.Found.{IsFound};
ghost use Rattle.gql_checker_laws.specs.Judgement.{IsJudged, found_in, has_keys, judgement_by};
ghost use Rattle.gql_checker_laws.specs.Walked.{WalksAs};

/// What the walk finds of a response to a request is the judgement on it (sections 6.4.4 and 7.1): the first error that was not
/// found true is the first false one; where there is none, the path that is found is that of the first bad value, the empty one for
/// data that are null without an error or have other keys; and where nothing is found, errors and data are explained. No other
/// judgement is to be had of a response that is explained or has a false error. No fragment may lead back to itself.
pub fn walks_find_the_judgement<X>()
    ensures { (r : Request X) → ((rank : ℕ → ℕ) × AreRanked r.fragments rank) → (root : ObjectType) (initial : X) (selections : List Selection)
        (response : Response) (passes : Bool) (findings : Findings)
        → IsFound (found_in r root initial selections response) (none_yet (length response.errors)) findings passes
        → IsJudged r root initial selections response
        (judgement_by (is_none response.root) (has_keys r root initial selections response) passes (first_missing findings.told) findings.bad) }
{}

/// The groups that a plan collects for an object type are walked as the selection sets themselves: to some depth that cuts nothing
/// off, whatever depth is enough for the sets; and data have the keys of the ones where they have those of the others (section 6.3.2).
pub fn collected_groups_are_walked_as_their_sets<X>()
    ensures walk { (r : Request X) (U : ObjectType) (groups : List FieldsOfKey) (sets : List (List Selection))
        → SameGroups (groups_seen groups) (applying (setting_on r U) sets) → (depth : ℕ) → Suffices (plain_world r) depth U sets
        → WalksAs (plain_world r) depth U sets (map group_of groups) }
    ensures members { (r : Request X) (U : ObjectType) (groups : List FieldsOfKey) (sets : List (List Selection))
        → SameGroups (groups_seen groups) (applying (setting_on r U) sets) → (v : Option Value)
        → object_for (plain_world r) (map group_of groups) v ≡ object_for (plain_world r) ((plain_world r).groups U sets) v }
    ensures keys { (r : Request X) (U : ObjectType) (groups : List FieldsOfKey) (sets : List (List Selection))
        → SameGroups (groups_seen groups) (applying (setting_on r U) sets) → (ms : List Member)
        → same_keys (plain_world r) (map group_of groups) ms ≡ same_keys (plain_world r) ((plain_world r).groups U sets) ms }
{}
