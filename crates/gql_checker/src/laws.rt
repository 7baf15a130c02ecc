//! Laws of verdicts, over the definitions alone.

ghost use Rattle.std.specs.Prelude.{◌≡◌, ◌≤◌, ◌<◌, ℕ, List};
ghost use Rattle.jb_io.specs.Proper.{IsProper, depth};
ghost use Rattle.jb_io.specs.Levels.{is_deep_at};
ghost use Rattle.jb_tree.specs.Tree.{tree};
ghost use Rattle.gql_checker.specs.Judged.{IsJudged, response_of};
ghost use Rattle.gql_engine.specs.Answered.{Answered};
ghost use Rattle.gql_engine.specs.Wanted.{Wanted as WantedOf};
ghost use Rattle.gql_exec.specs.ThingMeaning.{Resolving};
ghost use Rattle.gql_exec.specs.NeverSkips.{NeverSkips};
ghost use Rattle.gql_response.specs.Held.{IsHeld};
ghost use Rattle.gql_response.specs.Response.{response_value};
ghost use Rattle.gql_response.specs.declared.fault.ResponseFault.TheVariants.{Read};
ghost use Rattle.gql_response_check.specs.declared.verdict.Verdict.{Verdict as VerdictOf};
ghost use Rattle.gql_response_check.specs.declared.verdict.Verdict.TheVariants as verdict;

use gql_diag::laws as response_laws;
use gql_engine::laws as engine_laws;
use jb_io::level_laws;

/// A response that is explained has no other verdict (GraphQL October 2021, sections 6.4.4 and 7.1).
pub fn explained_responses_have_one_verdict<X>()
    ensures { (type_of : X → List ℕ) (resolves : Resolving X) (root : X) (wanted : WantedOf) (response : List ℕ) (it : VerdictOf)
        → IsJudged type_of resolves root wanted response it → IsJudged type_of resolves root wanted response verdict.Explained
        → it ≡ verdict.Explained }
{
    engine_laws::readiness_is_one();
}

/// What the engine answers is explained, by a resolver that leaves nothing out, where its value is one that JSON texts can hold and
/// nests at most 127 levels. Where it nests deeper it is no response for a reader: as too deep, at some byte of it.
pub fn answers_are_explained<X>()
    ensures explained { (type_of : X → List ℕ) (resolves : Resolving X) (root : X) (wanted : WantedOf) (bytes : List ℕ)
        (answered : Answered type_of resolves root wanted bytes) → NeverSkips resolves → IsHeld (response_of answered)
        → IsProper (tree (response_value (response_of answered))) → depth (tree (response_value (response_of answered))) ≤ 127
        → IsJudged type_of resolves root wanted bytes verdict.Explained }
    ensures deep { (type_of : X → List ℕ) (resolves : Resolving X) (root : X) (wanted : WantedOf) (bytes : List ℕ)
        (answered : Answered type_of resolves root wanted bytes) → IsProper (tree (response_value (response_of answered)))
        → 127 < depth (tree (response_value (response_of answered)))
        → (place : ℕ) × IsJudged type_of resolves root wanted bytes (verdict.NotResponse (Read (is_deep_at place))) }
{
    response_laws::responses_read_back();
    level_laws::deep_texts_are_refused();
}
