//! Laws of gateways whose remote is not far.

ghost use Rattle.std.specs.Prelude.{◌≡◌, true, ℕ, List};
ghost use Rattle.gql_ast_base.specs.Names.{Named};
ghost use Rattle.gql_engine.specs.Answered.{Answered};
ghost use Rattle.gql_engine.specs.Wanted.{Wanted as WantedOf};
ghost use Rattle.gql_exec.specs.NeverSkips.{NeverSkips};
ghost use Rattle.gql_gateway.specs.Gateway.{HasData, IsJoinedBy, LacksKey};
ghost use Rattle.gql_gateway.specs.Remote.{TellsBy};

use gql_document_types::laws as expansion_laws;
use gql_engine::laws as engine_laws;
use gql_parser::laws as text_laws;
use gql_resolvers::ObjectValue;
use gql_valid_laws::rule_laws as rules_laws;

/// What a gateway answers whose remote executes on a resolver that leaves nothing out, is what [`answer`](gql_engine::answer) gives with
/// introspection on, byte for byte, where that has data; and no key is missing. That needs no premise on the request: what it rests on
/// is what validation gives (GraphQL October 2021, sections 4 to 7).
pub fn local_gateways_change_nothing<O: ObjectValue>()
    ensures whole { NeverSkips O.resolves → (root : O.Seen) (wanted : WantedOf) → wanted.introspection ≡ true → (bytes other : List ℕ)
        → IsJoinedBy (TellsBy O.type_of O.resolves root) wanted bytes
        → (answered : Answered O.type_of O.resolves root wanted other) → HasData answered → bytes ≡ other }
    ensures missing { NeverSkips O.resolves → (root : O.Seen) (wanted : WantedOf) (key : Named)
        → LacksKey (TellsBy O.type_of O.resolves root) wanted key → ⊥ }
{
    engine_laws::readiness_is_one();
    expansion_laws::acyclic_fragments_have_contents();
    expansion_laws::expansions_have_no_spread();
    rules_laws::root_fields_have_one_name();
    text_laws::fields_have_output_types();
    text_laws::valid_documents_run();
}
