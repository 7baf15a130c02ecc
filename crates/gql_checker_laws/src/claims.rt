//! Laws of listed errors on the way to their places, and of marks, as code takes them one by one.

ghost use Rattle.std.specs.Prelude.{◌≡◌, ◌+◌, ◌++◌, ◌∷◌, ◌<◌, ◌≤◌, ◌||◌, ◌&&◌, ℕ, [], Bool, true, false, List, Option, None, Some};
ghost use Rattle.std.specs.Prelude.{drop, get_or, if◌then◌else◌, length, nat_eq, position, replicate, slice_get};
ghost use Rattle.std.specs.Map.{keys_of};
ghost use Rattle.std.specs.Option.{option_map_or};
ghost use Rattle.std.specs.Str.{bytes_eq};
ghost use Rattle.gql_ast_base.specs.Names.{Named};
ghost use Rattle.gql_collect.specs.Plan.{group_in, groups_in};
ghost use Rattle.gql_collect.specs.declared.plan.Part.{Part};
ghost use Rattle.gql_resolvers.specs.Execute.{Member};
ghost use Rattle.gql_resolvers.specs.Resolved.{Fault};
ghost use Rattle.gql_resolvers.specs.Trail.{Segment};
ghost use Rattle.gql_response.specs.declared.graphql_error.GraphQLError.{GraphQLError};
ghost use Rattle.gql_schema_types.specs.Entries.{is_called};
ghost use Rattle.gql_source.specs.File.{Files};
ghost use Rattle.gql_checker_laws.specs.Claims.{Claim, claims_from, first_missing, share, share_one};
ghost use Rattle.gql_checker_laws.specs.Findings.{Findings, further, with_all_told, with_told};
ghost use Rattle.gql_checker_laws.specs.Reported.{have_keys, key_in};
ghost use Rattle.gql_checker_laws.specs.Shares.{added, claims_of, if_called, if_index, named_share, same_number, share_at};
ghost use Rattle.gql_checker_laws.specs.Told.{any_told, is_told, told_numbers};

/// Listed errors are claimed, shared by a step and compared with a fault one after the other, whatever is held for each.
pub fn claims_are_taken_one_by_one<H>()
    ensures claimed { (claim_of : H → Claim) (cs : List H) (c : H) (errors : List GraphQLError) (i : ℕ) (e : GraphQLError)
        → i < length errors → e ≡ get_or errors i e → claim_of c ≡ record { number = i; error = e; rest = e.path }
        → claims_of claim_of (cs ++ c ∷ []) ++ claims_from (i + 1) (drop (i + 1) errors) ≡ claims_of claim_of cs ++ claims_from i (drop i errors) }
    ensures all_claimed { (claim_of : H → Claim) (cs : List H) (errors : List GraphQLError) (i : ℕ) → length errors ≤ i
        → claims_of claim_of cs ≡ claims_of claim_of cs ++ claims_from i (drop i errors) }
    ensures shared { (claim_of : H → Claim) (s : Segment) (cs : List H) (i : ℕ) (c : H) (old new some : List Claim)
        → i < length cs → c ≡ get_or cs i c → some ≡ share_one s (claim_of c) (claim_of c).rest → new ≡ old ++ some
        → new ++ share s (claims_of claim_of (drop (i + 1) cs)) ≡ old ++ share s (claims_of claim_of (drop i cs)) }
    ensures all_shared { (claim_of : H → Claim) (s : Segment) (cs : List H) (i : ℕ) (old : List Claim) → length cs ≤ i
        → old ≡ old ++ share s (claims_of claim_of (drop i cs)) }
    ensures compared { (claim_of : H → Claim) (sources : Files) (fault : Fault) (cs : List H) (i : ℕ) (c : H) (any more told : Bool)
        → i < length cs → c ≡ get_or cs i c → told ≡ is_told sources fault (claim_of c) → more ≡ (any || told)
        → (more || any_told sources fault (claims_of claim_of (drop (i + 1) cs))) ≡ (any || any_told sources fault (claims_of claim_of (drop i cs))) }
    ensures all_compared { (claim_of : H → Claim) (sources : Files) (fault : Fault) (cs : List H) (i : ℕ) (any : Bool) → length cs ≤ i
        → any ≡ (any || any_told sources fault (claims_of claim_of (drop i cs))) }
    ensures told { (claim_of : H → Claim) (sources : Files) (fault : Fault) (cs : List H) (i : ℕ) (c : H) (it more : Findings) (told : Bool)
        → i < length cs → c ≡ get_or cs i c → told ≡ is_told sources fault (claim_of c)
        → more ≡ (if told then with_told (claim_of c).number it else it)
        → with_all_told (told_numbers sources fault (claims_of claim_of (drop (i + 1) cs))) more
        ≡ with_all_told (told_numbers sources fault (claims_of claim_of (drop i cs))) it }
    ensures all_told { (claim_of : H → Claim) (sources : Files) (fault : Fault) (cs : List H) (i : ℕ) (it : Findings) → length cs ≤ i
        → it ≡ with_all_told (told_numbers sources fault (claims_of claim_of (drop i cs))) it }
{}

/// A claim that is put last into the share of its name, or into a new share where no name is the same, is added to the share of that
/// key and to no other.
pub fn claims_are_shared_by_name<H, N>()
    ensures added { (claim_of : H → Claim) (own : N → Named) (name : List ℕ) (c : H) (ns : List N) (ls : List (List H)) (i : ℕ)
        → length ns ≡ length ls → position (is_called own name) ns ≡ Some i → (key : List ℕ)
        → named_share claim_of own ns (added ls i c) key ≡ named_share claim_of own ns ls key ++ if_called claim_of name c key }
    ensures begun { (claim_of : H → Claim) (own : N → Named) (n : N) (c : H) (ns : List N) (ls : List (List H))
        → length ns ≡ length ls → position (is_called own (own n).text) ns ≡ None → (key : List ℕ)
        → named_share claim_of own (ns ++ n ∷ []) (ls ++ (c ∷ []) ∷ []) key
        ≡ named_share claim_of own ns ls key ++ if_called claim_of (own n).text c key }
    ensures found { (claim_of : H → Claim) (own : N → Named) (name : List ℕ) (ns : List N) (ls : List (List H)) (i : ℕ)
        → length ns ≡ length ls → position (is_called own name) ns ≡ Some i
        → named_share claim_of own ns ls name ≡ share_at claim_of ls i }
    ensures missing { (claim_of : H → Claim) (own : N → Named) (name : List ℕ) (ns : List N) (ls : List (List H))
        → position (is_called own name) ns ≡ None → named_share claim_of own ns ls name ≡ [] }
    ensures length { (ls : List (List H)) (i : ℕ) (c : H) → length (added ls i c) ≡ length ls }
    ensures index { (claim_of : H → Claim) (ls : List (List H)) (at : ℕ) (c : H) (index : ℕ) → index < length ls
        → share_at claim_of (added ls at c) index ≡ share_at claim_of ls index ++ if_index claim_of at c index }
    ensures empty { (claim_of : H → Claim) (count index : ℕ) → share_at claim_of (replicate count []) index ≡ [] }
    ensures number { (m n : ℕ) → same_number m n ≡ nat_eq m n }
{}

/// Keys of members are compared with those of a plan's parts one by one, and the first mark that misses is looked for one by one.
pub fn keys_and_marks_are_taken_one_by_one()
    ensures sized { (parts : List Part) (ms : List Member) → (length ms ≡ length parts → ⊥) → false ≡ have_keys (groups_in parts) ms }
    ensures keys { (parts : List Part) (ms : List Member) (i : ℕ) (key : List ℕ) (b : Bool) → length ms ≡ length parts → i < length parts
        → slice_get (keys_of ms) i ≡ Some key
        → b ≡ option_map_or (λ part. bytes_eq (key_in (group_in part)) key) (slice_get parts i) false
        → have_keys (drop i (groups_in parts)) (drop i ms) ≡ (b && have_keys (drop (i + 1) (groups_in parts)) (drop (i + 1) ms)) }
    ensures begun { (o : Option ℕ) → further 0 o ≡ o }
    ensures marked { (marks : List Bool) (i : ℕ) → i < length marks → true ≡ get_or marks i true
        → further i (first_missing (drop i marks)) ≡ further (i + 1) (first_missing (drop (i + 1) marks)) }
    ensures missing { (marks : List Bool) (i : ℕ) → i < length marks → false ≡ get_or marks i false
        → Some i ≡ further i (first_missing (drop i marks)) }
    ensures ended { (marks : List Bool) (i : ℕ) → length marks ≤ i → None ≡ further i (first_missing (drop i marks)) }
    ensures past { (it : Findings) (n : ℕ) → slice_get it.told n ≡ None → it ≡ with_told n it }
{}
