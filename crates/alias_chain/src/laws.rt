ghost use Rattle.std.specs.Prelude.{◌≡◌, ◌⊎◌, List, Contains};
ghost use Rattle.origin_values.specs.declared.protos.Protos.{Protos};
ghost use Rattle.origin_values.specs.declared.origin.Origin.{Origin};
ghost use Rattle.alias_chain.specs.declared.endpoint.Endpoint.{Endpoint};
ghost use Rattle.alias_chain.specs.Walk.{NameOf, AnswerMap, IsWalk};
ghost use Rattle.alias_chain.specs.Endpoints.{AreEndpoints, IsOfRecord, IsAppended};
ghost use Rattle.alias_chain.specs.Following.{endpoints_by};

/// Over any map of answers an origin has at most one walk.
pub fn one_walk()
    ensures name { (answers : AnswerMap) (origin : Origin) (v w : NameOf) (vs ws : List NameOf)
        → IsWalk answers origin v vs → IsWalk answers origin w ws → v ≡ w }
    ensures targets { (answers : AnswerMap) (origin : Origin) (v w : NameOf) (vs ws : List NameOf)
        → IsWalk answers origin v vs → IsWalk answers origin w ws → vs ≡ ws }
{}

/// Over any map of answers an origin has one list of endpoints at most.
pub fn one_list_of_endpoints()
    ensures { (answers : AnswerMap) (supported : Protos) (origin : Origin) (all others : List Endpoint)
        → AreEndpoints answers supported origin all → AreEndpoints answers supported origin others → all ≡ others }
{}

/// Over any map of answers the aliases that are followed one by one lead to an origin's endpoints.
pub fn endpoints_exist()
    ensures { (answers : AnswerMap) (supported : Protos) (origin : Origin)
        → AreEndpoints answers supported origin (endpoints_by answers supported origin) }
{}

/// Each endpoint is that of one consistent and compatible record of the walk's last name, or is that name itself behind at
/// least one alias.
pub fn endpoints_have_a_source()
    ensures { (answers : AnswerMap) (supported : Protos) (origin : Origin) (all : List Endpoint) (endpoint : Endpoint)
        → AreEndpoints answers supported origin all → Contains all endpoint
        → IsOfRecord answers supported origin endpoint ⊎ IsAppended answers origin endpoint }
{}
