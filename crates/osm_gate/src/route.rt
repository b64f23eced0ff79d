//! The paths of the server.

ghost use Rattle.std.specs.Prelude.{◌≡◌, IfErr, IfOk, option_map};
ghost use Rattle.matchit.specs.Seek.{first};
ghost use Rattle.osm_gate.specs.Routes.{route_of, route_rows};

use crate::endpoint::Endpoint;
use matchit::{InsertError, Router};
use std::alloc::Global;

/// What a path leads to.
#[derive(Clone, Copy)]
pub(crate) enum Route {
    /// `/api/interpreter`, which gives answers, or `/api/checked`, which gives them with their proofs.
    Query(Endpoint),
    /// `/api/root`: the root.
    Root,
}

/// A router with all paths. Refused only where memory runs out.
pub(crate) fn routes(alloc: Global) -> Result<Router<Route>, InsertError>
    ensures ok { IfOk result (λ router. router ≡ route_rows) }
    ensures memory { IfErr result (λ error. error ≡ InsertError.OutOfMemory) }
{
    let mut router = Router::new(alloc);
    if let Err(first) = router.insert("/api/interpreter", Route::Query(Endpoint::Answer)) {
        return Err(first);
    }
    if let Err(second) = router.insert("/api/checked", Route::Query(Endpoint::AnswerWithProof)) {
        return Err(second);
    }
    if let Err(third) = router.insert("/api/root", Route::Root) {
        return Err(third);
    }
    Ok(router)
}

/// What the path leads to; none for an unknown path, and for one that isn't UTF-8.
#[tactic(auto, unfolding(crate::specs::Routes::route_of))]
pub(crate) fn route_of(router: &Router<Route>, path: &[u8]) -> Option<Route>
    requires { router.now ≡ route_rows }
    ensures { result ≡ route_of path.now }
{
    let Ok(text) = std::str::from_utf8(path) else {
        return None;
    };
    route_at(router, text)
}

fn route_at(router: &Router<Route>, path: &str) -> Option<Route>
    ensures { result ≡ option_map (λ route. route.value) (first router.now path.now) }
{
    match router.at(path) {
        Ok(found) => Some(*found.value),
        Err(_) => None,
    }
}
