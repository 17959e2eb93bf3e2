//! The routes of the HTTP interface, and what a path names.
ghost use Rattle.std.specs.Prelude.{◌≡◌, IfOk, IfSome, IsTrue, IfNone};
ghost use Rattle.std.specs.List.{list_all};
ghost use Rattle.http_request.specs.RouteTable.{route_table, is_table_prop};
ghost use Rattle.http_request.specs.Paths.{is_target_byte, NamesTarget};
ghost use Rattle.http_request.specs.Paths as paths;
ghost use Rattle.http_request.specs.Targets.{target_view, parameters_of, IsTargetOf, IsNextValue};

use crate::Method;
use matchit::{InsertError, Params, ParamsIter, Router};
use std::alloc::Global;

/// What a path leads to.
#[derive(Clone, Copy, Debug, PartialEq, Eq)]
pub enum Route {
    Registry,
    Deposit,
    Statements,
    Check,
    Release,
    ReleasedPart,
    Hold,
    Lift,
    Notices,
    Reasons,
    Digests,
    State,
    Due,
    Purges,
}

const ROUTES: [Route; 14] = [
    Route::Registry,
    Route::Deposit,
    Route::Statements,
    Route::Check,
    Route::Release,
    Route::ReleasedPart,
    Route::Hold,
    Route::Lift,
    Route::Notices,
    Route::Reasons,
    Route::Digests,
    Route::State,
    Route::Due,
    Route::Purges,
];

/// A route: its path, its method, and the most bytes of a body, where it takes one.
#[derive(Clone, Copy)]
struct RouteRow {
    path: &'static str,
    method: Method,
    limit: Option<u64>,
}

fn row(path: &'static str, method: Method, limit: Option<u64>) -> RouteRow
    ensures path { result.path.now ≡ path.now }
    ensures method { result.method ≡ method }
    ensures limit { result.limit ≡ limit }
{
    RouteRow {
        path,
        method,
        limit,
    }
}

impl Route {
    ghost use Rattle.std.specs.Prelude.{◌≡◌};
    ghost use Rattle.http_request.specs.RouteTable.{route_text};
    ghost use Rattle.http_request.specs.Paths.{row_of};

    /// Its row of the table.
    fn row(self) -> RouteRow
        ensures path { result.path.now ≡ route_text self }
        ensures method { result.method ≡ (row_of self).method }
        ensures limit { result.limit ≡ (row_of self).limit }
    {
        match self {
            Route::Registry => row("/registries/{tld}", Method::Put, Some(4096)),
            Route::Deposit => row("/deposits/{name}", Method::Put, Some(1_048_576)),
            Route::Statements => row("/statements", Method::Post, Some(4096)),
            Route::Check => row("/checks/{tld}/{date}", Method::Post, Some(0)),
            Route::Release => row("/releases/{reference}", Method::Put, Some(4096)),
            Route::ReleasedPart => row("/releases/{reference}/{name}", Method::Get, None),
            Route::Hold => row("/holds/{reference}", Method::Put, Some(4096)),
            Route::Lift => row("/lifts/{reference}", Method::Post, Some(0)),
            Route::Notices => row("/notices/{tld}", Method::Get, None),
            Route::Reasons => row("/reasons/{tld}/{date}/{revision}", Method::Get, None),
            Route::Digests => row("/digests/{tld}", Method::Get, None),
            Route::State => row("/state", Method::Get, None),
            Route::Due => row("/due", Method::Get, None),
            Route::Purges => row("/purges", Method::Post, Some(0)),
        }
    }
}

/// What a path names: its route, and its parameters in the order of the path.
/// A route has none, the first, the first two, or all.
#[derive(Clone, Copy, Debug, PartialEq, Eq)]
pub struct Target<'p> {
    pub route: Route,
    pub first: &'p [u8],
    pub second: &'p [u8],
    pub third: &'p [u8],
}

impl<'p> Target<'p> {
    ghost use Rattle.std.specs.Prelude.{◌≡◌};
    ghost use Rattle.http_request.specs.Targets.{target_view};
    ghost use Rattle.http_request.specs.Paths.{method_of, limit_of};

    /// The method of its route.
    pub fn method(&self) -> Method
        ensures { result ≡ method_of (target_view self.now) }
    {
        self.route.row().method
    }

    /// The most bytes of a body, where the route takes one.
    pub fn limit(&self) -> Option<u64>
        ensures { result ≡ limit_of (target_view self.now) }
    {
        self.route.row().limit
    }
}

/// The routes, in a router.
#[derive(Drop)]
pub struct Routes {
    router: Router<Route>,
    ghost routed: { router ≡ route_table } by { is_table_prop router },
}

/// The router of the routes.
fn route_table(alloc: Global) -> Result<Router<Route>, InsertError>
    ensures table { IfOk result (λ router. router ≡ route_table) }
{
    let mut router = Router::new(alloc);
    for route in &ROUTES {
        router.insert(route.row().path, *route)?;
    }
    Ok(router)
}

/// The text of the next parameter, and no bytes behind the last.
fn next_value<'p>(params: &mut ParamsIter<'_, '_, 'p>) -> &'p [u8]
    ensures { IsNextValue params.old result.now params.new }
{
    match params.next() {
        Some((_, value)) => value.as_bytes(),
        None => b"",
    }
}

/// The target of a route that a path matched.
fn target_of<'p>(route: Route, params: &Params<'_, 'p>) -> Target<'p>
    ensures { IsTargetOf route (parameters_of params.now) (target_view result) }
{
    let mut values = params.iter();
    let first = next_value(&mut values);
    let second = next_value(&mut values);
    let third = next_value(&mut values);
    Target {
        route,
        first,
        second,
        third,
    }
}

impl Routes {
    /// The routes, found by their paths.
    pub fn new(alloc: Global) -> Result<Routes, InsertError> {
        let router = route_table(alloc)?;
        Ok(Routes { router })
    }

    /// What a path names, if it names anything.
    pub fn find<'p>(&self, path: &'p str) -> Option<Target<'p>>
        requires { IsTrue (list_all is_target_byte path.now) }
        ensures found { IfSome result (λ target. NamesTarget path.now (target_view target)) }
        ensures none { IfNone result ((target : paths.Target) → ¬ NamesTarget path.now target) }
    {
        match self.router.at(path) {
            Ok(found) => Some(target_of(*found.value, &found.params)),
            Err(_) => None,
        }
    }
}
