ghost use Rattle.std.specs.Prelude.{◌≡◌, ◌≢◌, [], true, false, IfOk, IfErr, OnOk, IsTrue, option_map, Some, None, IsUtf8};
ghost use Rattle.std.specs.List.{list_any};
ghost use Rattle.matchit.specs.Seek.{first};
ghost use Rattle.requests.specs.Routes.{table, is_path as is_path_lem, route_of as route_of_lem, method_of as method_of_lem, ends_path as ends_path_lem, add, add_all, listed};

use crate::{Method, WireFault};
use matchit::Router;
use std::alloc::Global;
use std::marker::Model;

/// What is posted. The body of `GoodsIn` is a file, the others are JSON.
#[derive(Clone, Copy)]
pub enum Posted {
    Items,
    Bins,
    Receipts,
    Moves,
    Counts,
    Adjustments,
    Orders,
    Cancels,
    Picks,
    Unpicks,
    Shipments,
    Holds,
    Releases,
    Recalls,
    Days,
    Leasts,
    Urgents,
    GoodsIn,
}

/// What is shown.
#[derive(Clone, Copy)]
pub enum Shown {
    Books,
    OpenOrders,
    OpenOrdersBehind,
    ItemNames,
    ItemNamesBehind,
    Expiring,
    ExpiringBehind,
    Bin,
    BinBehind,
    Stock,
    Order,
    PickList,
    Shortages,
    Card,
    Notice,
    Trace,
    Picks,
    Figures,
}

/// A route, with the one method that it has.
#[derive(Clone, Copy)]
pub enum Route {
    Post(Posted),
    Get(Shown),
}

/// The routes that are served.
pub static ROUTES: &[(&str, Route)] = &[
    ("/items", Route::Post(Posted::Items)),
    ("/bins", Route::Post(Posted::Bins)),
    ("/receipts", Route::Post(Posted::Receipts)),
    ("/moves", Route::Post(Posted::Moves)),
    ("/counts", Route::Post(Posted::Counts)),
    ("/adjustments", Route::Post(Posted::Adjustments)),
    ("/orders", Route::Post(Posted::Orders)),
    ("/cancels", Route::Post(Posted::Cancels)),
    ("/picks", Route::Post(Posted::Picks)),
    ("/unpicks", Route::Post(Posted::Unpicks)),
    ("/shipments", Route::Post(Posted::Shipments)),
    ("/holds", Route::Post(Posted::Holds)),
    ("/releases", Route::Post(Posted::Releases)),
    ("/recalls", Route::Post(Posted::Recalls)),
    ("/days", Route::Post(Posted::Days)),
    ("/leasts", Route::Post(Posted::Leasts)),
    ("/urgents", Route::Post(Posted::Urgents)),
    ("/goodsin", Route::Post(Posted::GoodsIn)),
    ("/orders/{order}", Route::Get(Shown::Order)),
    ("/stock/{gtin}", Route::Get(Shown::Stock)),
    ("/picklists/{order}", Route::Get(Shown::PickList)),
    ("/shortages/{gtin}", Route::Get(Shown::Shortages)),
    ("/cards/{gtin}/{lot}", Route::Get(Shown::Card)),
    ("/notices/{gtin}/{lot}", Route::Get(Shown::Notice)),
    ("/books", Route::Get(Shown::Books)),
    ("/openorders", Route::Get(Shown::OpenOrders)),
    ("/openorders/{order}", Route::Get(Shown::OpenOrdersBehind)),
    ("/itemnames", Route::Get(Shown::ItemNames)),
    ("/itemnames/{gtin}", Route::Get(Shown::ItemNamesBehind)),
    ("/expiring/{day}", Route::Get(Shown::Expiring)),
    (
        "/expiring/{day}/{gtin}/{lot}",
        Route::Get(Shown::ExpiringBehind),
    ),
    ("/bins/{bin}", Route::Get(Shown::Bin)),
    ("/bins/{bin}/{gtin}/{lot}", Route::Get(Shown::BinBehind)),
    ("/traces/{gtin}/{lot}", Route::Get(Shown::Trace)),
    ("/picks/{order}", Route::Get(Shown::Picks)),
    ("/figures", Route::Get(Shown::Figures)),
];

// Adds a route. Nothing is added where there is no memory, or where it conflicts with another.
fn add_route(router: &mut Router<Route>, text: &str, value: Route) -> bool
    ensures { IsTrue result → router.new ≡ add text.now value router.old }
{
    router.insert(text, value).is_ok()
}

// Adds the routes of the list, until one cannot be added.
fn add_routes(router: &mut Router<Route>, list: &[(&str, Route)]) -> bool
    ensures { IsTrue result → router.new ≡ add_all (listed list.now) router.old }
{
    for route in list {
        if !add_route(router, route.0, route.1) {
            return false;
        }
    }
    true
}

// Adds the routes that the server has; with no others before, the table is theirs.
fn add_served(router: &mut Router<Route>) -> bool
    ensures { IsTrue result → router.old ≡ [] → router.new ≡ table }
{
    add_routes(router, ROUTES)
}

fn found_at(router: &Router<Route>, path: &str) -> Option<Route>
    ensures { result ≡ option_map (λ r. r.value) (first router.now path.now) }
{
    match router.at(path) {
        Ok(found) => Some(*found.value),
        Err(_) => None,
    }
}

fn ends_path(c: u8) -> bool
    ensures { result ≡ ends_path_lem c }
{
    c == b'?' || c == b'#'
}

fn has_end(target: &[u8]) -> bool
    ensures { result ≡ list_any ends_path_lem target.now }
{
    target.iter().any(|c| ends_path(*c))
}

fn is_path(target: &[u8]) -> bool
    ensures { result ≡ is_path_lem target.now }
{
    if target.is_empty() || target[0] != b'/' {
        return false;
    }
    let ended = has_end(target);
    !ended
}

// The routes that are served.
fn build_router(alloc: Global) -> Result<Router<Route>, WireFault>
    ensures ok { IfOk result (λ r. r ≡ table) }
    ensures err { IfErr result (λ e. e ≡ WireFault.Memory) }
{
    let mut router = Router::new(alloc);
    let added = add_served(&mut router);
    if !added {
        // A call, and before the exit: dropped at the end of its scope it is dropped field by field (docs/GATE.md).
        drop(router);
        return Err(WireFault::Memory);
    }
    Ok(router)
}

/// The table of the routes that are served: made where a first path is looked for, and kept.
///
/// Contracts see whether it is made. What a path is answered does not hang on it.
#[derive(Drop)]
pub struct RouteTable {
    router: Option<Router<Route>>,
}

impl Model for RouteTable {
    ghost use Rattle.std.specs.Prelude.{◌≡◌, Bool, is_some, IfSome};
    ghost use Rattle.requests.specs.Routes.{table};

    ghost Value = { Bool };

    ghost view = { λ t. is_some t.router };

    ghost invariant = { λ t. IfSome t.router (λ made. made ≡ table) };
}

impl RouteTable {
    /// A table that is not made yet. It takes no memory.
    pub fn new() -> RouteTable
        ensures { result ≡ false }
    {
        RouteTable { router: None }
    }

    // The table, taken out or made.
    fn take_or_build(&mut self, alloc: Global) -> Result<Router<Route>, WireFault>
        ensures ok { IfOk result (λ r. r ≡ table) }
        ensures err { IfErr result (λ e. (e ≡ WireFault.Memory) × (self.old ≡ false)) }
    {
        match self.router.take() {
            Some(router) => Ok(router),
            None => build_router(alloc),
        }
    }

    /// The route of a target. Where there is no memory for the table the fault is `W90`, and otherwise `W06` where no
    /// route fits. Once the table is made it stays, and no memory is asked for.
    pub fn route_of(&mut self, alloc: Global, target: &[u8]) -> Result<Route, WireFault>
        requires { IsUtf8 target.now }
        ensures ok { IfOk result (λ r. route_of_lem target.now ≡ Some r) }
        ensures err { IfErr result (λ e. e ≢ WireFault.Memory → (e ≡ WireFault.Path)
            × (route_of_lem target.now ≡ None)) }
        ensures made { OnOk result (self.new ≡ true) }
        ensures stays { self.old ≡ true → (self.new ≡ true) × IfErr result (λ e. e ≢ WireFault.Memory) }
    {
        if !is_path(target) {
            return Err(WireFault::Path);
        }
        let router = self.take_or_build(alloc)?;
        let found = found_at(&router, std::str::from_utf8(target).unwrap());
        self.router = Some(router);
        found.ok_or(WireFault::Path)
    }
}

/// The method of a route.
pub fn method_of(route: Route) -> Method
    ensures { result ≡ method_of_lem route }
{
    match route {
        Route::Post(_) => Method::Post,
        Route::Get(_) => Method::Get,
    }
}
