//! The table of routes.

ghost use Rattle.std.specs.Prelude.{◌≡◌, IfOk, IfSome, option_copied, option_map};
ghost use Rattle.std.specs.List.{list_all};
ghost use Rattle.matchit.specs.Params.{walk};
ghost use Rattle.panel_http.specs.Routes.{route_value, get_rows, limit_of, is_ascii_byte, part_taken, post_rows};
ghost use Rattle.panel_http.specs.Routes.{route_among, route_of, route_with, rows_of, with_row};

use crate::route::{FoundRoute, Route};
use http::Method;
use matchit::{Params, Router};
use std::alloc::{AllocError, Global};
use std::marker::Model;

/// A row of the table.
#[derive(Clone, Copy, Drop)]
enum Row {
    Commands,
    Skip,
    Tick,
    Imports,
    Point,
    Report,
    Points,
    Why,
    Panel,
    Record,
    Metrics,
}

/// The routes of the desk and of its follower.
#[derive(Drop)]
pub struct Routes {
    posts: Router<Row>,
    gets: Router<Row>,
}

impl Model for Routes {
    ghost use Rattle.std.specs.Prelude.{◌≡◌};
    ghost use Rattle.panel_http.specs.Routes.{get_rows, post_rows};

    ghost Value = { Unit {0} };

    ghost view = { λ _. tt };

    ghost invariant = { λ routes. (routes.posts ≡ post_rows) × (routes.gets ≡ get_rows) };
}

impl Routes {
    /// The table.
    pub fn new(alloc: Global) -> Result<Routes, AllocError> {
        Ok(Routes {
            posts: posts(alloc)?,
            gets: gets(alloc)?,
        })
    }

    /// The route that a method and a target ask.
    pub(crate) fn find<'a>(&self, method: &Method, target: &'a str) -> Option<FoundRoute<'a>>
        ensures route { option_map (λ found. route_value found.route) result ≡ route_of method.now target.now }
        ensures limit { IfSome result (λ found. found.limit ≡ limit_of (route_value found.route)) }
    {
        find_among(self.rows_of(method)?, target)
    }

    /// The routes of a method.
    fn rows_of(&self, method: &Method) -> Option<&Router<Row>>
        ensures { option_copied result ≡ rows_of method.now }
    {
        if *method == Method::POST {
            Some(&self.posts)
        } else if *method == Method::GET {
            Some(&self.gets)
        } else {
            None
        }
    }
}

/// The route among these that a target asks.
fn find_among<'a>(rows: &Router<Row>, target: &'a str) -> Option<FoundRoute<'a>>
    ensures route { option_map (λ found. route_value found.route) result ≡ route_among target.now rows.now }
    ensures limit { IfSome result (λ found. found.limit ≡ limit_of (route_value found.route)) }
{
    match rows.at(target) {
        Ok(found) => Some(route_with(*found.value, part_taken(&found.params, target))),
        Err(_) => None,
    }
}

/// The route of a row, with its parameter and its limit.
fn route_with(row: Row, parameter: Option<&str>) -> FoundRoute<'_>
    ensures route { route_value result.route ≡ route_with row (option_map (λ s. s.now) parameter.entry) }
    ensures limit { result.limit ≡ limit_of (route_value result.route) }
{
    let (route, limit) = match row {
        Row::Commands => (Route::Commands { panel: parameter }, Some(65_536)),
        Row::Skip => (Route::Skip { panel: parameter }, Some(65_536)),
        Row::Tick => (Route::Tick, Some(65_536)),
        Row::Imports => (Route::Imports, Some(262_144)),
        Row::Point => (Route::Point { point: parameter }, None),
        Row::Report => (Route::Report { date: parameter }, None),
        Row::Points => (Route::Points, None),
        Row::Why => (Route::Why { point: parameter }, None),
        Row::Panel => (Route::Panel { panel: parameter }, None),
        Row::Record => (Route::Record, None),
        Row::Metrics => (Route::Metrics, None),
    };
    FoundRoute { route, limit }
}

/// What the first parameter took of the target, if all of that is ASCII.
fn part_taken<'a>(params: &Params<'_, 'a>, target: &str) -> Option<&'a str>
    requires { params.now.path.now ≡ target.now }
    ensures { option_map (λ s. s.now) result ≡ part_taken target.now
        (walk params.now.pattern.now params.now.text.now target.now params.now.names.now 0 0) }
{
    if !is_ascii(target) {
        return None;
    }
    let (_, part) = params.iter().next()?;
    Some(part)
}

/// Whether a text has no byte past ASCII.
fn is_ascii(text: &str) -> bool
    ensures { result ≡ list_all is_ascii_byte text.now }
{
    text.bytes().all(|byte| byte.is_ascii())
}

/// The routes of POST.
fn posts(alloc: Global) -> Result<Router<Row>, AllocError>
    ensures { IfOk result (λ router. router ≡ post_rows) }
{
    let mut router = Router::new(alloc);
    add(&mut router, "/imports", Row::Imports)?;
    add(&mut router, "/tick", Row::Tick)?;
    add(&mut router, "/panels/{panel}/skip", Row::Skip)?;
    add(&mut router, "/panels/{panel}/commands", Row::Commands)?;
    Ok(router)
}

/// The routes of GET.
fn gets(alloc: Global) -> Result<Router<Row>, AllocError>
    ensures { IfOk result (λ router. router ≡ get_rows) }
{
    let mut router = Router::new(alloc);
    add(&mut router, "/metrics", Row::Metrics)?;
    add(&mut router, "/record", Row::Record)?;
    add(&mut router, "/panels/{panel}", Row::Panel)?;
    add(&mut router, "/points/{point}/why", Row::Why)?;
    add(&mut router, "/points", Row::Points)?;
    add(&mut router, "/reports/{date}", Row::Report)?;
    add(&mut router, "/points/{point}", Row::Point)?;
    Ok(router)
}

/// Adds a row to the routes of a method.
fn add(router: &mut Router<Row>, pattern: &str, row: Row) -> Result<(), AllocError>
    ensures { IfOk result (λ _. router.new ≡ with_row pattern.now row router.old) }
{
    match router.insert(pattern, row) {
        Ok(()) => Ok(()),
        Err(_) => Err(AllocError),
    }
}
