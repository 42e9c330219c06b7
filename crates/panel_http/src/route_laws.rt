//! Laws of the table of routes.

ghost use Rattle.panel_http.specs.RouteLaws.{EachRouteIsFound};

/// Each of the eleven routes is found at a target of its form, and no other method has it.
pub fn each_route_is_found()
    ensures { EachRouteIsFound }
{}
