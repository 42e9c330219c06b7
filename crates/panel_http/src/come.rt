//! What the bytes of an input that have come ask, where they are a whole request.

ghost use Rattle.std.specs.Prelude.{◌≡◌, false};
ghost use Rattle.panel_http.specs.Come.{IsCome};
ghost use Rattle.panel_http.specs.declared.refusal.Refusal.TheVariants as refusal;
ghost use Rattle.panel_http.specs.declared.request.Request.TheVariants as asked;

use crate::refusal::Refusal;
use crate::request::Request;
use crate::routes::Routes;
use crate::whole::lacking;
use crate::whole_input::request_in;
use building::Building;
use std::alloc::Global;

/// What has come of an input.
#[derive(Drop)]
pub enum Come {
    /// A whole request, which asks this.
    Asks(Request),
    /// How many bytes are waited for at least, as `lacking` counts them: 0 for a whole request of which memory was
    /// refused to tell what it asks.
    Lacks(usize),
}

/// What the bytes that have come ask, where they are a whole request, or how many are waited for. Only bytes that may be a
/// part of a request are parsed a second time, for how many they lack.
pub fn request_come(alloc: Global, routes: &Routes, building: &Building, come: &[u8]) -> Come
    ensures { IsCome building.now come.now result }
{
    if come.is_empty() {
        return Come::Lacks(1);
    }
    let Ok(request) = request_in(alloc, routes, building, come) else {
        return Come::Lacks(lacking(alloc, routes, come));
    };
    if !may_be_part(&request) {
        return Come::Asks(request);
    }
    match lacking(alloc, routes, come) {
        0 => Come::Asks(request),
        count => Come::Lacks(count),
    }
}

/// Whether bytes that ask this, where the input ends behind them, can be a part of a request: they have no head, or
/// their body is cut.
fn may_be_part(request: &Request) -> bool
    ensures head { result ≡ false → ¬ (request.now ≡ asked.Refused refusal.NoHead) }
    ensures body { result ≡ false → ¬ (request.now ≡ asked.Refused refusal.CutBody) }
{
    matches!(
        request,
        Request::Refused(Refusal::NoHead | Refusal::CutBody)
    )
}
