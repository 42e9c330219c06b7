//! The overrides of one point so far.
ghost use Rattle.std.specs.Prelude.{◌≡◌, ◌++◌, ◌∷◌, [], IfOk, List, None, Some};
ghost use Rattle.desk_overrides.specs.Overrides.{is_given, overrides};
ghost use Rattle.desk_overrides.specs.Watched.{AreKnown, Knows, standing_from};
ghost use Rattle.desk_overrides.specs.declared.overriding.Look.{Look as a_look};

use crate::overriding::{Ended, Given, Look, Override};
use points::Name;
use std::alloc::{AllocError, Global};

/// An override that has not ended yet.
#[derive(Clone, Copy)]
pub(crate) struct Standing {
    given: Given,
    began: Option<i64>,
}

/// A point, its overrides that ended, and the one that stands.
#[derive(Drop)]
pub(crate) struct Watch {
    point: Name,
    ended: Vec<Override>,
    standing: Option<Standing>,
}

/// Whether the same command gives the value.
fn is_given(before: Option<Given>, given: &Given) -> bool
    ensures { result ≡ is_given before given.now }
{
    match before {
        Some(other) => other.panel == given.panel && other.number == given.number,
        None => false,
    }
}

impl Watch {
    /// A point before the first delivery.
    pub(crate) fn new(alloc: Global, point: Name) -> Watch
        ensures point { result.point ≡ point }
        ensures knows { Knows result [] }
    {
        Watch {
            point,
            ended: Vec::new(alloc),
            standing: None,
        }
    }

    /// The point that is watched.
    pub(crate) fn point(&self) -> &Name
        ensures { result.now ≡ self.now.point }
    {
        &self.point
    }

    /// What is known after one look more.
    pub(crate) fn noted(self, look: Look) -> Result<Watch, AllocError>
        ensures point { IfOk result (λ watch. watch.point ≡ self.point) }
        ensures knows { (seen : List a_look) → Knows self seen → IfOk result (λ watch. Knows watch (seen ++ look ∷ [])) }
    {
        let Watch {
            point,
            ended,
            standing,
        } = self;
        let (ended, standing) = after_look(ended, standing, look)?;
        Ok(Watch {
            point,
            ended,
            standing,
        })
    }

    /// The overrides, in the order in which they began.
    pub(crate) fn overrides(self) -> Result<Vec<Override>, AllocError>
        ensures { (seen : List a_look) → Knows self seen → IfOk result (λ all. all.items ≡ overrides None seen) }
    {
        let Watch {
            ended,
            standing,
            ..
        } = self;
        match standing {
            Some(stands) => with_one(ended, stands.unended()),
            None => Ok(ended),
        }
    }
}

/// What ended and what stands, after one look more.
fn after_look(
    ended: Vec<Override>,
    standing: Option<Standing>,
    look: Look,
) -> Result<(Vec<Override>, Option<Standing>), AllocError>
    ensures { (seen : List a_look) → AreKnown ended.items standing seen
        → IfOk result (λ after. AreKnown after.0.items after.1 (seen ++ look ∷ [])) }
{
    match standing {
        Some(stands) => gone_on(ended, stands, look),
        None => Ok((ended, begun(look))),
    }
}

/// The same, where one stood.
fn gone_on(
    ended: Vec<Override>,
    stands: Standing,
    look: Look,
) -> Result<(Vec<Override>, Option<Standing>), AllocError>
    ensures { (seen : List a_look) → AreKnown ended.items (Some stands) seen
        → IfOk result (λ after. AreKnown after.0.items after.1 (seen ++ look ∷ [])) }
{
    if is_given(look.given, &stands.given) {
        return Ok((ended, Some(stands)));
    }
    let ended = with_one(ended, stands.ended(look.last))?;
    Ok((ended, begun(look)))
}

fn with_one(all: Vec<Override>, one: Override) -> Result<Vec<Override>, AllocError>
    ensures { IfOk result (λ more. more.items ≡ all.items ++ one ∷ []) }
{
    let mut all = all;
    all.push(one)?;
    Ok(all)
}

/// The override that begins at a look at which another command gives the value, if one does.
fn begun(look: Look) -> Option<Standing>
    ensures { result ≡ standing_from look }
{
    let given = look.given?;
    Some(Standing {
        given,
        began: look.last,
    })
}

impl Standing {
    /// The override, which ends now.
    fn ended(self, last: Option<i64>) -> Override
        ensures { result ≡ record { given = self.given; began = self.began; ended = Some (record { last = last }) } }
    {
        Override {
            given: self.given,
            began: self.began,
            ended: Some(Ended { last }),
        }
    }

    /// The override, which stands at the end.
    fn unended(self) -> Override
        ensures { result ≡ record { given = self.given; began = self.began; ended = None } }
    {
        Override {
            given: self.given,
            began: self.began,
            ended: None,
        }
    }
}
