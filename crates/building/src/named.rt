//! Items with names.

ghost use Rattle.std.specs.Prelude.{◌≡◌};

use points::{Name, Panel, Point};

/// An item with a name.
pub trait Named {
    ghost use Rattle.std.specs.Prelude.{List, ℕ};

    /// The bytes of the name.
    ghost name_of: { Self → List ℕ };

    fn name(&self) -> &Name
        ensures { result.now ≡ name_of self.now };
}

impl Named for Point {
    ghost name_of = { λ point. point.name };

    fn name(&self) -> &Name {
        &self.name
    }
}

impl Named for Panel {
    ghost name_of = { λ panel. panel.name };

    fn name(&self) -> &Name {
        &self.name
    }
}
