ghost use Rattle.std.specs.Prelude.{◌≡◌};
ghost use Rattle.flex.specs.Units.{apart, counted, inside, past};

use super::geometry::Geometry;

/// A unit: a run of blocks of the store, from its first block on, as many as its geometry has places.
#[derive(Clone, Copy, PartialEq, Eq, Debug)]
pub struct Unit {
    pub first: u32,
    pub geometry: Geometry,
}

impl Unit {
    /// One past the last block.
    fn past(self) -> u64
        ensures { result ≡ past self }
    {
        u64::from(self.first) + u64::from(self.geometry.size())
    }

    pub(super) fn is_counted(self) -> bool
        ensures { result ≡ counted self }
    {
        self.geometry.cylinders > 0 && self.geometry.heads > 0 && self.geometry.sectors > 0
    }

    pub(super) fn is_apart(self, other: Unit) -> bool
        ensures { result ≡ apart self other }
    {
        self.past() <= u64::from(other.first) || other.past() <= u64::from(self.first)
    }

    pub(super) fn is_inside(self, end: u32) -> bool
        ensures { result ≡ inside end self }
    {
        self.past() <= u64::from(end)
    }
}
