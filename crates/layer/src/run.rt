ghost use Rattle.std.specs.Prelude.{◌≡◌, ◌-◌, min};
ghost use Rattle.layer.specs.Runs.{in_run, no_blocks, all_blocks};

/// So many blocks of a store, from the first on. It may hang over the store's end.
#[derive(Clone, Copy, PartialEq, Eq, Debug)]
pub struct Run {
    pub first: u32,
    pub count: u32,
}

impl Run {
    /// No block: a write guard on it protects nothing more.
    // The derived Default would be no plainer: it stands beside `whole`, and both say what they are.
    pub fn none() -> Run
        ensures { result ≡ no_blocks }
    {
        Run { first: 0, count: 0 }
    }

    /// Every block that a store can have: a window on it shows the whole store.
    pub fn whole() -> Run
        ensures { result ≡ all_blocks }
    {
        Run {
            first: 0,
            count: u32::MAX,
        }
    }

    /// Whether the run has this block.
    pub fn contains(self, block: u32) -> bool
        ensures { result ≡ in_run self block }
    {
        self.first <= block && block - self.first < self.count
    }

    /// How many of the run's blocks a store of this size has.
    pub fn count_in(self, size: u32) -> u32
        ensures { result ≡ min self.count (size - self.first) }
    {
        self.count.min(size.saturating_sub(self.first))
    }
}
