// Sizes that memory is laid out by: a town's, and a county's, which no edition goes beyond. The network's own counts choose, not its edition.
ghost use Rattle.std.specs.Prelude.{◌≡◌};
ghost use Rattle.frames.specs.Steps.Sizes.{is_town};

// A town has at most so many nodes, and so many segments.
pub const TOWN: usize = 1000;

// A county has at most so many nodes, and so many segments.
pub const COUNTY: usize = 8000;

// The most bytes of a segment's frame.
pub const MOST_BYTES: usize = 32;

// So many nodes and segments need no more memory than a town's.
#[tactic(auto, unfolding(crate::specs::Steps::Sizes::is_town))]
pub fn is_town(nodes: usize, segments: usize) -> bool
    ensures { result ≡ is_town nodes segments }
{
    (nodes <= TOWN) & (segments <= TOWN)
}
