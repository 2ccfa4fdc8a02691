ghost use Rattle.std.specs.Prelude.{◌≡◌};
ghost use Rattle.search.specs.Graphs.{Graph, Sound};

// A walk over positions of its own kind: each letter leads from a position to another, or meets the goal.
pub trait Walk {
    type Position: Copy;

    // What the walk means.
    ghost graph: { Self → Graph Self.Position };

    // The values that are positions of this walk.
    ghost Inside: { Self → Self.Position → Type 0 };

    // The start and the steps stay inside, and no two positions inside share a number.
    ghost sound: { (w : Self) → Sound (graph w) (Inside w) };

    fn start(&self) -> Self::Position
        ensures { result ≡ (graph self.now).start };

    fn letters(&self) -> u8
        ensures { result ≡ (graph self.now).letters };

    // Every position's number is below this.
    fn count(&self) -> usize
        ensures { result ≡ (graph self.now).count };

    fn number(&self, position: Self::Position) -> usize
        ensures { result ≡ (graph self.now).number position };

    // Where the letter leads: a position, or `None` at the goal.
    fn step(&self, position: Self::Position, letter: u8) -> Option<Self::Position>
        ensures { result ≡ (graph self.now).step position letter };
}
