ghost use Rattle.std.specs.Prelude.{ℕ, ◌+◌, ◌<◌, length, reverse};
ghost use Rattle.std.specs.Iterator.{YieldsFirst, item_count};
ghost use Rattle.search.specs.Visits.{path, Chained};

use super::visit::Visit;

// The letters along the back links from a visit to the start, the last one first.
#[derive(Drop)]
pub(crate) struct BackLinks<'a, P> {
    pub(crate) visits: &'a [Visit<P>],
    pub(crate) at: usize,
    ghost inside: { at < length visits.now },
    ghost chained: { Chained visits.now (at + 1) },
}

impl<'a, P: Copy> Iterator for BackLinks<'a, P> {
    type Item = u8;

    ghost next_gives = { YieldsFirst (λ s. reverse (path s.visits.now s.at)) };

    ghost remaining = { item_count (λ s. reverse (path s.visits.now s.at)) };

    fn next(&mut self) -> Option<u8> {
        if self.at == 0 {
            return None;
        }
        let visit = self.visits[self.at];
        self.at = visit.from as usize;
        Some(visit.letter)
    }
}
