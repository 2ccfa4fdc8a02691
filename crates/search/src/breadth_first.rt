ghost use Rattle.std.specs.Prelude.{◌≡◌, ℕ, ◌+◌, ◌^◌, ◌<◌, ◌≤◌, length, slice_set};
ghost use Rattle.search.specs.Visits.{Explored, MetEarly};

use super::visit::Visit;
use super::walk::Walk;
use super::worklist::Worklist;

// How a search ends: the letter meets the goal at the visit, or none can and the first `count` visits are all there are.
// Not a `Found` with a parameter for what a goal carries: its callers would read `Found<usize>`, and `length` would lose its name.
#[derive(Clone, Copy)]
pub(crate) enum Outcome {
    Goal { at: usize, letter: u8 },
    Exhausted { count: usize },
}

// A walk under search, and for each number a mark that leads to its visit in the list. The list stands beside it:
// of a slice lent to a struct within a struct nothing is known after the loan. Nor are the list's own fields in here:
// `push`, `next` and `get` would each have to say that walk and marks stay.
#[derive(Drop)]
struct Search<'a, W: Walk> {
    walk: &'a W,
    marks: &'a mut [u32],
    ghost slots: { (W.graph walk.now).count ≤ length marks.now },
}

impl<'a, W: Walk> Search<'a, W> {
    ghost use Rattle.search.specs.Searches.{Continues, Expanded, HasTried, IsMarked, Knows, Tried};

    // Whether the position is in the list: its mark leads to a visit of the same number. Marks that were never set lead elsewhere.
    fn is_visited(&self, list: &Worklist<Visit<W::Position>>, position: W::Position) -> bool
        requires inside { W.Inside self.now.walk.now position }
        requires marked { IsMarked self.now list.now }
        ensures { Knows self.now list.now position result }
    {
        let number = self.walk.number(position);
        let index = self.marks[number] as usize;
        index < list.len() && self.walk.number(list.get(index).position) == number
    }

    // Appends a visit and marks its position.
    fn enter(&mut self, list: &mut Worklist<Visit<W::Position>>, visit: Visit<W::Position>)
        requires inside { W.Inside self.old.walk.now visit.position }
        requires room { list.old.tail < length list.old.items.now }
        requires few { list.old.tail < 2 ^ 32 }
        ensures items { list.new.items.now ≡ slice_set list.old.items.now list.old.tail visit }
        ensures marks { self.new.marks.now ≡ slice_set self.old.marks.now ((W.graph self.old.walk.now).number visit.position) list.old.tail }
        ensures tail { list.new.tail ≡ list.old.tail + 1 }
        ensures continues { Continues self.old self.new list.old list.new }
    {
        let number = self.walk.number(visit.position);
        let index = list.len();
        self.marks[number] = index as u32;
        list.push(visit);
    }

    // Tries one letter at a visit: whether it meets the goal, of which there is no more to tell. A new position is entered as soon as it is found.
    fn try_letter(&mut self, list: &mut Worklist<Visit<W::Position>>, at: usize, letter: u8) -> bool
        requires room { (W.graph self.old.walk.now).count ≤ length list.old.items.now }
        requires tried { HasTried self.old list.old at letter }
        requires inside { at < list.old.tail }
        requires lettered { letter < (W.graph self.old.walk.now).letters }
        ensures tried { Tried self.new list.new at letter result }
        ensures continues { Continues self.old self.new list.old list.new }
    {
        let here = list.get(at);
        match self.walk.step(here.position, letter) {
            None => true,
            Some(position) => {
                if !self.is_visited(list, position) {
                    self.enter(
                        list,
                        Visit {
                            position,
                            from: at as u32,
                            letter,
                        },
                    );
                }
                false
            }
        }
    }

    // Tries the letters at a visit in rising order: the first that meets the goal.
    fn expand(&mut self, list: &mut Worklist<Visit<W::Position>>, at: usize) -> Option<u8>
        requires room { (W.graph self.old.walk.now).count ≤ length list.old.items.now }
        requires tried { HasTried self.old list.old at 0 }
        requires inside { at < list.old.tail }
        ensures expanded { Expanded self.new list.new at result }
        ensures continues { Continues self.old self.new list.old list.new }
    {
        // A loop, since nothing is known of a list that the closure of a `find` changes.
        for letter in 0..self.walk.letters() {
            if self.try_letter(list, at, letter) {
                return Some(letter);
            }
        }
        None
    }
}

// The breadth-first search from the walk's start.
pub(crate) fn explore<W: Walk>(
    walk: &W,
    visits: &mut [Visit<W::Position>],
    marks: &mut [u32],
) -> Outcome
    requires room { (W.graph walk.now).count ≤ length visits.old }
    requires slots { (W.graph walk.now).count ≤ length marks.old }
    ensures explored { Explored (W.graph walk.now) visits.new result }
    ensures early { MetEarly (W.graph walk.now) result }
{
    let position = walk.start();
    let mut search = Search { walk, marks };
    let mut list = Worklist {
        items: visits,
        head: 0,
        tail: 0,
    };
    search.enter(
        &mut list,
        Visit {
            position,
            from: 0,
            letter: 0,
        },
    );
    while let Some(at) = list.next() {
        if let Some(letter) = search.expand(&mut list, at) {
            return Outcome::Goal { at, letter };
        }
    }
    Outcome::Exhausted { count: list.len() }
}
