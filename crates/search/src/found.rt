ghost use Rattle.std.specs.Prelude.{◌≡◌, length};
ghost use Rattle.search.specs.Answers.{FewLetters, Finds, Suffices};

use super::breadth_first::{Outcome, explore};
use super::path::write_path;
use super::search_error::SearchError;
use super::visit::Visit;
use super::walk::Walk;

// What the search for the goal found.
#[derive(Clone, Copy, PartialEq, Eq, Hash, Debug)]
pub enum Found {
    // The first `length` entries of the answer slice are the least sequence that meets the goal.
    Goal { length: usize },
    // No sequence meets the goal: the first `count` visits are the reachable positions.
    Exhausted { count: usize },
}

// Refuses work slices with fewer entries than there are positions.
pub fn check_work<P>(count: usize, visits: &[Visit<P>], marks: &[u32]) -> Result<(), SearchError>
    ensures { Suffices count (length visits.now) (length marks.now) result }
{
    if visits.len() < count || marks.len() < count {
        return Err(SearchError::WorkTooShort);
    }
    Ok(())
}

// Searches for the least sequence that meets the walk's goal. No answer depends on what the work slices held.
// Work slices are two parameters, here and in every call: a struct of them would have each contract say too that the caller's slices are still inside.
pub fn shortest<W: Walk>(
    walk: &W,
    visits: &mut [Visit<W::Position>],
    marks: &mut [u32],
    answer: &mut [u8],
) -> Result<Found, SearchError>
    ensures answer { Finds (W.graph walk.now) (length visits.old) (length marks.old) answer.old result visits.new answer.new }
    ensures few { FewLetters (W.graph walk.now) result }
{
    check_work(walk.count(), visits, marks)?;
    match explore(walk, visits, marks) {
        Outcome::Exhausted { count } => Ok(Found::Exhausted { count }),
        Outcome::Goal { at, letter } => {
            let length = write_path(visits, at, letter, answer)?;
            Ok(Found::Goal { length })
        }
    }
}
