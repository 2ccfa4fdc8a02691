ghost use Rattle.std.specs.Prelude.{◌≡◌, length};
ghost use Rattle.compare.specs.Comparisons.{FewLetters, PairsSearched};
ghost use Rattle.report.specs.Reports.{Compared, Reported, same_widths};
ghost use Rattle.report.specs.Sources.{BothHeld, machines_of, names_held};

use crate::listing::Listing;
use crate::outcome::{Outcome, refuse};
use crate::sequence::Sequence;
use crate::source::Source;
use compare::search_pairs;
use layers::Rivals;
use machine::{MOST_PAIRS, Pair, Pins, Refusal};
use search::{Found, SearchError, Visit};

// Two state tables that are set side by side.
#[derive(Clone, Copy)]
pub(crate) struct Tables<'g, 'f> {
    pub(crate) good: Source<'g>,
    pub(crate) faulty: Source<'f>,
}

impl Tables<'_, '_> {
    // Whether both have the same input and the same output width.
    fn same_widths(&self) -> bool
        ensures { result ≡ same_widths self.now.good.shape self.now.faulty.shape }
    {
        let (good, faulty) = (self.good.shape, self.faulty.shape);
        (good.inputs, good.outputs) == (faulty.inputs, faulty.outputs)
    }

    // Searches for the least sequence that distinguishes them, which goes into `letters`. Where none does, the visits are left as the reachable pairs.
    fn search(
        &self,
        visits: &mut [Visit<Pair>],
        marks: &mut [u32],
        letters: &mut [u8],
    ) -> Result<Found, SearchError>
        ensures answer { PairsSearched (machines_of self.now) 0 1 (length visits.old) (length marks.old) letters.old result visits.new letters.new }
        ensures few { FewLetters (machines_of self.now) 0 1 result }
    {
        let rivals = Rivals::new(self.good.table(), self.faulty.table());
        search_pairs(&rivals, 0, 1, visits, marks, letters)
    }

    // Compares them, and reports what comes of it.
    fn compare(
        &self,
        visits: &mut [Visit<Pair>],
        marks: &mut [u32],
        report: &mut [u8],
    ) -> Result<usize, Refusal>
        ensures { Reported (Compared (machines_of self.now) self.now.good.shape.inputs (names_held self.now) (length visits.old) (length marks.old)) report.old result report.new }
    {
        // An array, as libraries use no heap. A least sequence has at most a letter for each pair of states.
        let mut letters = [0; MOST_PAIRS];
        match self.search(visits, marks, &mut letters) {
            Ok(Found::Goal { length }) => {
                let count = self.good.shape.inputs;
                let sequence = Sequence {
                    pins: Pins { count },
                    letters: &letters[..length],
                };
                Outcome::Differ(sequence).answer(report)
            }
            Ok(Found::Exhausted { count }) => {
                let listing = Listing {
                    good: self.good.names,
                    faulty: self.faulty.names,
                    visits: &visits[..count],
                };
                Outcome::Equivalent(listing).answer(report)
            }
            // Only work slices can be too short: there are letters for each pair of states.
            Err(error) => refuse(report, Refusal::from(error).into()),
        }
    }

    // Reports on them: they are compared where they have the same widths.
    pub(crate) fn report(
        &self,
        visits: &mut [Visit<Pair>],
        marks: &mut [u32],
        report: &mut [u8],
    ) -> Result<usize, Refusal>
        ensures { Reported (BothHeld self.now (length visits.old) (length marks.old)) report.old result report.new }
    {
        if !self.same_widths() {
            return refuse(report, Refusal::WidthsDiffer.into());
        }
        self.compare(visits, marks, report)
    }
}
