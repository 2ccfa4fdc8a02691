ghost use Rattle.std.specs.Prelude.{map};
ghost use Rattle.report.specs.Names.{named, pair_names, visit_names};
ghost use Rattle.report.specs.Outcomes.{equivalent, pair_line, rendering};
ghost use Rattle.report.specs.Writing.{Adds};

use crate::names::Names;
use crate::writing::Writer;
use machine::Pair;
use search::Visit;

// The visits of the reachable pairs, with the names of the states of both tables.
#[derive(Clone, Copy)]
pub(crate) struct Listing<'a> {
    pub(crate) good: Names<'a>,
    pub(crate) faulty: Names<'a>,
    pub(crate) visits: &'a [Visit<Pair>],
}

// Writes a line with two names.
fn write_names(out: &mut Writer, first: &[u8], second: &[u8])
    ensures { Adds (pair_line (first.now, second.now)) out.old out.new }
{
    out.push_all(first);
    out.push(b' ');
    out.push_all(second);
    out.push(b'\n');
}

impl Listing<'_> {
    // Writes a line with the names of a pair.
    fn write_pair(&self, out: &mut Writer, pair: Pair)
        ensures { Adds (pair_line (pair_names (named self.now.good) (named self.now.faulty) pair)) out.old out.new }
    {
        let first = self.good.of(pair.first);
        let second = self.faulty.of(pair.second);
        write_names(out, first, second);
    }

    // Writes how many pairs there are, and a line for each.
    pub(crate) fn write(&self, out: &mut Writer)
        ensures { Adds (rendering (equivalent (map (visit_names self.now.good self.now.faulty) self.now.visits.now))) out.old out.new }
    {
        out.push_count(b"equivalent ", self.visits.len());
        for visit in self.visits {
            self.write_pair(out, visit.position);
        }
    }
}
