ghost use Rattle.std.specs.Prelude.{length};
ghost use Rattle.report.specs.Reports.{Concludes, Reported};

use crate::outcome::refuse;
use crate::rejection::Rejection;
use crate::source::Source;
use crate::tables::Tables;
use devices::Cell;
use kiss2::{Part, Side};
use machine::{Pair, Refusal};
use search::Visit;

// Reads two state tables, compares them and writes the report into the first bytes of `report`: how many there are. A report that does not fit is refused, and the slice is as it was.
// It tells a refusal, with the text and the line at fault; or the least sequence of letters that distinguishes the tables; or that there is none, with the names of every reachable pair of states.
// What the other slices hold does not matter and is lost. Each is a parameter, as the work slices at `search::shortest`: a struct would have the contract say that the caller's slices are still inside.
pub fn report<'a>(
    good: &'a [u8],
    faulty: &'a [u8],
    good_cells: &'a mut [Cell],
    good_names: &'a mut [Part],
    faulty_cells: &'a mut [Cell],
    faulty_names: &'a mut [Part],
    visits: &mut [Visit<Pair>],
    marks: &mut [u32],
    report: &mut [u8],
) -> Result<usize, Refusal>
    ensures { Reported (Concludes good.now faulty.now (length good_cells.old) (length good_names.old) (length faulty_cells.old) (length faulty_names.old) (length visits.old) (length marks.old)) report.old result report.new }
{
    // Two matches: a function of both, with `?`, would be handed the six slices once more.
    let good = match Source::read(good, good_cells, good_names) {
        Ok(source) => source,
        Err(error) => {
            let side = Some(Side::Good);
            return refuse(report, Rejection { error, side });
        }
    };
    let faulty = match Source::read(faulty, faulty_cells, faulty_names) {
        Ok(source) => source,
        Err(error) => {
            let side = Some(Side::Faulty);
            return refuse(report, Rejection { error, side });
        }
    };
    let tables = Tables { good, faulty };
    tables.report(visits, marks, report)
}
