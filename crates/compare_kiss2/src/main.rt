// Compares two state tables: reads good.kiss and faulty.kiss of the folder it is run in, and prints the report.
#![tactic(auto)]

use anyhow::bail;
use devices::Cell;
use kiss2::Part;
use machine::MOST_STATES;
use report::report;
use search::Visit;
use std::fs;
use std::io::Write;
use std::rt::Files;

// How many cells each table may have. It is a rule of the project, and so are the numbers of positions and of bytes.
const CELLS: usize = 1024;

// How many states each table may have names for.
const NAMES: usize = MOST_STATES as usize;

// How many pairs of states the comparison may have.
const POSITIONS: usize = 1024;

// How many bytes the report may have.
const BYTES: usize = 40000;

// The bytes of a file. One that cannot be read counts as empty, as the project's rules have it: the report then says what is wrong with an empty text.
fn text_of(rt: &(impl Files + AllocGlobal), path: &str) -> Vec<u8> {
    fs::read(rt, path).unwrap_or_else(|_| Vec::new(rt.alloc()))
}

fn main(rt: HostRuntime) -> anyhow::Result<()> {
    let good = text_of(&rt, "good.kiss");
    let faulty = text_of(&rt, "faulty.kiss");
    let mut good_cells = [Cell::default(); CELLS];
    let mut good_names = [Part::default(); NAMES];
    let mut faulty_cells = good_cells;
    let mut faulty_names = good_names;
    let mut visits = [Visit::default(); POSITIONS];
    let mut marks = [0; POSITIONS];
    let mut bytes = [0; BYTES];
    // A report that does not fit is the one refusal that is left to a caller: the report tells all others.
    let Ok(length) = report(
        &good,
        &faulty,
        &mut good_cells,
        &mut good_names,
        &mut faulty_cells,
        &mut faulty_names,
        &mut visits,
        &mut marks,
        &mut bytes,
    ) else {
        bail!("the report does not fit");
    };
    rt.stdout().write_all(&bytes[..length])?;
    Ok(())
}
