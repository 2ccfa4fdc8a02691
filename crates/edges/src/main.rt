// The edges of each call on a small controller: sizes that just do, sizes one short, numbers out of range, and work slices full of anything.
#![tactic(auto)]

use compare::{Flaw, check, compare, reach, replay};
use devices::{AlteredCell, Cell, Table};
use machine::{Device, Pair};
use search::Visit;
use std::io;
use worked::{CELLS, Spaced, controller};

// A comparison: two members, the four slices' lengths, and what the work slices are filled with.
#[derive(Clone, Copy)]
struct Comparison {
    first: u16,
    second: u16,
    visits: usize,
    marks: usize,
    letters: usize,
    pairs: usize,
    filling: u8,
}

// Two members that differ: sizes that just do.
const DIFFERENT: Comparison = Comparison {
    first: 0,
    second: 1,
    visits: 16,
    marks: 16,
    letters: 5,
    pairs: 0,
    filling: 0,
};

// The same with room left.
const ROOMY: Comparison = Comparison {
    visits: 20,
    marks: 20,
    letters: 8,
    pairs: 2,
    ..DIFFERENT
};

// Two members that are equivalent: sizes that just do.
const EQUIVALENT: Comparison = Comparison {
    second: 2,
    letters: 0,
    pairs: 4,
    ..DIFFERENT
};

const COMPARISONS: [Comparison; 14] = [
    DIFFERENT,
    Comparison {
        visits: 15,
        ..DIFFERENT
    },
    Comparison {
        marks: 15,
        ..DIFFERENT
    },
    ROOMY,
    Comparison {
        filling: 3,
        ..ROOMY
    },
    Comparison {
        filling: 255,
        ..ROOMY
    },
    Comparison {
        letters: 4,
        pairs: 9,
        ..DIFFERENT
    },
    EQUIVALENT,
    Comparison {
        letters: 2,
        pairs: 6,
        filling: 1,
        ..EQUIVALENT
    },
    Comparison {
        letters: 2,
        pairs: 6,
        filling: 200,
        ..EQUIVALENT
    },
    Comparison {
        letters: 9,
        pairs: 3,
        ..EQUIVALENT
    },
    Comparison {
        first: 3,
        second: 3,
        ..EQUIVALENT
    },
    Comparison {
        first: 4,
        second: 0,
        visits: 0,
        marks: 0,
        letters: 0,
        ..DIFFERENT
    },
    Comparison {
        second: 4,
        letters: 9,
        pairs: 9,
        ..DIFFERENT
    },
];

// A table to take in: its counts, how many cells are handed over, and how many altered cells, all with this content.
#[derive(Clone, Copy)]
struct Intake {
    pins: u8,
    states: u16,
    reset: u16,
    cells: usize,
    altered: usize,
    content: AlteredCell,
}

// The controller's counts, with altered cells in range.
const GOOD: Intake = Intake {
    pins: 1,
    states: 4,
    reset: 0,
    cells: 8,
    altered: 3,
    content: AlteredCell {
        state: 3,
        letter: 1,
        next: 3,
        output: 7,
    },
};

// An altered cell that is in range in each table.
const FIRST: AlteredCell = AlteredCell {
    state: 0,
    letter: 0,
    next: 0,
    output: 0,
};

// An altered cell that leads past the controller's states.
const PAST: AlteredCell = AlteredCell { next: 4, ..FIRST };

const INTAKES: [Intake; 17] = [
    GOOD,
    Intake {
        reset: 3,
        altered: 0,
        ..GOOD
    },
    Intake { pins: 0, ..GOOD },
    Intake { pins: 7, ..GOOD },
    Intake { states: 0, ..GOOD },
    Intake {
        states: 257,
        cells: 0,
        ..GOOD
    },
    Intake {
        reset: 4,
        cells: 0,
        ..GOOD
    },
    Intake {
        pins: 6,
        states: 256,
        reset: 255,
        ..GOOD
    },
    Intake { cells: 7, ..GOOD },
    Intake {
        states: 3,
        cells: 6,
        ..GOOD
    },
    Intake {
        pins: 2,
        states: 2,
        reset: 1,
        cells: 4,
        ..GOOD
    },
    Intake {
        altered: 1024,
        ..GOOD
    },
    Intake {
        altered: 1025,
        ..GOOD
    },
    Intake {
        altered: 1,
        content: AlteredCell { state: 4, ..FIRST },
        ..GOOD
    },
    Intake {
        altered: 1,
        content: AlteredCell { letter: 2, ..FIRST },
        ..GOOD
    },
    Intake {
        altered: 1,
        content: PAST,
        ..GOOD
    },
    Intake {
        states: 3,
        altered: 1,
        content: PAST,
        ..GOOD
    },
];

// A state to be reached: the member, the state, and the slices' lengths.
#[derive(Clone, Copy)]
struct Reaching {
    member: u16,
    wanted: u16,
    visits: usize,
    marks: usize,
    letters: usize,
}

// The state that is farthest from reset: sizes that just do.
const FARTHEST: Reaching = Reaching {
    member: 0,
    wanted: 3,
    visits: 4,
    marks: 4,
    letters: 3,
};

// The reset state: sizes that just do.
const RESET: Reaching = Reaching {
    wanted: 0,
    letters: 0,
    ..FARTHEST
};

// A state out of range, with no work memory at all.
const NO_STATE: Reaching = Reaching {
    member: 0,
    wanted: 4,
    visits: 0,
    marks: 0,
    letters: 0,
};

const REACHINGS: [Reaching; 10] = [
    FARTHEST,
    Reaching {
        letters: 2,
        ..FARTHEST
    },
    Reaching {
        visits: 3,
        ..FARTHEST
    },
    Reaching {
        marks: 3,
        ..FARTHEST
    },
    RESET,
    Reaching { visits: 3, ..RESET },
    NO_STATE,
    Reaching {
        member: 4,
        ..NO_STATE
    },
    Reaching {
        member: 1,
        wanted: 2,
        visits: 6,
        marks: 6,
        letters: 6,
    },
    Reaching {
        member: 3,
        wanted: 1,
        letters: 1,
        ..FARTHEST
    },
];

// A table, and where the answers of its calls are printed.
#[derive(Drop)]
struct Session<'r, 't, R> {
    rt: &'r R,
    table: Table<'t>,
}

impl<R: Print> Session<'_, '_, R> {
    // Compares over slices of the case's lengths, and prints the answer and what the answer slices then hold.
    // Arrays are cut to these lengths, here and below: with vectors the program would have a heap to run out of.
    fn try_comparison(&self, case: Comparison) -> io::Result<()> {
        let state = u16::from(case.filling);
        let visit = Visit {
            position: pair(state, state),
            from: u32::from(case.filling),
            letter: case.filling,
        };
        let mut visits = [visit; 20];
        let mut marks = [u32::from(case.filling); 20];
        let mut letters = [9; 10];
        let mut pairs = [pair(9, 9); 10];
        let letters = &mut letters[..case.letters.min(10)];
        let pairs = &mut pairs[..case.pairs.min(10)];
        print!(self.rt;
            "{} with {}, {} visits, {} marks, filling {}: ",
            case.first, case.second, case.visits, case.marks, case.filling
        )?;
        match compare(
            &self.table,
            case.first,
            case.second,
            &mut visits[..case.visits.min(20)],
            &mut marks[..case.marks.min(20)],
            letters,
            pairs,
        ) {
            Ok(verdict) => print!(self.rt; "{verdict}")?,
            Err(refusal) => print!(self.rt; "{refusal}")?,
        }
        println!(self.rt; "; letters{}; pairs{}", Spaced(letters), Spaced(pairs))
    }

    fn try_replay(&self, first: u16, second: u16, sequence: &[u8]) -> io::Result<()> {
        print!(self.rt; "replay on {first} and {second}:")?;
        if sequence.len() < 10 {
            print!(self.rt; "{}", Spaced(sequence))?;
        }
        print!(self.rt; " ({} letters): ", sequence.len())?;
        match replay(&self.table, first, second, sequence) {
            Ok(Some(place)) => println!(self.rt; "place {place}"),
            Ok(None) => println!(self.rt; "none"),
            Err(refusal) => println!(self.rt; "{refusal}"),
        }
    }

    // Sequences on the controller: with no difference, with one at the end, empty, too long, and letters out of range.
    fn try_replays(&self) -> io::Result<()> {
        self.try_replay(0, 1, &[0, 1, 0, 1])?;
        self.try_replay(0, 1, &[0, 1, 0, 1, 1])?;
        self.try_replay(1, 0, &[0, 1, 0, 1, 1, 0, 0])?;
        self.try_replay(0, 3, &[1])?;
        self.try_replay(0, 1, &[])?;
        self.try_replay(0, 1, &[0, 1, 2])?;
        self.try_replay(0, 4, &[0, 9])?;
        let long = [0; 16385];
        self.try_replay(0, 1, &long[..16384])?;
        self.try_replay(0, 1, &long)
    }

    // Reaches a state over slices of the case's lengths, and prints the answer and what the answer slice then holds.
    fn try_reach(&self, case: Reaching) -> io::Result<()> {
        let visit = Visit {
            position: 7,
            from: 7,
            letter: 7,
        };
        let mut visits = [visit; 8];
        let mut marks = [7; 8];
        let mut letters = [9; 8];
        let letters = &mut letters[..case.letters.min(8)];
        print!(self.rt;
            "reach {} of {}, {} visits, {} marks: ",
            case.wanted, case.member, case.visits, case.marks
        )?;
        match reach(
            &self.table,
            case.member,
            case.wanted,
            &mut visits[..case.visits.min(8)],
            &mut marks[..case.marks.min(8)],
            letters,
        ) {
            Ok(Some(length)) => print!(self.rt; "by {length}")?,
            Ok(None) => print!(self.rt; "unreachable")?,
            Err(refusal) => print!(self.rt; "{refusal}")?,
        }
        println!(self.rt; "; letters{}", Spaced(letters))
    }

    // The words are this program's own: the one that prints the controller puts `at place` for `, place`, and outputs are stored.
    fn try_check(&self, first: u16, second: u16, pairs: &[Pair]) -> io::Result<()> {
        print!(self.rt; "check for {first} and {second}{}: ", Spaced(pairs))?;
        match check(&self.table, first, second, pairs) {
            Ok(None) => println!(self.rt; "closed"),
            Ok(Some(Flaw::NoResetPair)) => println!(self.rt; "no reset pair"),
            Ok(Some(Flaw::OutputsDiffer { place, letter })) => println!(self.rt;
                "outputs differ, place {place}, letter {letter}"
            ),
            Ok(Some(Flaw::SuccessorMissing { place, letter })) => println!(self.rt;
                "successor missing, place {place}, letter {letter}"
            ),
            Err(refusal) => println!(self.rt; "{refusal}"),
        }
    }

    // Lists of pairs: whole, in another order, with a pair twice, without the last, without the first, empty, with unequal outputs, out of range.
    fn try_checks(&self) -> io::Result<()> {
        let [a, b, c, d] = [0, 1, 2, 3].map(|state| pair(state, state));
        let off = pair(0, 2);
        let past = pair(0, 4);
        self.try_check(0, 2, &[a, b, c, d])?;
        self.try_check(0, 2, &[d, c, b, b, a])?;
        self.try_check(0, 2, &[a, b, c])?;
        self.try_check(0, 2, &[b, c, d])?;
        self.try_check(0, 2, &[])?;
        self.try_check(0, 2, &[off, a, b, c, d])?;
        self.try_check(0, 3, &[a, b, c, d])?;
        self.try_check(0, 3, &[a])?;
        self.try_check(0, 2, &[a, past])?;
        self.try_check(0, 4, &[past])
    }
}

fn pair(first: u16, second: u16) -> Pair {
    Pair { first, second }
}

// Takes a table in over the idle device, and tells what then stands by its counts.
fn try_intake(rt: &impl Print, case: Intake) -> io::Result<()> {
    let cells = &CELLS[..case.cells.min(8)];
    let altered = [case.content; 1025];
    let altered = &altered[..case.altered.min(1025)];
    let mut table = Table::idle();
    print!(rt;
        "{} pins, {} states, reset {}, {} cells, {} altered: ",
        case.pins,
        case.states,
        case.reset,
        cells.len(),
        altered.len()
    )?;
    match table.take_in(case.pins, case.states, case.reset, cells, altered) {
        Ok(()) => print!(rt; "taken in")?,
        Err(refusal) => print!(rt; "{refusal}")?,
    }
    println!(rt;
        "; members {}, letters {}, states {}",
        table.members(),
        table.letters(),
        table.states()
    )
}

// One state and 64 letters: the last letter does, the next does not.
fn try_last_letter(rt: &impl Print) -> io::Result<()> {
    let cells = [Cell { next: 0, output: 5 }; 64];
    let altered = [AlteredCell {
        letter: 63,
        output: 6,
        ..FIRST
    }];
    match Table::new(6, 1, 0, &cells, &altered) {
        Ok(table) => {
            let session = Session { rt, table };
            session.try_replay(0, 1, &[62, 63])?;
            session.try_replay(0, 1, &[62, 64])
        }
        Err(refusal) => println!(rt; "{refusal}"),
    }
}

// A state that no letter leads to.
fn try_unreachable(rt: &impl Print) -> io::Result<()> {
    let cells = [Cell { next: 0, output: 0 }; 4];
    match Table::new(1, 2, 0, &cells, &[]) {
        Ok(table) => Session { rt, table }.try_reach(Reaching {
            member: 0,
            wanted: 1,
            visits: 2,
            marks: 2,
            letters: 2,
        }),
        Err(refusal) => println!(rt; "{refusal}"),
    }
}

fn main(rt: HostRuntime) -> io::Result<()> {
    for case in INTAKES {
        try_intake(&rt, case)?;
    }
    let session = Session {
        rt: &rt,
        table: controller(),
    };
    for case in COMPARISONS {
        session.try_comparison(case)?;
    }
    session.try_replays()?;
    try_last_letter(&rt)?;
    for case in REACHINGS {
        session.try_reach(case)?;
    }
    try_unreachable(&rt)?;
    session.try_checks()
}
