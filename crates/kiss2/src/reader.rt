ghost use Rattle.std.specs.Prelude.{◌≡◌, ◌≤◌, false, length, replicate};
ghost use Rattle.kiss2.specs.Concluding.{shape_held};
ghost use Rattle.kiss2.specs.Lines.{LineStands, RowStands, line_of, line_said};
ghost use Rattle.kiss2.specs.Progressing.{LinesRead, nothing_read};
ghost use Rattle.kiss2.specs.Readers.{Reads, SameLoans, Steps, filled, progress};
ghost use Rattle.kiss2.specs.Readings.{miscounted, take_line, take_row, take_said};
ghost use Rattle.kiss2.specs.Texts.{part_of, words_left};
ghost use Rattle.std.specs.Option.{unwrap_or};

use crate::digits::output_word;
use crate::filling::Filling;
use crate::heading::Heading;
use crate::line::{Line, Row, parse_line};
use crate::lines::Lines;
use crate::names::Names;
use crate::refused::Refused;
use crate::scanning::Words;
use crate::shape::Shape;
use devices::Cell;
use machine::Refusal;

// Whether a count is stated that is not the one found.
fn miscounted(stated: Option<u32>, found: usize) -> bool
    ensures { result ≡ miscounted stated found }
{
    stated.is_some_and(|count| count as usize != found)
}

// A reader of lines: what the directives have said so far, and how many rows there are. The states and the cells go into the names and the table.
// These are handed to each call: of a slice that a struct inside another struct borrows, only the length is known once the loan ends.
// In one flat struct each step on the names would have to say that the cells stay, and each on the cells that the names do.
#[derive(Clone, Copy, Debug, Default)]
pub(crate) struct Reader {
    pub(crate) heading: Heading,
    pub(crate) rows: usize,
}

impl Reader {
    // Takes a row at a line: its states get their numbers, and its cells are given.
    fn take_row(
        &mut self,
        names: &mut Names,
        table: &mut Filling,
        line: usize,
        row: Row,
    ) -> Result<(), Refusal>
        requires stands { RowStands names.old.text.now row }
        requires unended { self.old.heading.ended ≡ false }
        requires reads { Reads self.old names.old table.old }
        ensures { Steps (λ s. take_row names.old.text.now line s (part_of row.entry.input) (part_of row.entry.current) (part_of row.entry.next) (part_of row.entry.output)) self.old names.old table.old result self.new names.new table.new }
    {
        self.heading.check(row)?;
        let (first, second) = row.states();
        let (current, next) = names.number_both(first, second)?;
        let cell = Cell {
            next,
            output: output_word(row.output.bytes),
        };
        table.give_row(line, row.input.bytes, current, cell);
        self.rows += 1;
        Ok(())
    }

    // Takes what a line says. Only blank lines follow the end.
    fn take_line(
        &mut self,
        names: &mut Names,
        table: &mut Filling,
        line: usize,
        said: Line,
    ) -> Result<(), Refusal>
        requires stands { LineStands names.old.text.now said }
        requires reads { Reads self.old names.old table.old }
        ensures { Steps (λ s. take_line names.old.text.now line s (line_said said.entry)) self.old names.old table.old result self.new names.new table.new }
    {
        match said {
            Line::Blank => Ok(()),
            Line::Directive { key, value } => {
                self.heading = self.heading.take(self.rows > 0, key, value)?;
                Ok(())
            }
            Line::End => {
                self.heading = self.heading.close()?;
                Ok(())
            }
            Line::Row(row) => {
                if self.heading.ended {
                    return Err(Refusal::BadLine);
                }
                self.take_row(names, table, line, row)
            }
        }
    }

    // Reads a line by its words and takes what it says.
    fn read_line(
        &mut self,
        names: &mut Names,
        table: &mut Filling,
        words: Words,
        line: usize,
    ) -> Result<(), Refusal>
        requires text { words.text.now ≡ names.old.text.now }
        requires reads { Reads self.old names.old table.old }
        ensures { Steps (λ s. take_said names.old.text.now line s (line_of names.old.text.now (words_left names.old.text.now words.entry.at words.entry.end))) self.old names.old table.old result self.new names.new table.new }
    {
        let said = parse_line(words)?;
        self.take_line(names, table, line, said)
    }

    // Reads the lines one after another, counted from 1, up to the first that is refused.
    // By an iterator of its own, since words have places in the text, and the pieces of a split do not say where they stand.
    #[tactic(auto, using(crate::proofs::LineByLine::starts))]
    pub(crate) fn read_lines(
        &mut self,
        names: &mut Names,
        table: &mut Filling,
    ) -> Result<(), Refused>
        requires nothing { progress self.old names.old table.old ≡ nothing_read }
        requires ungiven { table.old.given ≡ replicate 16384 false }
        ensures read { LinesRead names.old.text.now table.old.cells.now names.old.entries.now result (progress self.new names.new table.new) names.new.entries.now (filled table.new) }
        ensures lent { SameLoans names.old table.old names.new table.new }
    {
        for (line, words) in (1..).zip(Lines::of(names.text)) {
            self.read_line(names, table, words, line)
                .map_err(|refusal| Refused { refusal, line })?;
        }
        Ok(())
    }

    // The shape of the table once all lines are read.
    pub(crate) fn conclude(&self, names: &Names, table: &Filling) -> Result<Shape, Refused>
        requires width { unwrap_or self.now.heading.inputs 0 ≤ 6 }
        ensures { result ≡ shape_held names.now.text.now (progress self.now names.now table.now) names.now.entries.now (length table.now.cells.now) table.now.given }
    {
        let heading = self.heading;
        let states = names.count;
        if miscounted(heading.rows, self.rows) || miscounted(heading.states, usize::from(states)) {
            return Err(Refusal::CountMismatch.into());
        }
        let reset = names
            .reset_state(heading.reset)
            .ok_or(Refusal::CountMismatch)?;
        // Without widths there are no rows: the text is refused below, behind what comes first in the order of refusals.
        let shape = Shape {
            inputs: heading.inputs.unwrap_or(0),
            outputs: heading.outputs.unwrap_or(0),
            rows: self.rows,
            states,
            reset,
        };
        let cells = shape.cell_count();
        if table.cells.len() < cells {
            return Err(Refusal::WorkTooShort.into());
        }
        if let Some(line) = table.clash {
            return Err(Refused {
                refusal: Refusal::RowsDisagree,
                line,
            });
        }
        if self.rows == 0 || !table.all_given(cells) {
            return Err(Refusal::CellNotGiven.into());
        }
        Ok(shape)
    }
}
