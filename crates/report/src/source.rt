ghost use Rattle.std.specs.Prelude.{◌≡◌, Ok, Err, IfErr, IfOk, length};
ghost use Rattle.kiss2.specs.Laws.{InRange};
ghost use Rattle.kiss2.specs.Readings.{reading};
ghost use Rattle.devices.specs.Tables.{machine_of};
ghost use Rattle.report.specs.Reports.{text_machine};

use crate::names::Names;
use devices::{Cell, Table};
use kiss2::{Part, Refused, Shape, read};

// A state table that was read from a text.
#[derive(Clone, Copy)]
pub(crate) struct Source<'a> {
    pub(crate) names: Names<'a>,
    pub(crate) shape: Shape,
    pub(crate) cells: &'a [Cell],
    ghost in_range: { InRange names.text.now (record { shape = shape; names = names.entries.now; cells = cells.now }) },
}

impl<'a> Source<'a> {
    ghost use Rattle.report.specs.Sources.{held};

    // Reads a text. The table stands in the first entries of the slices.
    pub(crate) fn read(
        text: &'a [u8],
        cells: &'a mut [Cell],
        names: &'a mut [Part],
    ) -> Result<Source<'a>, Refused>
        ensures text { IfOk result (λ s. s.names.text.now ≡ text.now) }
        ensures held { IfOk result (λ s. reading text.now (length names.old) (length cells.old) ≡ Ok (held s)) }
        ensures refused { IfErr result (λ e. reading text.now (length names.old) (length cells.old) ≡ Err e) }
    {
        let shape = read(text, cells, names)?;
        let entries = &names[..usize::from(shape.states)];
        let cells = &cells[..shape.cell_count()];
        Ok(Source {
            names: Names { text, entries },
            shape,
            cells,
        })
    }

    // The table as a device.
    pub(crate) fn table(self) -> Table<'a>
        ensures { machine_of result ≡ text_machine (held self.entry) }
    {
        let shape = self.shape;
        Table::new(shape.inputs, shape.states, shape.reset, self.cells, &[]).unwrap()
    }
}
