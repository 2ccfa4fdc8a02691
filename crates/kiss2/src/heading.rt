ghost use Rattle.std.specs.Prelude.{◌≡◌, if◌then◌else◌, Some, None, Ok, Err, OnOk, IfErr};
ghost use Rattle.kiss2.specs.Headings.{stated, take_directive, with_directive, with_end};
ghost use Rattle.kiss2.specs.Rows.{row_refusal};
ghost use Rattle.kiss2.specs.Texts.{FitsPart, part_of};

use crate::digits::has_width;
use crate::directives::{count_of, reset_name, short_name};
use crate::line::{Key, Row};
use crate::part::{Part, Word};
use machine::{MOST_OUTPUTS, MOST_PINS, Refusal};

// The largest count that five digits write.
const LARGEST_COUNT: u32 = 99999;

// What the directives have said so far. A flag tells the end, and no enum the stage: that rows have begun is told by their count, which is kept anyway.
// The widths are bytes and no `machine::Pins`: they go into a `Shape`, which is public and asks nothing of its bytes.
#[derive(Clone, Copy, PartialEq, Eq, Debug, Default)]
pub(crate) struct Heading {
    pub(crate) inputs: Option<u8>,
    pub(crate) outputs: Option<u8>,
    pub(crate) rows: Option<u32>,
    pub(crate) states: Option<u32>,
    pub(crate) reset: Option<Part>,
    pub(crate) ended: bool,
}

impl Heading {
    // Whether the directive has been given.
    fn has(&self, key: Key) -> bool
        ensures { result ≡ stated self.now key }
    {
        match key {
            Key::Inputs => self.inputs.is_some(),
            Key::Outputs => self.outputs.is_some(),
            Key::Rows => self.rows.is_some(),
            Key::States => self.states.is_some(),
            Key::Reset => self.reset.is_some(),
        }
    }

    // The heading with the directive.
    fn with(self, key: Key, value: Word) -> Result<Heading, Refusal>
        requires { FitsPart value }
        ensures { result ≡ with_directive self key (part_of value.entry) value.entry.bytes.now }
    {
        let mut heading = self;
        match key {
            Key::Inputs => heading.inputs = Some(
                count_of(value.bytes, 1, u32::from(MOST_PINS))? as u8,
            ),
            Key::Outputs => heading.outputs = Some(
                count_of(value.bytes, 1, u32::from(MOST_OUTPUTS))? as u8,
            ),
            Key::Rows => heading.rows = Some(count_of(value.bytes, 0, LARGEST_COUNT)?),
            Key::States => heading.states = Some(count_of(value.bytes, 0, LARGEST_COUNT)?),
            Key::Reset => heading.reset = Some(reset_name(value)?),
        }
        Ok(heading)
    }

    // The heading with a directive that comes before the first row and the end and once, or a refusal.
    pub(crate) fn take(self, started: bool, key: Key, value: Word) -> Result<Heading, Refusal>
        requires { FitsPart value }
        ensures { result ≡ (if self.ended then Err Refusal.BadLine else take_directive started self key (part_of value.entry) value.entry.bytes.now) }
    {
        if self.ended || started || self.has(key) {
            return Err(Refusal::BadLine);
        }
        self.with(key, value)
    }

    // The heading behind the end, which comes once.
    pub(crate) fn close(self) -> Result<Heading, Refusal>
        ensures { result ≡ (if self.ended then Err Refusal.BadLine else Ok (with_end self)) }
    {
        if self.ended {
            return Err(Refusal::BadLine);
        }
        Ok(Heading {
            ended: true,
            ..self
        })
    }

    // Refuses a row that breaks a rule by itself.
    pub(crate) fn check(&self, row: Row) -> Result<(), Refusal>
        ensures fits { OnOk result (row_refusal self.now row.entry.input.bytes.now row.entry.current.bytes.now row.entry.next.bytes.now row.entry.output.bytes.now ≡ None) }
        ensures refused { IfErr result (λ r. row_refusal self.now row.entry.input.bytes.now row.entry.current.bytes.now row.entry.next.bytes.now row.entry.output.bytes.now ≡ Some r) }
    {
        let (Some(inputs), Some(outputs)) = (self.inputs, self.outputs) else {
            return Err(Refusal::RowBeforeWidths);
        };
        if !has_width(row.input.bytes, inputs) || !has_width(row.output.bytes, outputs) {
            return Err(Refusal::BadDigits);
        }
        if !short_name(row.current.bytes) || !short_name(row.next.bytes) {
            return Err(Refusal::BadName);
        }
        Ok(())
    }
}
