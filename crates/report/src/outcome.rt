ghost use Rattle.std.specs.Prelude.{◌≡◌};
ghost use Rattle.report.specs.Outcomes.{rendering};
ghost use Rattle.report.specs.Reports.{Answered};
ghost use Rattle.report.specs.Told.{rejected, told};
ghost use Rattle.report.specs.Writing.{Adds, Rendered};

use crate::listing::Listing;
use crate::rejection::Rejection;
use crate::sequence::Sequence;
use crate::writing::Writer;
use machine::Refusal;

// What a report tells.
#[derive(Clone, Copy)]
pub(crate) enum Outcome<'a> {
    // A refusal of one text, or of both.
    Refused(Rejection),
    // The least sequence that distinguishes the tables.
    Differ(Sequence<'a>),
    // None does: the reachable pairs.
    Equivalent(Listing<'a>),
}

impl Outcome<'_> {
    // Writes the report. It is no `Display`: a listing holds names as bytes, which need not be UTF-8, and `write!` takes text only.
    fn write(&self, out: &mut Writer)
        ensures { Adds (rendering (told self.now)) out.old out.new }
    {
        match self {
            Outcome::Refused(rejection) => rejection.write(out),
            Outcome::Differ(sequence) => sequence.write(out),
            Outcome::Equivalent(listing) => listing.write(out),
        }
    }

    // Writes the report into the first bytes of the slice, as far as it reaches: how many bytes it has.
    fn write_into(&self, report: &mut [u8]) -> usize
        ensures { Rendered (rendering (told self.now)) report.old report.new result }
    {
        let mut out = Writer::new(report);
        self.write(&mut out);
        out.count
    }

    // Writes the report into the first bytes of the slice, where it fits: how many there are. They are counted first, by writing into an empty slice.
    pub(crate) fn answer(&self, report: &mut [u8]) -> Result<usize, Refusal>
        ensures { Answered (rendering (told self.now)) report.old result report.new }
    {
        let length = self.write_into(&mut []);
        if report.len() < length {
            return Err(Refusal::AnswerTooShort);
        }
        Ok(self.write_into(report))
    }
}

// Reports a refusal of one text, or of both.
pub(crate) fn refuse(report: &mut [u8], rejection: Rejection) -> Result<usize, Refusal>
    ensures { Answered (rendering (rejected rejection)) report.old result report.new }
{
    Outcome::Refused(rejection).answer(report)
}
