ghost use Rattle.std.specs.Prelude.{◌≡◌};
ghost use Rattle.report.specs.Names.{named};

use kiss2::Part;

// The names of a table's states, as parts of its text.
// A name is cut here as far as its text reaches, where `kiss2::name` refuses one that does not lie in its text: one view would be two functions still.
#[derive(Clone, Copy)]
pub(crate) struct Names<'a> {
    pub(crate) text: &'a [u8],
    pub(crate) entries: &'a [Part],
}

impl<'a> Names<'a> {
    // The name of a state; empty where there is no such state, so that nothing asks that there is one.
    pub(crate) fn of(self, state: u16) -> &'a [u8]
        ensures { result.now ≡ named self.entry state }
    {
        let entry = self.entries.get(usize::from(state));
        entry.copied().unwrap_or_default().bytes_in(self.text)
    }
}
