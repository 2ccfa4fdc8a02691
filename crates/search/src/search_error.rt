use machine::Refusal;
use std::error::Error;
use std::fmt;

// Why a search gave no answer.
#[derive(Clone, Copy, PartialEq, Eq, Hash, Debug)]
pub enum SearchError {
    // A work slice has fewer entries than the walk has positions.
    WorkTooShort,
    // The least sequence that meets the goal does not fit the answer slice, which is as it was.
    AnswerTooShort,
}

impl fmt::Display for SearchError {
    ghost use Rattle.std.specs.Prelude.{Some};
    ghost use Rattle.search.specs.Errors.{error_text};

    ghost output = { λ error. Some (error_text error) };

    fn fmt<W: fmt::Write>(&self, f: &mut fmt::Formatter<W>) -> fmt::Result {
        match self {
            SearchError::WorkTooShort => f.write_str("a work slice is too short"),
            SearchError::AnswerTooShort => f.write_str("the answer slice is too short"),
        }
    }
}

impl Error for SearchError {}

impl From<SearchError> for Refusal {
    ghost use Rattle.std.specs.Prelude.{◌≡◌};
    ghost use Rattle.search.specs.Errors.{refusal_of};

    ghost from_gives = { λ error refusal. refusal ≡ refusal_of error };

    fn from(error: SearchError) -> Refusal {
        match error {
            SearchError::WorkTooShort => Refusal::WorkTooShort,
            SearchError::AnswerTooShort => Refusal::AnswerTooShort,
        }
    }
}
