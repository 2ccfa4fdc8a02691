ghost use Rattle.std.specs.Prelude.{◌≡◌, ℕ, ◌+◌, ◌<◌, ◌≤◌, [], ◌∷◌, ◌++◌, length, IfOk};
ghost use Rattle.search.specs.Answers.{Written};
ghost use Rattle.search.specs.Visits.{path, Chained};

use super::back_links::BackLinks;
use super::search_error::SearchError;
use super::visit::Visit;

// Writes the letters that lead to the visit and then one more, from the last to the first.
fn write_back<P: Copy>(links: BackLinks<P>, last: u8, out: &mut [u8])
    requires { length out.old ≡ length (path links.visits.now links.at) + 1 }
    ensures { out.new ≡ path links.entry.visits.now links.entry.at ++ last ∷ [] }
{
    let end = out.len() - 1;
    out[end] = last;
    // Not `out[..end].iter_mut().rev().zip(links)`: behind adapters of `iter_mut` nothing is known of the elements.
    for (place, letter) in (0..end).rev().zip(links) {
        out[place] = letter;
    }
}

// Writes the letters that lead to the visit and then one more into the first entries of the answer, where they fit: how many there are.
pub(crate) fn write_path<P: Copy>(
    visits: &[Visit<P>],
    at: usize,
    last: u8,
    answer: &mut [u8],
) -> Result<usize, SearchError>
    requires inside { at < length visits.now }
    requires chained { Chained visits.now (at + 1) }
    ensures written { Written (path visits.now at ++ last ∷ []) answer.old result answer.new }
    ensures few { IfOk result (λ n. n ≤ at + 1) }
{
    let length = BackLinks { visits, at }.count() + 1;
    if answer.len() < length {
        return Err(SearchError::AnswerTooShort);
    }
    let links = BackLinks { visits, at };
    write_back(links, last, &mut answer[0..length]);
    Ok(length)
}
