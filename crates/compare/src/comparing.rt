ghost use Rattle.std.specs.Prelude.{◌≡◌, ◌<◌, ◌≤◌, ◌++◌, length, drop, IfErr, OnErr, OnOk};
ghost use Rattle.compare.specs.Comparisons.{Compared, FewLetters, PairsSearched, positions};

use super::product::Product;
use super::verdict::Verdict;
use machine::{Device, Pair, Refusal};
use search::{Found, SearchError, Visit, shortest};

// Searches the product machine for the least sequence that distinguishes the members.
// The generic search is `shortest`: this says what its answer means for two members, and `search_states` what it means for one.
fn search_product<D: Device>(
    product: &Product<D>,
    visits: &mut [Visit<Pair>],
    marks: &mut [u32],
    letters: &mut [u8],
) -> Result<Found, SearchError>
    ensures answer { PairsSearched (D.meaning product.now.device.now) product.now.first product.now.second (length visits.old) (length marks.old) letters.old result visits.new letters.new }
    ensures few { FewLetters (D.meaning product.now.device.now) product.now.first product.now.second result }
{
    shortest(product, visits, marks, letters)
}

// Searches for the least sequence that distinguishes two members, which goes into `letters`. Where none does, the visits are left as the reachable pairs.
// Work slices are two, as at `shortest`.
pub fn search_pairs<D: Device>(
    device: &D,
    first: u16,
    second: u16,
    visits: &mut [Visit<Pair>],
    marks: &mut [u32],
    letters: &mut [u8],
) -> Result<Found, SearchError>
    ensures answer { PairsSearched (D.meaning device.now) first second (length visits.old) (length marks.old) letters.old result visits.new letters.new }
    ensures few { FewLetters (D.meaning device.now) first second result }
{
    let product = Product {
        device,
        first,
        second,
    };
    search_product(&product, visits, marks, letters)
}

// Writes the positions of the visits into the first entries of the pairs.
fn write_pairs(visits: &[Visit<Pair>], pairs: &mut [Pair])
    requires { length visits.now ≤ length pairs.old }
    ensures { pairs.new ≡ positions visits.now ++ drop (length visits.now) pairs.old }
{
    // By index: a `zip` of `iter_mut` with the visits would be an adapter, behind which nothing is known of the elements.
    for (i, visit) in visits.iter().enumerate() {
        pairs[i] = visit.position;
    }
}

// Lists the positions of the visits, where they fit.
fn list_pairs(visits: &[Visit<Pair>], pairs: &mut [Pair]) -> Result<(), Refusal>
    ensures fits { OnOk result (length visits.now ≤ length pairs.old) }
    ensures listed { OnOk result (pairs.new ≡ positions visits.now ++ drop (length visits.now) pairs.old) }
    ensures refusal { IfErr result (λ e. e ≡ Refusal.AnswerTooShort) }
    ensures short { OnErr result (length pairs.old < length visits.now) }
    ensures kept { OnErr result (pairs.new ≡ pairs.old) }
{
    if pairs.len() < visits.len() {
        return Err(Refusal::AnswerTooShort);
    }
    write_pairs(visits, pairs);
    Ok(())
}

// Compares two members: the least sequence that distinguishes them goes into `letters`, or, where none does, the reachable pairs into `pairs`.
// The work slices `visits` and `marks`, two as at `shortest`, have an entry for each pair of states; what they hold does not matter and is lost.
pub fn compare<D: Device>(
    device: &D,
    first: u16,
    second: u16,
    visits: &mut [Visit<Pair>],
    marks: &mut [u32],
    letters: &mut [u8],
    pairs: &mut [Pair],
) -> Result<Verdict, Refusal>
    ensures { Compared (D.meaning device.now) first second (length visits.old) (length marks.old) letters.old pairs.old result letters.new pairs.new }
{
    let product = Product::new(device, first, second)?;
    match search_product(&product, visits, marks, letters)? {
        Found::Goal { length } => Ok(Verdict::Differ { length }),
        Found::Exhausted { count } => {
            list_pairs(&visits[0..count], pairs)?;
            Ok(Verdict::Equivalent { count })
        }
    }
}
