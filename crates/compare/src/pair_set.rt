ghost use Rattle.std.specs.Prelude.{◌≡◌, ◌*◌, ◌≤◌, length};
ghost use Rattle.compare.specs.Checks.{pair_inside};

use super::product::pair_number;
use machine::{MOST_PAIRS, Pair, Refusal};

// Whether both states of the pair are below the count.
fn is_inside(states: u16, pair: Pair) -> bool
    ensures { result ≡ pair_inside states pair }
{
    pair.first < states && pair.second < states
}

// A set of pairs of states: a mark for the number of each, in an array, as libraries use no heap.
#[derive(Drop)]
pub(crate) struct PairSet {
    states: u16,
    marked: [bool; MOST_PAIRS],
    ghost room: { states * states ≤ length marked },
}

impl PairSet {
    ghost use Rattle.std.specs.Prelude.{◌≡◌, ◌≤◌, ◌++◌, true, List, [], ◌∷◌, Ok, Err, if◌then◌else◌, OnOk};
    ghost use Rattle.compare.specs.Checks.{pair_inside, pairs_inside};
    ghost use Rattle.compare.specs.PairSets.{has_pair, IsSetOf};

    // The empty set.
    pub(crate) fn new(states: u16) -> PairSet
        requires { states ≤ 256 }
        ensures states { result.states ≡ states }
        ensures empty { IsSetOf [] result }
    {
        PairSet {
            states,
            marked: [false; MOST_PAIRS],
        }
    }

    pub(crate) fn contains(&self, pair: Pair) -> bool
        requires { pair_inside self.now.states pair ≡ true }
        ensures { result ≡ has_pair self.now pair }
    {
        self.marked[pair_number(self.states, pair)]
    }

    // Puts in a pair, or refuses one that is out of range.
    fn insert(&mut self, pair: Pair) -> Result<(), Refusal>
        ensures inside { result ≡ (if pair_inside self.old.states pair then Ok tt else Err Refusal.OutOfRange) }
        ensures states { self.new.states ≡ self.old.states }
        ensures more { OnOk result ((ps : List Pair) → IsSetOf ps self.old → IsSetOf (ps ++ pair ∷ []) self.new) }
    {
        if !is_inside(self.states, pair) {
            return Err(Refusal::OutOfRange);
        }
        self.marked[pair_number(self.states, pair)] = true;
        Ok(())
    }

    // Puts the pairs into the empty set, or refuses one that is out of range.
    pub(crate) fn insert_all(&mut self, pairs: &[Pair]) -> Result<(), Refusal>
        requires { IsSetOf [] self.old }
        ensures inside { result ≡ (if pairs_inside self.old.states pairs.now then Ok tt else Err Refusal.OutOfRange) }
        ensures states { self.new.states ≡ self.old.states }
        ensures all { OnOk result (IsSetOf pairs.now self.new) }
    {
        for pair in pairs {
            self.insert(*pair)?;
        }
        Ok(())
    }
}
