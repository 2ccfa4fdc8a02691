// What is wrong with a list of pairs. A place is counted from 0 in the list.
#[derive(Clone, Copy, PartialEq, Eq, Hash, Debug)]
pub enum Flaw {
    // The pair of resets is not listed.
    NoResetPair,
    // At this pair and letter the outputs of the two members differ.
    OutputsDiffer { place: usize, letter: u8 },
    // The pair that this pair and letter lead to is not listed.
    SuccessorMissing { place: usize, letter: u8 },
}
