// An entered position, the index of the visit it was found from, and the letter that led here. The first visit was found from none, and nothing asks where from.
// Indices, since visits lie in the caller's slice and libraries use no heap.
#[derive(Clone, Copy, PartialEq, Eq, Hash, Debug, Default)]
pub struct Visit<P> {
    pub position: P,
    pub from: u32,
    pub letter: u8,
}
