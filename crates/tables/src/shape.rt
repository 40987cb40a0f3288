// What all layers of the tables share, for the walk over them. The passes over a layer take what they need of it one by
// one: a layer that reads the struct at each path takes 1 % more instructions.
#[derive(Clone, Copy)]
pub(crate) struct Shape {
    // The depth of the bottom.
    pub(crate) deep: usize,
    // How many paths are live, and how many have room.
    pub(crate) count: usize,
    pub(crate) l: usize,
    // The length of a field of `b`.
    pub(crate) h: usize,
    pub(crate) arikan: bool,
}
