// What a range is cut into.

#[derive(Clone, Copy, Debug, PartialEq, Eq)]
pub struct Cut {
    pub head: usize,
    pub middle: usize,
    pub tail: usize,
}

// The parts of a range, and the size of each half of the store, which holds the outer two.
#[derive(Clone, Copy, Debug, PartialEq, Eq)]
pub struct Plan {
    pub head: usize,
    pub middle: usize,
    pub tail: usize,
    pub bounce: usize,
}
