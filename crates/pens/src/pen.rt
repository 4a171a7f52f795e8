// Where a walk of a value list stands, and where the next octet goes.

// The next node, the contents octets used, and where the next octet of the result goes.
#[derive(Clone, Copy)]
pub struct Pen {
    pub at: usize,
    pub used: usize,
    pub to: usize,
}
