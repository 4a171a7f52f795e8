// Where a reading stands.

// The next octet, the nodes counted, the contents octets handed out, and the number of the value's own node.
#[derive(Clone, Copy)]
pub struct Cursor {
    pub at: usize,
    pub count: usize,
    pub used: usize,
    pub number: u64,
}
