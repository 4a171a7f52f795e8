// What stands before a string's contents.

// How many contents octets follow it, and where they go.
#[derive(Clone, Copy)]
pub struct Head {
    pub filled: usize,
    pub to: usize,
}
