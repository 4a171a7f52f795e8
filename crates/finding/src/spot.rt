// What following a path answers, step by step.
use table::component::ComponentType;

// A child that a step leads into: what its group says of it, the number of its presence bit, where its own octets
// begin and the nodes counted before it. Then what stands behind it: the item and the presence bit of the next
// component, and how many are left.
#[derive(Clone, Copy)]
pub struct Opening {
    pub component: ComponentType,
    pub bit: usize,
    pub at: usize,
    pub count: usize,
    pub after: usize,
    pub later: usize,
    pub left: u64,
}

// Where the component at a path stands: what its group says of it; whether it is ABSENT; the first of its own octets
// and the one behind them, equal where it is not carried; its number of nodes and its node's number; the preamble and
// the number of its presence bit, where it has one.
#[derive(Clone, Copy)]
pub struct Spot {
    pub component: ComponentType,
    pub absent: bool,
    pub start: usize,
    pub end: usize,
    pub nodes: usize,
    pub number: u64,
    pub pre: usize,
    pub bit: usize,
}

// A value that was read whole, as far as octet `at` and with `count` nodes, and where the path leads in it: to a
// component, or nowhere at a step.
#[derive(Clone, Copy)]
pub struct Followed {
    pub at: usize,
    pub count: usize,
    pub leads: Result<Spot, usize>,
}

// The same where it leads to a component.
#[derive(Clone, Copy)]
pub struct Way {
    pub at: usize,
    pub count: usize,
    pub spot: Spot,
}
