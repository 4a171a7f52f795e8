// What a group says of a component: the row of its type, its mark and its default. Of a value alone mark and default are 0.
#[derive(Clone, Copy, Debug, PartialEq, Eq)]
pub struct ComponentType {
    pub row: usize,
    pub mark: u64,
    pub given: u64,
}
