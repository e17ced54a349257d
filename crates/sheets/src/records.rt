// The records of a sheet beside its nodes.

// A rule: the number of its root, and how many tokens it used.
#[derive(Clone, Copy, PartialEq, Eq, Default)]
pub struct Rule {
    pub root: usize,
    pub used: usize,
}

// How many nodes and rules are in use.
#[derive(Clone, Copy, PartialEq, Eq, Default)]
pub struct Totals {
    pub nodes: usize,
    pub rules: usize,
}
