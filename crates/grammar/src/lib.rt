// The grammar of rules: what an operand begins with, and what may follow one. The definition of reading stands in
// specs/.
#![tactic(auto)]

pub mod heads;
pub mod tails;

use operators::Infix;
use trees::Kind;

// The rank of ranges.
const RANGE: u8 = 2;

// The rank of comparisons.
const COMPARISON: u8 = 5;

// The least rank of an operator in the end of a range.
const RANGE_END: u8 = 3;

// Above the rank of every operator: the operand of a unary takes none.
const OPERAND_ONLY: u8 = 13;

// What an operand begins with.
#[derive(Clone, Copy)]
pub enum Head {
    // A node without children, and where it stops.
    Leaf(Kind, usize),
    // Marks before an operand: the node that they make, where the operand begins, and the least rank of its operators.
    Prefix {
        kind: Kind,
        op: u32,
        operand_at: usize,
        least_rank: u8,
    },
    // A parenthesis with something in it: where that begins, and the place of the closer.
    Group {
        inside_at: usize,
        closer_at: usize,
    },
}

// What follows an operand.
#[derive(Clone, Copy)]
pub enum Tail {
    // An operator that takes the operand, and where its right operand begins.
    Takes(Infix, usize),
    // The limits of a range that has no end, and where it stops.
    Endless(usize),
    // `as`, and where the type begins.
    Casts(usize),
    // Nothing that is read here: the operand is whole. An answer like the others, and no lack of one.
    Stop,
}
