// The rule sheet: rules as trees of numbered nodes, in two lent spaces. Only its own calls reach one.
#![tactic(auto)]

ghost use Rattle.sheets.specs.Model.{Model};
ghost use Rattle.sheets.specs.States.{Holds, state};

use self::records::{Rule, Totals};
use reading::frames::Frame;
use trees::Node;

mod calls;
mod entering;
mod guard;
pub mod records;

// The rules and their nodes, how many of each are in use, and the frames of the readings, which are made once. Nothing
// here allocates. Every sheet stands for some list of trees.
#[derive(Drop)]
pub struct Sheet<'a, 'b> {
    nodes: &'a mut [Node],
    rules: &'b mut [Rule],
    totals: Totals,
    frames: [Frame; 4096],
    ghost held: { ∥ ((m : Model) × Holds (state nodes.now rules.now totals) m) ∥₁ },
}
