// The reading of a rule into the node space.
ghost use Rattle.std.specs.Prelude.{◌+◌, ◌≤◌, length};
ghost use Rattle.grammar.specs.Grammar.{expr, read_task};
ghost use Rattle.sheets.specs.Model.{whole};
ghost use Rattle.sheets.specs.States.{Reads};

use super::records::Rule;
use hosts::Host;
use lists::Counted;
use reading::frames::Frame;
use reading::machine::read_expr;
use refusals::Refusal;
use tokens::window::Window;
use trees::Node;

// Reads a rule of all the tokens of a level behind the nodes in use, and counts its nodes among them. The list is made
// over a plain slice, so that the caller learns what its space holds after.
pub fn read_rule<H: Host>(
    host: &H,
    level: Window,
    structs: bool,
    frames: &mut [Frame],
    nodes: &mut [Node],
    count: &mut usize,
) -> Result<Rule, Refusal>
    requires inside { level.place ≤ level.end }
    requires frames { level.end ≤ length frames.old }
    requires nodes { count.old + level.end ≤ length nodes.old }
    ensures { Reads (whole level.entry.end (read_task (H.reading host.now) level.entry.page.now level.entry.tokens.now (expr structs 0 level.entry.place level.entry.end))) nodes.old count.old nodes.new count.new result }
{
    let mut list = Counted::new(nodes, count);
    let stop = read_expr(host, level, structs, frames, &mut list)?;
    if stop != level.end() {
        return Err(Refusal::LeftOver(stop));
    }
    Ok(Rule {
        root: list.count() - 1,
        used: stop,
    })
}
