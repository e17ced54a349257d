// The calls of a sheet.
ghost use Rattle.std.specs.Prelude.{◌≡◌, ◌-◌, min, [], length};
ghost use Rattle.lines.specs.Lines.{heading_bytes, written};
ghost use Rattle.sheets.specs.Model.{entry_of, token_room, space_after, line_of, call_enter, call_totals, call_heading, call_line, says_number, says_totals, says_bytes};
ghost use Rattle.sheets.specs.Sheets.{state_of};
ghost use Rattle.sheets.specs.States.{room_of, nodes_of, Enters, Follows, Holds};

use super::Sheet;
use super::entering::read_rule;
use super::guard::Guard;
use super::records::{Rule, Totals};
use hosts::Host;
use lines::{heading_line, node_line};
use lists::append;
use pages::read_page;
use reading::frames::Frame;
use refusals::Refusal;
use tokens::Token;
use tokens::window::Window;
use trees::Node;

// A sheet uses at most this many of the nodes and rules of its spaces.
const MOST_NODES: usize = 4096;

const MOST_RULES: usize = 256;

// How many of a space are free, of which at most `most` may be used.
fn free(len: usize, most: usize, used: usize) -> usize
    ensures { result ≡ min len most - used }
{
    len.min(most).saturating_sub(used)
}

impl<'a, 'b> Sheet<'a, 'b> {
    // What `enter` does. It stays a function of its own, so that the promise over every model is drawn from the exact
    // one once, and not anew on each way out.
    fn enter_core<H: Host>(
        &mut self,
        host: &H,
        page: &[u8],
        tokens: &mut [Token],
        structs: bool,
    ) -> Result<usize, Refusal>
        ensures room { room_of (state_of self.new) ≡ room_of (state_of self.old) }
        ensures enters { Enters (entry_of (room_of (state_of self.old)) self.old.totals.nodes self.old.totals.rules (H.reading host.now) page.now (token_room tokens.old) structs) (state_of self.old) (state_of self.new) result }
        ensures tokens { tokens.new ≡ space_after page.now tokens.old }
    {
        let count = read_page(page, tokens)?;
        let Sheet {
            nodes,
            rules,
            totals,
            frames,
            ..
        } = self;
        if count > free(nodes.len(), MOST_NODES, totals.nodes) {
            return Err(Refusal::SheetFull);
        }
        if free(rules.len(), MOST_RULES, totals.rules) == 0 {
            return Err(Refusal::SheetFull);
        }
        let level = Window::new(page, &tokens[0..count]);
        let mut guard = Guard::new(totals);
        let rule = read_rule(host, level, structs, frames, nodes, &mut guard.totals.nodes)?;
        let number = guard.totals.rules;
        let _ = append(rules, &mut guard.totals.rules, rule);
        guard.disarm();
        Ok(number)
    }

    // An empty sheet over a space for nodes and one for rules, of which it uses at most 4,096 and 256.
    pub fn new(nodes: &'a mut [Node], rules: &'b mut [Rule]) -> Sheet<'a, 'b>
        ensures room { room_of (state_of result) ≡ record { nodes = min (length nodes.old) 4096; rules = min (length rules.old) 256 } }
        ensures empty { Holds (state_of result) [] }
        ensures lender { (result.nodes.ghost_name ≡ nodes.entry.ghost_name) × (result.rules.ghost_name ≡ rules.entry.ghost_name) }
    {
        Sheet {
            nodes,
            rules,
            totals: Totals::default(),
            frames: [Frame::default(); 4096],
        }
    }

    // Enters a page as a rule of all its tokens, and answers the rule's number. `structs` tells whether a path before
    // `{` is a struct. The token space then holds the records of the fields that were taken in, and behind them what it
    // held.
    pub fn enter<H: Host>(
        &mut self,
        host: &H,
        page: &[u8],
        tokens: &mut [Token],
        structs: bool,
    ) -> Result<usize, Refusal>
        ensures exact { Enters (entry_of (room_of (state_of self.old)) self.old.totals.nodes self.old.totals.rules (H.reading host.now) page.now (token_room tokens.old) structs) (state_of self.old) (state_of self.new) result }
        ensures tokens { tokens.new ≡ space_after page.now tokens.old }
        ensures follows { Follows (state_of self.old) (call_enter (H.reading host.now) page.now tokens.old structs) (says_number result tokens.new) (state_of self.new) }
    {
        self.enter_core(host, page, tokens, structs)
    }

    // How many rules and nodes are in use.
    pub fn totals(&self) -> (usize, usize)
        ensures value { result ≡ (self.now.totals.rules, self.now.totals.nodes) }
        ensures follows { Follows (state_of self.now) call_totals (says_totals result) (state_of self.now) }
    {
        (self.totals.rules, self.totals.nodes)
    }

    // Writes `rules R nodes N` and a line feed at the output's start, and answers how many bytes that are.
    pub fn heading(&self, out: &mut [u8]) -> Result<usize, Refusal>
        ensures value { (result, out.new) ≡ written (heading_bytes self.now.totals.rules self.now.totals.nodes) out.old }
        ensures follows { Follows (state_of self.now) (call_heading out.old) (says_bytes (result, out.new)) (state_of self.now) }
    {
        heading_line(self.totals.rules, self.totals.nodes, out)
    }

    // Writes a node's number, kind, op, from and to and a line feed at the output's start, and answers how many bytes
    // that are.
    pub fn line(&self, i: usize, out: &mut [u8]) -> Result<usize, Refusal>
        ensures value { (result, out.new) ≡ line_of (nodes_of (state_of self.now)) i out.old }
        ensures follows { Follows (state_of self.now) (call_line i out.old) (says_bytes (result, out.new)) (state_of self.now) }
    {
        // The totals bound it, and not the space, as `get` would.
        if i >= self.totals.nodes {
            return Err(Refusal::NotThere);
        }
        let nodes = &*self.nodes;
        let label = nodes[i].label;
        node_line(i, label.kind.number(), label.op, label.from, label.to, out)
    }
}
