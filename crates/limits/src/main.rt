// Answers cases from standard input, one on a line: what an empty sheet makes of a page, or which bytes a token has.
// A case is `NODES RULES TOKENS PAGE`, with the sizes of the spaces that are lent, or `text PLACE PAGE`. A line that
// begins with `#` is a heading, which is its own answer. A line that is neither ends the program with an error.
#![tactic(auto)]

use answers::{show_refusal, show_sheet, show_text};
use anyhow::Context;
use cases::{Sizes, parts, read_page_text, sizes_of};
use hosts::statement::StatementHost;
use pages::text;
use sheets::Sheet;
use sheets::records::Rule;
use std::alloc::{AllocError, Global};
use std::io::{BufRead, BufReader, Write};
use tokens::Token;
use trees::Node;

mod answers;
mod cases;

// The largest spaces that a case may ask for. A sheet and a page use a little less, whatever they are lent.
const MOST_NODES: usize = 4200;

const MOST_RULES: usize = 300;

const MOST_TOKENS: usize = 4200;

// What the cases are answered with, made once: the spaces that are lent, the page of a case, and its answer.
#[derive(Drop)]
struct Desk {
    nodes: Vec<Node>,
    rules: Vec<Rule>,
    tokens: Vec<Token>,
    page: Vec<u8>,
    out: Vec<u8>,
}

// The first records of a space, which may have too few.
fn front<'a, T>(space: &'a mut Vec<T>, n: usize, lack: &str) -> anyhow::Result<&'a mut [T]> {
    space.as_mut_slice().get_mut(..n).context(lack)
}

impl Desk {
    fn new(heap: Global) -> Result<Desk, AllocError> {
        Ok(Desk {
            nodes: vec![in heap; Node::default(); MOST_NODES]?,
            rules: vec![in heap; Rule::default(); MOST_RULES]?,
            tokens: vec![in heap; Token::default(); MOST_TOKENS]?,
            page: Vec::new(heap),
            out: Vec::new(heap),
        })
    }

    // Enters the page on an empty sheet over the first parts of the spaces.
    fn enter(&mut self, sizes: Sizes) -> anyhow::Result<()> {
        let nodes = front(&mut self.nodes, sizes.nodes, "too many nodes")?;
        let rules = front(&mut self.rules, sizes.rules, "too many rules")?;
        let tokens = front(&mut self.tokens, sizes.tokens, "too many tokens")?;
        let mut sheet = Sheet::new(nodes, rules);
        match sheet.enter(&StatementHost, self.page.as_slice(), tokens, true) {
            Ok(rule) => show_sheet(&sheet, rule, &mut self.out),
            Err(refusal) => show_refusal(refusal, &mut self.out),
        }
    }

    // Answers `text PLACE PAGE`, of which this is what stands behind the word.
    fn answer_text(&mut self, case: &str) -> anyhow::Result<()> {
        let (place, written) = parts(case)?;
        let place = place.parse()?;
        read_page_text(written, &mut self.page)?;
        match text(self.page.as_slice(), place) {
            Ok(bytes) => show_text(bytes, &mut self.out),
            Err(refusal) => show_refusal(refusal, &mut self.out),
        }
    }

    // Answers `NODES RULES TOKENS PAGE`.
    fn answer_enter(&mut self, case: &str) -> anyhow::Result<()> {
        let (sizes, written) = sizes_of(case)?;
        read_page_text(written, &mut self.page)?;
        self.enter(sizes)
    }

    fn answer(&mut self, line: &str) -> anyhow::Result<()> {
        if line.starts_with('#') {
            self.out.extend_from_slice(line.as_bytes())?;
            self.out.push(b'\n')?;
            return Ok(());
        }
        match line.strip_prefix("text ") {
            Some(case) => self.answer_text(case),
            None => self.answer_enter(line),
        }
    }
}

fn main(rt: HostRuntime) -> anyhow::Result<()> {
    let heap = rt.alloc();
    let mut desk = Desk::new(heap)?;
    for line in BufReader::new(heap, rt.stdin())?.lines(heap) {
        let line = line?;
        desk.answer(line.as_str())?;
        rt.stdout().write_all(desk.out.as_slice())?;
        desk.out.clear();
    }
    Ok(())
}
