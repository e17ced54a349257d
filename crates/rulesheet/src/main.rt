// Enters the first 65,536 bytes of standard input as a rule, and prints the sheet, or why the page was refused.
#![tactic(auto)]

use hosts::statement::StatementHost;
use lines::refusal_line;
use refusals::Refusal;
use sheets::Sheet;
use sheets::records::Rule;
use std::io;
use std::io::{Read, Write};
use tokens::Token;
use trees::Node;

const MOST_BYTES: u64 = 65536;

// Prints the heading and a line for each node. One that is refused is left out: with 32 bytes none
// is, so that an error would be no plainer.
fn show_sheet(rt: &HostRuntime, sheet: &Sheet) -> io::Result<()> {
    let mut out = [0; 32];
    if let Ok(n) = sheet.heading(&mut out) {
        show(rt, &out, n)?;
    }
    let (_, nodes) = sheet.totals();
    for i in 0..nodes {
        if let Ok(n) = sheet.line(i, &mut out) {
            show(rt, &out, n)?;
        }
    }
    Ok(())
}

// Prints a refusal by its line, which cannot fail. `println!` of it would rest on `fmt`, of which no clause says when it
// fails.
fn show_refusal(rt: &HostRuntime, refusal: Refusal) -> io::Result<()> {
    let mut out = [0; 64];
    let n = refusal_line(refusal, &mut out);
    show(rt, &out, n)
}

// Prints the first bytes of an output.
fn show(rt: &HostRuntime, out: &[u8], n: usize) -> io::Result<()> {
    rt.stdout().write_all(out.get(..n).unwrap_or_default())
}

fn main(rt: HostRuntime) -> io::Result<()> {
    let mut page = Vec::new(rt.alloc());
    rt.stdin().take(MOST_BYTES).read_to_end(&mut page)?;
    let mut tokens = [Token::default(); 4096];
    let mut nodes = [Node::default(); 4096];
    let mut rules = [Rule::default(); 256];
    let mut sheet = Sheet::new(&mut nodes, &mut rules);
    match sheet.enter(&StatementHost, page.as_slice(), &mut tokens, true) {
        Ok(_) => show_sheet(&rt, &sheet),
        Err(refusal) => show_refusal(&rt, refusal),
    }
}
