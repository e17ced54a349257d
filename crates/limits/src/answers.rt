// The answers, each a line.
use lines::refusal_line;
use refusals::Refusal;
use sheets::Sheet;
use std::io::Write;

// Of a sheet with more nodes only the last one is shown.
const MOST_SHOWN: usize = 40;

// Writes `ok`, the rule's number, how many nodes the sheet has, and their lines with `;` between.
pub fn show_sheet(sheet: &Sheet, rule: usize, out: &mut Vec<u8>) -> anyhow::Result<()> {
    let (_, nodes) = sheet.totals();
    write!(out, "ok {rule} {nodes}")?;
    let first = if nodes > MOST_SHOWN { nodes - 1 } else { 0 };
    for i in first..nodes {
        out.push(if i == first { b' ' } else { b';' })?;
        show_node(sheet, i, out)?;
    }
    out.push(b'\n')?;
    Ok(())
}

// Writes the line of a node, without its line feed.
fn show_node(sheet: &Sheet, i: usize, out: &mut Vec<u8>) -> anyhow::Result<()> {
    let mut line = [0; 32];
    match sheet.line(i, &mut line) {
        Ok(n) => {
            let text = line.get(..n).unwrap_or_default();
            out.extend_from_slice(text.trim_ascii_end())?;
            Ok(())
        }
        Err(refusal) => show_refusal(refusal, out),
    }
}

pub fn show_refusal(refusal: Refusal, out: &mut Vec<u8>) -> anyhow::Result<()> {
    let mut line = [0; 64];
    let n = refusal_line(refusal, &mut line);
    out.extend_from_slice(line.get(..n).unwrap_or_default())?;
    Ok(())
}

// Writes `text`, and each byte as two digits.
pub fn show_text(bytes: &[u8], out: &mut Vec<u8>) -> anyhow::Result<()> {
    write!(out, "text ")?;
    for b in bytes {
        write!(out, "{b:02x}")?;
    }
    out.push(b'\n')?;
    Ok(())
}
