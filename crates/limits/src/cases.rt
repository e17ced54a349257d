// Cases, as they are written on a line.
ghost use Rattle.std.specs.Prelude.{◌<◌, IfOk};

use anyhow::{Context, bail};

// How many nodes, rules and tokens the lent spaces have.
#[derive(Clone, Copy)]
pub struct Sizes {
    pub nodes: usize,
    pub rules: usize,
    pub tokens: usize,
}

// What stands before the first space, and what stands behind it.
pub fn parts(case: &str) -> anyhow::Result<(&str, &str)> {
    case.split_once(' ').context("a part is missing")
}

// The three sizes at the front of a case, and what stands behind them.
pub fn sizes_of(case: &str) -> anyhow::Result<(Sizes, &str)> {
    let (nodes, rest) = parts(case)?;
    let (rules, rest) = parts(rest)?;
    let (tokens, rest) = parts(rest)?;
    Ok((
        Sizes {
            nodes: nodes.parse()?,
            rules: rules.parse()?,
            tokens: tokens.parse()?,
        },
        rest,
    ))
}

// The value of a digit of a hexadecimal number. `to_digit` would take capital letters too.
fn digit(b: u8) -> anyhow::Result<u8>
    ensures { IfOk result (λ d. d < 16) }
{
    match b {
        b'0'..=b'9' => Ok(b - b'0'),
        b'a'..=b'f' => Ok(b - b'a' + 10),
        _ => bail!("no digit"),
    }
}

// Adds the bytes that are written as pairs of digits.
fn add_bytes(pairs: &[u8], page: &mut Vec<u8>) -> anyhow::Result<()> {
    for pair in pairs.chunks(2) {
        let [high, low] = pair else {
            bail!("half a byte");
        };
        page.push(16 * digit(*high)? + digit(*low)?)?;
    }
    Ok(())
}

// Adds a piece: pairs of digits, or `*COUNT:` and pairs of digits that are added so often.
fn add_piece(piece: &str, page: &mut Vec<u8>) -> anyhow::Result<()> {
    let Some(repeated) = piece.strip_prefix('*') else {
        return add_bytes(piece.as_bytes(), page);
    };
    let (count, pairs) = repeated.split_once(':').context("a count without a piece")?;
    for _ in 0..count.parse::<usize>()? {
        add_bytes(pairs.as_bytes(), page)?;
    }
    Ok(())
}

// Reads the bytes of a page: pieces with commas between, or `-` for an empty page.
pub fn read_page_text(written: &str, page: &mut Vec<u8>) -> anyhow::Result<()> {
    page.clear();
    if written == "-" {
        return Ok(());
    }
    for piece in written.split(',') {
        add_piece(piece, page)?;
    }
    Ok(())
}
