// Pages: rows of fields, turned into tokens.
#![tactic(auto)]

ghost use Rattle.std.specs.Prelude.{◌≡◌, min, length, IfOk, Ok, Err, MatchResult};
ghost use Rattle.pages.specs.Pages.{tokens_of, page_answer, written_over, Accepted, text_of};

pub use classes::{Class, class_of};
use refusals::Refusal;
use steps::Taken;
use tokens::Token;
pub use values::is_name;
use walk::walk;

mod classes;
mod fields;
mod steps;
mod values;
mod walk;
mod words;

// Reads a page into a space for tokens, and answers how many there are: at most 4096, and no more than the space has.
// Where the page is refused, the space holds the tokens of the fields before.
pub fn read_page(page: &[u8], space: &mut [Token]) -> Result<usize, Refusal>
    ensures answer { result ≡ page_answer (min (length space.old) 4096) page.now }
    ensures records { space.new ≡ written_over space.old (tokens_of (min (length space.old) 4096) page.now) }
    ensures accepted { IfOk result (Accepted (length space.old) page.now) }
{
    let mut taken = Taken::new(space);
    walk(page, &mut taken)
}

// The value of the token at this place, as a part of the page. A page is refused as in a space for 4096 tokens.
pub fn text<'a>(page: &'a [u8], place: usize) -> Result<&'a [u8], Refusal>
    ensures { MatchResult result (λ v. text_of page.now place ≡ Ok v.now) (λ e. text_of page.now place ≡ Err e) }
{
    let mut space = [Token::default(); 4096];
    let count = read_page(page, &mut space)?;
    let token = space[..count].get(place).ok_or(Refusal::NotThere)?;
    Ok(&page[token.start..token.start + token.len])
}
