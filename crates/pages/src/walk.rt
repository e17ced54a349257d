// The walk over a page, field after field.
ghost use Rattle.std.specs.Prelude.{◌≡◌, ◌-◌, ◌≤◌, length, min, IfOk, None};
ghost use Rattle.std.specs.Iterator.{at_most};
ghost use Rattle.pages.specs.Pages.{NextField, tokens_of, page_answer, written_over, Accepted};

use super::fields::field_at;
use super::steps::Taken;
use refusals::Refusal;
use tokens::Token;

// The fields of a page in order, each with the byte where it begins, up to the first that is refused.
#[derive(Drop)]
struct Fields<'p> {
    page: &'p [u8],
    at: usize,
    ghost inside: { at ≤ length page.now },
}

impl<'p> Iterator for Fields<'p> {
    type Item = Result<(usize, Token), Refusal>;

    ghost next_gives = { λ f r g. (g.page.now ≡ f.page.now) × NextField f.page.now f.at g.at r };

    ghost remaining = { λ f. at_most (length f.page.now - f.at) };

    fn next(&mut self) -> Option<Result<(usize, Token), Refusal>> {
        if self.at >= self.page.len() {
            return None;
        }
        let at = self.at;
        match field_at(self.page, at) {
            Ok(token) => {
                self.at = token.start + token.len;
                Some(Ok((at, token)))
            }
            Err(refusal) => {
                self.at = self.page.len();
                Some(Err(refusal))
            }
        }
    }
}

// Reads the fields of a page in order, and takes their tokens in.
pub fn walk(page: &[u8], taken: &mut Taken) -> Result<usize, Refusal>
    requires tokens { taken.old.count ≡ 0 }
    requires inner { taken.old.inner ≡ None }
    ensures answer { result ≡ page_answer (min (length taken.old.space.now) 4096) page.now }
    ensures records { taken.new.space.now ≡ written_over taken.old.space.now (tokens_of (min (length taken.old.space.now) 4096) page.now) }
    ensures accepted { IfOk result (Accepted (length taken.old.space.now) page.now) }
    ensures lender { taken.new.space.ghost_name ≡ taken.old.space.ghost_name }
{
    let fields = Fields { page, at: 0 };
    for field in fields {
        let (at, token) = field?;
        taken.take_in(token, at)?;
    }
    taken.finish()
}
