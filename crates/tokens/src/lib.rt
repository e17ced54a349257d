// Tokens of a page, and the window through which a level of them is read.
#![tactic(auto)]

ghost use Rattle.std.specs.Prelude.{◌≡◌};
ghost use Rattle.tokens.specs.Looks.{no_token};

pub mod window;

// What a name spells: a keyword that the grammar knows, or none. `raw` is no keyword, but decides `&raw mut`.
#[derive(Clone, Copy, PartialEq, Eq)]
pub enum Word {
    // Any name that is none of the others. It stands beside `raw` in every test, so that an option would be no shorter.
    Plain,
    Raw,
    True,
    False,
    Underscore,
    SelfValue,
    SelfType,
    Super,
    Crate,
    Mut,
    Const,
    As,
    Let,
    If,
    Else,
    While,
    Break,
    Continue,
    Return,
    Await,
    Try,
    Async,
    Become,
    For,
    Loop,
    Match,
    Move,
    Static,
    Unsafe,
    Yield,
    // Any other strict or reserved keyword: it begins no expression and stands nowhere in one.
    Reserved,
}

#[derive(Clone, Copy, PartialEq, Eq)]
pub enum Delimiter {
    Paren,
    Bracket,
    Brace,
}

// All that the reading of an expression may know of a token. What a name or a literal spells is for hosts alone.
#[derive(Clone, Copy, PartialEq, Eq)]
pub enum Look {
    Name(Word),
    // A mark's character, and whether it is joined to the next mark.
    Mark(char, bool),
    Integer,
    Float,
    Literal,
    Lifetime,
    // An opener with the number of tokens in its group, both delimiters included.
    Open(Delimiter, usize),
    Close(Delimiter),
}

// A token: its look, and where its value stands on the page. It borrows no page, since a space for tokens is lent for
// many.
#[derive(Clone, Copy, PartialEq, Eq)]
pub struct Token {
    pub look: Look,
    pub start: usize,
    pub len: usize,
}

// A plain name, at the start of a page and without a value: what fills a space before a page is read into it.
impl Default for Token {
    ghost is_default = { λ t. t ≡ no_token };

    fn default() -> Token {
        Token {
            look: Look::Name(Word::Plain),
            start: 0,
            len: 0,
        }
    }
}
