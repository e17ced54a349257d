// The nodes of a rule, and the trees that they stand for.
#![tactic(auto)]

ghost use Rattle.std.specs.Prelude.{◌≡◌, ◌≤◌};
ghost use Rattle.trees.specs.Kinds.{kind_number};

// What a node is, with its number.
#[derive(Clone, Copy, PartialEq, Eq, Default)]
pub enum Kind {
    #[default]
    Path = 1,
    Literal,
    Underscore,
    Macro,
    Struct,
    StructField,
    Paren,
    Tuple,
    Array,
    Repeat,
    Call,
    Method,
    NamedField,
    Index,
    Try,
    Await,
    Unary,
    Reference,
    RawAddress,
    Binary,
    Assign,
    Range,
    Cast,
    Let,
    If,
    While,
    Break,
    Continue,
    Return,
    Block,
    Keyword,
    TypeName,
    Pattern,
    Arguments,
    NumberedField,
}

impl Kind {
    // The number by which the kind is known in a line. A method, since `u8::from` would not say which number.
    pub fn number(self) -> u8
        ensures value { result ≡ kind_number self }
        ensures within { result ≤ 35 }
    {
        self as u8
    }
}

// What a node is and which tokens it spans: from the first to one past the last.
#[derive(Clone, Copy, PartialEq, Eq, Default)]
pub struct Label {
    pub kind: Kind,
    // A number, since what it tells hangs on the kind: a code, the mutability of a reference, a closed range.
    pub op: u32,
    pub from: usize,
    pub to: usize,
}

// A node with the numbers of its first child and its next sibling.
#[derive(Clone, Copy, PartialEq, Eq, Default)]
pub struct Node {
    pub label: Label,
    // Numbers of nodes, and no boxes: a rule stands in a lent space, and reading allocates nothing.
    pub first: Option<usize>,
    pub next: Option<usize>,
}
