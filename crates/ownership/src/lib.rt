// The law of ownership: in every tree that is read, each node has at least one token that none of its children has.
// The law of plain reading stands beside it.
#![tactic(auto)]

ghost use Rattle.std.specs.Prelude.{◌≡◌, true};
ghost use Rattle.ownership.specs.Ownership.{ReadsOwn, FewNodes};

pub mod plain;

// Whether each node of a tree that was read owns a token, so that the nodes never outnumber the tokens: always.
pub fn tokens_are_owned() -> bool
    ensures value { result ≡ true }
    ensures own { ReadsOwn }
    ensures few { FewNodes }
{
    true
}
