// The law of plain reading: the guard in the definition of reading, by which a task may ask only for a smaller one,
// never decides.
ghost use Rattle.std.specs.Prelude.{◌≡◌, true};
ghost use Rattle.ownership.specs.Plainly.{ReadsPlainly};

// Whether the reading is the plain recursive one, since every task that is asked for is smaller: always.
pub fn reads_plainly() -> bool
    ensures value { result ≡ true }
    ensures plainly { ReadsPlainly }
{
    true
}
