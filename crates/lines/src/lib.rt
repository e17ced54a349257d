// Writes the lines of the output, byte for byte, at the start of a lent output.
#![tactic(auto)]

ghost use Rattle.std.specs.Prelude.{◌≡◌, ℕ, ◌+◌, ◌<◌, ◌≤◌, List, [], ◌++◌, length, take, drop, decimal};
ghost use Rattle.lines.specs.Lines.{rest_bytes, heading_bytes, line_bytes, refusal_bytes, written};

use itoa::Buffer;
use refusals::Refusal;
use std::marker::Model;

// A line under way. No line has more bytes than it holds, so that nothing is allocated. It is no `fmt::Write`: the
// contract of `write!` leaves open that it fails, and these lines may not. So a refusal's text is put together here
// once more.
#[derive(Drop)]
struct Line {
    bytes: [u8; 64],
    len: usize,
}

impl Model for Line {
    ghost Value = { List ℕ };

    ghost view = { λ l. take l.len l.bytes };

    ghost invariant = { λ l. l.len ≤ 64 };
}

impl Line {
    fn new() -> Line
        ensures { result ≡ [] }
    {
        Line {
            bytes: [0; 64],
            len: 0,
        }
    }

    fn text(&mut self, text: &[u8])
        requires { length self.old + length text.now ≤ 64 }
        ensures { self.new ≡ self.old ++ text.now }
    {
        let end = self.len + text.len();
        self.bytes[self.len..end].copy_from_slice(text);
        self.len = end;
    }

    fn number(&mut self, n: usize)
        requires { length self.old + length (decimal n) ≤ 64 }
        ensures { self.new ≡ self.old ++ decimal n }
    {
        self.text(Buffer::new().format(n).as_bytes());
    }

    // Adds numbers, each behind a space, and ends the line.
    fn numbers(&mut self, numbers: &[usize])
        requires { length self.old + length (rest_bytes numbers.now) ≤ 64 }
        ensures { self.new ≡ self.old ++ rest_bytes numbers.now }
    {
        for number in numbers {
            self.text(b" ");
            self.number(*number);
        }
        self.text(b"\n");
    }

    // Writes the line over the start of an output, and answers its length.
    fn put(&self, out: &mut [u8]) -> usize
        requires { length self.now ≤ length out.old }
        ensures value { result ≡ length self.now }
        ensures after { out.new ≡ self.now ++ drop result out.old }
    {
        out[..self.len].copy_from_slice(&self.bytes[..self.len]);
        self.len
    }

    // The same, where an output that may be too short for some line is refused, however long this one is.
    fn write(&self, out: &mut [u8]) -> Result<usize, Refusal>
        requires { length self.now ≤ 32 }
        ensures { (result, out.new) ≡ written self.now out.old }
    {
        if out.len() < 32 {
            return Err(Refusal::OutputShort);
        }
        Ok(self.put(out))
    }
}

// Writes how many rules and nodes there are, and answers the length of the line.
pub fn heading_line(rules: usize, nodes: usize, out: &mut [u8]) -> Result<usize, Refusal>
    requires rules { rules ≤ 256 }
    requires nodes { nodes ≤ 4096 }
    ensures { (result, out.new) ≡ written (heading_bytes rules nodes) out.old }
{
    let mut line = Line::new();
    line.text(b"rules ");
    line.number(rules);
    line.text(b" nodes ");
    line.number(nodes);
    line.text(b"\n");
    line.write(out)
}

// Writes a node with the token places from which and to which it reaches, and answers the length of the line. The kind
// is given by its number: a kind itself would take no 0, which this call takes.
pub fn node_line(
    number: usize,
    kind: u8,
    op: u32,
    from: usize,
    to: usize,
    out: &mut [u8],
) -> Result<usize, Refusal>
    requires number { number < 4096 }
    requires kind { kind ≤ 35 }
    requires from { from ≤ 4096 }
    requires to { to ≤ 4096 }
    ensures { (result, out.new) ≡ written (line_bytes number kind op from to) out.old }
{
    let mut line = Line::new();
    line.number(number);
    line.numbers(&[kind as usize, op as usize, from, to]);
    line.write(out)
}

// Writes a refusal, and answers the length of the line. Each cast is to a wider number: the check proves that it loses
// nothing.
pub fn refusal_line(refusal: Refusal, out: &mut [u8; 64]) -> usize
    ensures value { result ≡ length (refusal_bytes refusal) }
    ensures after { out.new ≡ refusal_bytes refusal ++ drop result out.old }
{
    let number = refusal.number() as usize;
    let place = refusal.place();
    let host = refusal.host() as usize;
    let part = refusal.part() as usize;
    let code = refusal.code() as usize;
    let mut line = Line::new();
    line.text(b"refused ");
    line.number(number);
    line.numbers(&[place, host, part, code]);
    line.put(out)
}
