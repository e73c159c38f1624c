// Reads named sheets from standard input and prints what the reader says of each, one line a
// sheet. `expect.py` makes both the input and the output that is expected.
#![tactic(auto)]

ghost use Rattle.std.specs.Prelude.{◌<◌};

use formula::Sheet;
use std::io::{ErrorKind, Read};
use std::{fmt, io};

// A literal by its word, as the paper writes it: the variable, with a minus where it is negative.
#[derive(Clone, Copy)]
struct Literal(u32);

impl fmt::Display for Literal {
    fn fmt<W: fmt::Write>(&self, f: &mut fmt::Formatter<W>) -> fmt::Result {
        if self.0 % 2 == 1 {
            f.write_str("-")?;
        }
        write!(f, "{}", self.0 / 2)
    }
}

// The words of a clause's literals, in brackets.
#[derive(Clone, Copy)]
struct Clause<'a>(&'a [u32]);

impl fmt::Display for Clause<'_> {
    fn fmt<W: fmt::Write>(&self, f: &mut fmt::Formatter<W>) -> fmt::Result {
        f.write_str("(")?;
        for (j, word) in self.0.iter().enumerate() {
            if 0 < j {
                f.write_str(" ")?;
            }
            write!(f, "{}", Literal(*word))?;
        }
        f.write_str(")")
    }
}

// Goes on with a sum in which the order counts. Wrapping, so that no bound is carried along: no sum
// reaches the modulus.
fn add(sum: u64, cell: u32) -> u64
    ensures { result < 1000003 }
{
    sum.wrapping_mul(31).wrapping_add(u64::from(cell)) % 1000003
}

// What is said of an accepted sheet: its numbers, its clauses where they are at most 8, and the sum
// over the lengths and the literals of all of them.
#[derive(Clone, Copy)]
struct Accepted<'a>(&'a Sheet);

impl fmt::Display for Accepted<'_> {
    fn fmt<W: fmt::Write>(&self, f: &mut fmt::Formatter<W>) -> fmt::Result {
        let sheet = self.0;
        write!(f, "accepted batch {} n {}", sheet.batch, sheet.n)?;
        write!(f, " clauses {}", sheet.count)?;
        let mut sum = 0;
        for i in 0..sheet.count {
            let clause = sheet.clause(i);
            let length = add(sum, clause.len() as u32);
            sum = clause.iter().fold(length, |sum, word| add(sum, *word));
            if sheet.count <= 8 {
                write!(f, " {}", Clause(clause))?;
            }
        }
        write!(f, " sum {sum}")
    }
}

fn print_reading(rt: &impl Print, bytes: &[u8]) -> io::Result<()> {
    let mut sheet = Sheet::empty();
    match sheet.read(bytes) {
        Ok(()) => println!(rt; "{}", Accepted(&sheet)),
        Err(why) => println!(rt; "refused {} place {}", why.reason.number(), why.place),
    }
}

// Whether the input has as many bytes more as the part holds, which go there.
fn read_part(reader: &mut impl Read, part: &mut [u8]) -> io::Result<bool> {
    match reader.read_exact(part) {
        Ok(()) => Ok(true),
        Err(e) if e.kind() == ErrorKind::UnexpectedEof => Ok(false),
        Err(e) => Err(e),
    }
}

// The next sheet: 28 bytes of name, its length in two bytes, the low one first, and its bytes.
fn next(rt: &impl Print, reader: &mut impl Read) -> io::Result<bool> {
    let mut name = [0u8; 28];
    let mut length = [0u8; 2];
    let mut buffer = [0u8; 65536];
    if !read_part(reader, &mut name)? || !read_part(reader, &mut length)? {
        return Ok(false);
    }
    let sheet = &mut buffer[..usize::from(u16::from_le_bytes(length))];
    if !read_part(reader, sheet)? {
        return Ok(false);
    }
    rt.write_all(&name)?;
    print_reading(rt, sheet)?;
    Ok(true)
}

fn main(rt: HostRuntime) -> io::Result<()> {
    let mut reader = rt.reader();
    for _ in 0..1000 {
        if !next(&rt, &mut reader)? {
            break;
        }
    }
    Ok(())
}
