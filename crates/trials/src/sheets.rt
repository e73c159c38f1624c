// The generator of sheets: bytes for the engine, and beside them their clauses for the brute trial.
ghost use Rattle.std.specs.Prelude.{◌≡◌, ◌+◌, ◌*◌, ◌<◌, ◌≤◌, length};

use crate::brute::Clause;

// The bytes of the longest sheet: a header of three words, and nine words for each clause.
const LONGEST: usize = 36876;

const CLAUSES: usize = 1024;

// The literals of the longest clause.
const LITERALS: usize = 8;

// Draws for a clause: enough that of eight variables all eight mostly come.
const DRAWS: u32 = 32;

// A source of numbers (xorshift); its state is never 0.
#[derive(Clone, Copy)]
pub struct Random {
    pub state: u64,
}

impl Random {
    pub fn next(self) -> Random {
        let a = self.state;
        let b = a ^ (a << 13);
        let c = b ^ (b >> 7);
        Random {
            state: c ^ (c << 17),
        }
    }

    // 32 bits.
    fn number(self) -> u32 {
        (self.state >> 32) as u32
    }

    // A number below n.
    pub fn below(self, n: u32) -> u32
        requires { 0 < n }
        ensures { result < n }
    {
        self.number() % n
    }
}

// What is drawn for a sheet before its clauses. Where it is Horn, its clauses have at most one
// positive literal, but for the clause `other`.
#[derive(Clone, Copy)]
pub struct Shape {
    pub random: Random,
    pub horn: bool,
    pub other: u32,
    pub batch: u32,
    pub n: u32,
    pub shortest: u32,
    pub longest: u32,
    pub clauses: u32,
    ghost bounded: { (n ≤ 12) × (shortest ≤ longest) × (longest ≤ 8) × (clauses ≤ 1024) },
}

// Sheets have fewer clauses than this: so many that about half of the sheets have no model.
fn room(n: u32, shortest: u32) -> u32
    requires { shortest ≤ 8 }
    ensures { (0 < result) × (result ≤ 1025) }
{
    let many = n << (shortest + 1);
    if many < 1024 { many + 2 } else { 1025 }
}

impl Shape {
    // Of four sheets two are drawn freely, one is Horn, and one is Horn but for a clause. Those two
    // may have clauses of one literal: without a positive one the assignment 0 meets all.
    pub fn draw(random: Random, number: u32) -> Shape {
        let a = random.next();
        let b = a.next();
        let c = b.next();
        let d = c.next();
        let e = d.next();
        let f = e.next();
        let g = f.next();
        let h = g.next();
        let horn = number % 2 == 1;
        let n = a.below(13).min(b.below(9) + 4);
        let most = if horn { 1 } else { c.below(8) + 1 };
        let shortest = most.min(d.below(9));
        let longest = shortest + e.below(9 - shortest);
        let clauses = f.below(room(n, shortest));
        Shape {
            random: h,
            horn,
            other: if number % 4 == 1 {
                clauses
            } else {
                h.below(clauses + 1)
            },
            batch: g.number(),
            n,
            shortest,
            longest,
            clauses,
        }
    }

    // The most literals of a clause.
    fn draw_length(self, random: Random) -> u32
        ensures { (result ≤ self.n) × (result ≤ 8) }
    {
        let length = self.shortest + random.below(self.longest - self.shortest + 1);
        length.min(self.n)
    }
}

// A clause in the making: its literals as words, and its variables by sign. Where it is Horn, all
// variables after a positive one are negative.
#[derive(Clone, Copy)]
struct Draft {
    random: Random,
    horn: bool,
    clause: Clause,
    words: [u32; LITERALS],
    length: usize,
    ghost short: { length ≤ 8 },
}

impl Draft {
    // A clause of at most `most` literals.
    fn draw(random: Random, horn: bool, n: u32, most: u32) -> Draft
        requires { (n ≤ 12) × (most ≤ n) × (most ≤ 8) }
    {
        let mut draft = Draft {
            random,
            horn,
            clause: Clause {
                positive: 0,
                negative: 0,
            },
            words: [0; LITERALS],
            length: 0,
        };
        for _ in 0..DRAWS {
            draft.draw_literal(n, most as usize);
        }
        draft
    }

    // One literal more, unless the clause has its variable or is long enough.
    fn draw_literal(&mut self, n: u32, most: usize)
        requires { (n ≤ 12) × (most ≤ n) × (most ≤ 8) }
    {
        if most <= self.length {
            return;
        }
        let random = self.random.next();
        self.random = random;
        let v = random.below(n);
        let bit = 1u32 << v;
        let clause = self.clause;
        if (clause.positive | clause.negative) & bit != 0 {
            return;
        }
        let negative = self.horn && clause.positive != 0 || random.state % 2 == 1;
        if negative {
            self.clause.negative = clause.negative | bit;
        } else {
            self.clause.positive = clause.positive | bit;
        }
        self.words[self.length] = 2 * v + 2 + negative as u32;
        self.length += 1;
    }
}

// A sheet, and its clauses.
#[derive(Drop)]
pub struct Sheet {
    bytes: [u8; LONGEST],
    end: usize,
    clauses: [Clause; CLAUSES],
    count: usize,
    ghost fits: { (count ≤ 1024) × (end ≤ 12 + 36 * count) },
}

// Words at the front of the bytes, low byte first.
fn put_words(bytes: &mut [u8], words: &[u32])
    requires { 4 * length words.now ≤ length bytes.old }
{
    for (i, word) in words.iter().enumerate() {
        bytes[4 * i..4 * i + 4].copy_from_slice(&word.to_le_bytes());
    }
}

impl Sheet {
    pub fn new() -> Sheet {
        Sheet {
            bytes: [0; LONGEST],
            end: 0,
            clauses: [Clause {
                positive: 0,
                negative: 0,
            }; CLAUSES],
            count: 0,
        }
    }

    pub fn bytes(&self) -> &[u8] {
        &self.bytes[..self.end]
    }

    pub fn clauses(&self) -> &[Clause] {
        &self.clauses[..self.count]
    }

    // The header, and no clause yet.
    fn begin(&mut self, batch: u32, n: u32)
        requires { n ≤ 12 }
        ensures { self.new.count ≡ 0 }
    {
        let header = [
            3221225472 + batch / 65536,
            3221225472 + batch % 65536,
            2147483648 + n,
        ];
        put_words(&mut self.bytes, &header);
        self.end = 12;
        self.count = 0;
    }

    // One clause more.
    fn push(&mut self, draft: Draft)
        requires { self.old.count < 1024 }
        ensures { self.new.count ≡ self.old.count + 1 }
    {
        let at = self.end;
        let end = at + 4 + 4 * draft.length;
        put_words(
            &mut self.bytes[at..end],
            &[1073741824 + draft.length as u32],
        );
        put_words(&mut self.bytes[at + 4..end], &draft.words[..draft.length]);
        self.clauses[self.count] = draft.clause;
        self.count += 1;
        self.end = end;
    }

    // The sheet of a shape. It gives the source as it is after that.
    pub fn draw(&mut self, shape: Shape) -> Random {
        self.begin(shape.batch, shape.n);
        let mut random = shape.random;
        // The source as it was before a clause that may be repeated.
        let mut again = random;
        for i in 0..shape.clauses {
            let next = random.next();
            let choice = next.below(8);
            let from = if choice == 0 { again } else { next };
            let horn = shape.horn && i != shape.other;
            let draft = Draft::draw(from, horn, shape.n, shape.draw_length(from));
            self.push(draft);
            random = if choice == 0 { next } else { draft.random };
            if choice == 1 {
                again = next;
            }
        }
        random
    }
}
