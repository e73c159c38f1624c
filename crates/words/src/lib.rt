// The bits of an assignment and of a set of variables, the records that every layer above shares,
// and small functions of numbers.
#![tactic(auto)]

ghost use Rattle.std.specs.Prelude.{◌≡◌, not, ◌&&◌, ◌||◌, ℕ, ◌+◌, ◌*◌, ◌^◌, ◌<◌, length};
ghost use Rattle.words.specs.Bits.{bit, toggle, width, from_words, word_at};
ghost use Rattle.words.specs.Refusals.{number_of};
ghost use Rattle.words.specs.Machine.{bits_of, set_of, word_count, FirstDifference, Meets};

// How many variables an assignment has room for (specs/Bits.antt).
pub const WIDTH: u32 = 128;

// The bits of a word.
const BITS: u32 = 32;

// The bits of half an assignment.
const HALF: u32 = 64;

// The words of an assignment, which a host in C lends as an array.
pub const WORDS: usize = (WIDTH / BITS) as usize;

// An assignment: bit v - 1 belongs to variable v.
#[derive(Clone, Copy, PartialEq, Eq)]
pub struct Assignment {
    pub bits: u128,
}

// A set of variables: those whose bit is 1.
pub type Set = Assignment;

// Why an input is declined: the rows of the paper's table of refusals, by their numbers.
#[derive(Clone, Copy, PartialEq, Eq, Debug)]
pub enum Reason {
    RaggedLength = 1,
    ShortHeader = 2,
    WrongKind = 3,
    TruncatedClause = 4,
    AboveLimit = 5,
    UnknownVariable = 6,
    RepeatedVariable = 7,
    BadPlan = 8,
    ShortTable = 9,
    NoSuchVariable = 10,
    OtherSearch = 11,
    Finished = 12,
    ClauseDropped = 13,
    ShortList = 14,
}

impl Reason {
    pub fn number(self) -> u32
        ensures { result ≡ number_of self }
    {
        self as u32
    }

    // An input is declined for this reason, at a place.
    pub fn at(self, place: u32) -> Refused
        ensures { result ≡ record { reason = self; place = place } }
    {
        Refused {
            reason: self,
            place,
        }
    }
}

// An input that is declined: why, and at which place.
#[derive(Clone, Copy, PartialEq, Eq, Debug)]
pub struct Refused {
    pub reason: Reason,
    pub place: u32,
}

// A refusal as a reply tells it: its number, which need not be a reason's, and its place.
#[derive(Clone, Copy, PartialEq, Eq, Debug)]
pub struct Refusal {
    pub number: u32,
    pub place: u32,
}

impl From<Refused> for Refusal {
    ghost from_gives = { λ why refusal. refusal ≡ record { number = number_of why.reason; place = why.place } };

    fn from(why: Refused) -> Refusal {
        Refusal {
            number: why.reason.number(),
            place: why.place,
        }
    }
}

impl Assignment {
    // No variable is set.
    pub fn zero() -> Assignment
        ensures { bits_of result ≡ 0 }
    {
        Assignment { bits: 0 }
    }

    // From the words that a host lent, the lowest first,
    pub fn from_words(words: &[u32]) -> Assignment
        requires { length words.now ≡ word_count }
        ensures { bits_of result ≡ from_words words.now }
    {
        Assignment {
            bits: words
                .iter()
                .rev()
                .fold(0, |bits: u128, word| bits << BITS | u128::from(*word)),
        }
    }

    // and into them.
    pub fn store(self, words: &mut [u32])
        requires { length words.old ≡ word_count }
        ensures { from_words words.new ≡ bits_of self }
    {
        for (i, word) in words.iter_mut().enumerate() {
            *word = self.word(i as u32);
        }
    }

    // Word i.
    pub fn word(self, i: u32) -> u32
        requires { i < word_count }
        ensures { result ≡ word_at (bits_of self) i }
    {
        ((self.bits >> (BITS * i)) % (1u128 << BITS)) as u32
    }

    // The bit of variable v + 1 is looked up and toggled in its half: by a shift of 128 bits each call
    // of the ball search takes some 5 % longer.
    pub fn test(self, v: u32) -> bool
        requires { v < width }
        ensures { result ≡ bit (bits_of self) v }
    {
        let above = if v < HALF {
            self.bits
        } else {
            self.bits >> HALF
        };
        let half = (above % (1u128 << HALF)) as u64;
        (half >> (v % HALF)) % 2 == 1
    }

    pub fn toggled(self, v: u32) -> Assignment
        requires { v < width }
        ensures { bits_of result ≡ toggle (bits_of self) v }
    {
        let own = u128::from(1u64 << (v % HALF));
        let change = if v < HALF { own } else { own << HALF };
        Assignment {
            bits: self.bits ^ change,
        }
    }

    pub fn united(self, other: Set) -> Set
        ensures { (v : ℕ) → v < width → bit (set_of result) v ≡ (bit (set_of self) v || bit (set_of other) v) }
    {
        Set {
            bits: self.bits | other.bits,
        }
    }

    pub fn without(self, other: Set) -> Set
        ensures { (v : ℕ) → v < width → bit (set_of result) v ≡ (bit (set_of self) v && not (bit (set_of other) v)) }
    {
        Set {
            bits: self.bits & !other.bits,
        }
    }

    pub fn meets(self, other: Set) -> bool
        ensures { Meets (set_of self) (set_of other) result }
    {
        self.bits & other.bits != 0
    }

    // The lowest bit in which the two differ, or WIDTH where they are the same.
    pub fn first_difference(self, other: Assignment) -> u32
        ensures { FirstDifference width (bits_of self) (bits_of other) result }
    {
        u128::trailing_zeros(self.bits ^ other.bits)
    }

    // The bits of word above the lowest `shift` bits, which are self's.
    pub fn joined(self, word: u32, shift: u32) -> Assignment
        requires { (shift < width) × (bits_of self < 2 ^ shift) × (word * 2 ^ shift + bits_of self < 2 ^ width) }
        ensures { bits_of result ≡ word * 2 ^ shift + bits_of self }
    {
        Assignment {
            bits: self.bits | (u128::from(word) << shift),
        }
    }
}
