// The sheet's reader: from bytes to the clauses in a table, or to a refusal (paper 01, "The
// sheet"). Beside it the table's rows, and clauses as sets.
#![tactic(auto)]

mod literal;
mod rows;
mod sets;
mod sheet;
mod table;

ghost use Rattle.std.specs.Prelude.{◌≡◌, List, [], ℕ, ◌+◌, ◌*◌, ◌≤◌, ◌<◌, length, get_or, drop, IfOk};
ghost use Rattle.words.specs.Bits.{width};
ghost use Rattle.words.specs.Machine.{bits_of};
ghost use Rattle.formula.specs.Formula.{Clause, clause_limit, literal_of};
ghost use Rattle.formula.specs.Sheet.{words, take_number, take_literal, take_literals, take_clause, take_clauses, take_header, parse};
ghost use Rattle.formula.specs.Machine.{cell_count, result_in, kind_number, word_taken, formula_in, Named, LiteralsFit, LiteralsLeft, ClauseFits, ClauseLeft, ClausesFit, ClausesLeft, SheetLeft};

pub use literal::Literal;
pub use rows::ClauseRows;
pub use sets::{first_lacking, same_clauses};
pub use sheet::Sheet;
use words::{Assignment, Reason, Refused};

// The kinds of a word, which are its top two bits; its value is below VALUES.
#[derive(Clone, Copy)]
enum Kind {
    Literal = 0,
    ClauseLength = 1,
    Variables = 2,
    BatchHalf = 3,
}

const VALUES: u32 = 1073741824;

// The limits, as in specs/Sheet.antt and specs/Formula.antt: of a half of the batch number, of n
// (as an assignment has room for), of a clause's length, and of the number of clauses.
const HALF_LIMIT: u32 = 65535;

const VARIABLE_LIMIT: u32 = words::WIDTH;

pub const LENGTH_LIMIT: u32 = 8;

pub const CLAUSE_LIMIT: u32 = 1024;

// The table has a row of cells for each clause (specs/Machine.antt).
pub const ROW_CELLS: usize = 1 + LENGTH_LIMIT as usize;

pub const CELLS: usize = CLAUSE_LIMIT as usize * ROW_CELLS;

// One number for each clause.
pub const CLAUSES: usize = CLAUSE_LIMIT as usize;

// The words before the first clause; the limits of the sheet in words and in bytes.
const HEADER_WORDS: u32 = 3;

const WORD_LIMIT: u32 = HEADER_WORDS + CLAUSE_LIMIT * (1 + LENGTH_LIMIT);

pub const BYTE_LIMIT: usize = 4 * WORD_LIMIT as usize;

// What of a formula stands beside its table: the batch number, the number of variables, and that
// of clauses.
#[derive(Clone, Copy)]
struct Header {
    batch: u32,
    n: u32,
    count: usize,
}

// Word i of a part of the sheet.
pub fn word_at(part: &[u8], i: usize) -> u32
    requires { 4 * i + 3 < length part.now }
    ensures { result ≡ get_or (words part.now) i 0 }
{
    let at = 4 * i;
    u32::from_le_bytes([part[at], part[at + 1], part[at + 2], part[at + 3]])
}

// Takes word i: whoever takes a word names the kind that is due there. A word of that kind yields
// its value.
fn take_word(part: &[u8], i: usize, due: Kind) -> Option<u32>
    requires { 4 * i + 3 < length part.now }
    ensures { result ≡ word_taken (kind_number due) (get_or (words part.now) i 0) }
{
    let w = word_at(part, i);
    if w / VALUES == due as u32 {
        Some(w % VALUES)
    } else {
        None
    }
}

// Takes word i, which stands at `place` in the sheet, as a number with a limit.
fn take_number(part: &[u8], i: usize, due: Kind, limit: u32, place: u32) -> Result<u32, Refused>
    requires { 4 * i + 3 < length part.now }
    ensures number { result_in (λ v. v) result ≡ take_number (kind_number due) limit place (get_or (words part.now) i 0) }
    ensures within { IfOk result (λ v. v ≤ limit) }
{
    let Some(v) = take_word(part, i, due) else {
        return Err(Reason::WrongKind.at(place));
    };
    if limit < v {
        return Err(Reason::AboveLimit.at(place));
    }
    Ok(v)
}

// Takes word i as a literal over the variables 1 to n, in a clause whose variables so far are
// `seen`.
fn take_literal(
    part: &[u8],
    i: usize,
    n: u32,
    seen: Assignment,
    place: u32,
) -> Result<Literal, Refused>
    requires { (4 * i + 3 < length part.now) × (n ≤ width) }
    ensures { (before : Clause) → Named n (bits_of seen) before →
        result_in (λ l. literal_of l.word) result ≡ take_literal n before place (get_or (words part.now) i 0) }
{
    let Some(word) = take_word(part, i, Kind::Literal) else {
        return Err(Reason::WrongKind.at(place));
    };
    let variable = word / 2;
    if variable == 0 || n < variable {
        return Err(Reason::UnknownVariable.at(place));
    }
    let literal = Literal { word };
    if seen.test(literal.bit()) {
        return Err(Reason::RepeatedVariable.at(place));
    }
    Ok(literal)
}

// Reads c literals from word `at` of the part on, into the cells from `from` on.
fn read_literals(
    part: &[u8],
    at: usize,
    n: u32,
    c: u32,
    cells: &mut [u32],
    from: usize,
) -> Result<(), Refused>
    requires { LiteralsFit part.now at n c cells.old from }
    ensures { LiteralsLeft (take_literals n c [] (at + 3) (drop at (words part.now)))
        c from result cells.old cells.new }
{
    let count = part.len() / 4;
    let mut seen = Assignment::zero();
    for j in 0..c {
        let i = at + j as usize;
        let place = i as u32 + 3;
        if count <= i {
            return Err(Reason::TruncatedClause.at(place));
        }
        let literal = take_literal(part, i, n, seen, place)?;
        cells[from + j as usize] = literal.word;
        seen = seen.toggled(literal.bit());
    }
    Ok(())
}

// Reads the clause that starts at word `at` of the part, into row k of the table: its length.
fn read_clause(part: &[u8], at: usize, n: u32, cells: &mut [u32], k: usize) -> Result<u32, Refused>
    requires { ClauseFits part.now at n cells.old k }
    ensures { ClauseLeft
        (take_clause n (at + 3) (get_or (words part.now) at 0) (drop (at + 1) (words part.now)))
        k result cells.old cells.new }
{
    let c = take_number(part, at, Kind::ClauseLength, LENGTH_LIMIT, at as u32 + 3)?;
    let row = ROW_CELLS * k;
    cells[row] = c;
    read_literals(part, at + 1, n, c, cells, row + 1)?;
    Ok(c)
}

// Reads clauses to the end of the part, into the rows of the table: their number. The step from one
// to the next is by its length.
fn read_clauses(part: &[u8], n: u32, cells: &mut [u32]) -> Result<usize, Refused>
    requires { ClausesFit part.now n cells.old }
    ensures { ClausesLeft (take_clauses n clause_limit 3 (words part.now)) result cells.new }
{
    let count = part.len() / 4;
    let mut at: usize = 0;
    let mut k: usize = 0;
    while at < count {
        if k == CLAUSES {
            // one clause too many: a wrong kind goes first
            let place = at as u32 + 3;
            let Some(_) = take_word(part, at, Kind::ClauseLength) else {
                return Err(Reason::WrongKind.at(place));
            };
            return Err(Reason::AboveLimit.at(place));
        }
        let c = read_clause(part, at, n, cells, k)?;
        at += 1 + c as usize;
        k += 1;
    }
    Ok(k)
}

// Reads the header alone: the halves of the batch number, and n; no clause yet.
fn read_header(sheet: &[u8]) -> Result<Header, Refused>
    requires { 12 ≤ length sheet.now }
    ensures header { (cells : List ℕ) → result_in (λ h. formula_in h cells) result ≡ take_header (words sheet.now) }
    ensures small { IfOk result (λ h. h.n ≤ width) }
{
    let high = take_number(sheet, 0, Kind::BatchHalf, HALF_LIMIT, 0)?;
    let low = take_number(sheet, 1, Kind::BatchHalf, HALF_LIMIT, 1)?;
    let n = take_number(sheet, 2, Kind::Variables, VARIABLE_LIMIT, 2)?;
    Ok(Header {
        batch: 65536 * high + low,
        n,
        count: 0,
    })
}

// Reads any bytes as a sheet, its clauses into the rows of the table.
fn read_into(sheet: &[u8], cells: &mut [u32]) -> Result<Header, Refused>
    requires { length cells.old ≡ cell_count }
    ensures { SheetLeft (parse sheet.now) result cells.new }
{
    if BYTE_LIMIT < sheet.len() {
        return Err(Reason::AboveLimit.at(WORD_LIMIT));
    }
    if sheet.len() % 4 != 0 {
        return Err(Reason::RaggedLength.at(0));
    }
    if sheet.len() < 12 {
        return Err(Reason::ShortHeader.at(0));
    }
    let mut header = read_header(sheet)?;
    header.count = read_clauses(&sheet[12..], header.n, cells)?;
    Ok(header)
}
