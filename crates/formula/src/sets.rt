// Clauses as sets of literals: whether those of one table stand in another (specs/Sets.antt). A
// clause is given by the words of its literals.
ghost use Rattle.std.specs.Prelude.{◌≡◌, ◌<◌, ◌≤◌, map, length};
ghost use Rattle.words.specs.Lists.{some};
ghost use Rattle.formula.specs.Formula.{literal_of, length_limit};
ghost use Rattle.formula.specs.Machine.{held, mask_of, Masks};
ghost use Rattle.formula.specs.Sheet.{header_words};
ghost use Rattle.formula.specs.Sets.{same_literal, within, same_set, stands, same_clauses, first_lacking};

use crate::rows::ClauseRows;
use crate::{CLAUSES, HEADER_WORDS};

// The literal with this word stands in d.
fn literal_stands(word: u32, d: &[u32]) -> bool
    ensures { result ≡ some (same_literal (literal_of word)) (map literal_of d.now) }
{
    d.contains(&word)
}

// Every literal of c stands in d.
fn clause_within(c: &[u32], d: &[u32]) -> bool
    ensures { result ≡ within (map literal_of c.now) (map literal_of d.now) }
{
    c.iter().all(|word| literal_stands(*word, d))
}

// c and d are the same set of literals.
fn same_set(c: &[u32], d: &[u32]) -> bool
    ensures { result ≡ same_set (map literal_of c.now) (map literal_of d.now) }
{
    clause_within(c, d) && clause_within(d, c)
}

// A bit for each literal, by what is left of its word: clauses with other bits are other sets.
fn mask(clause: &[u32]) -> u64
    ensures { result ≡ mask_of (map literal_of clause.now) }
{
    clause
        .iter()
        .fold(0, |bits, word| bits | (1u64 << (*word % 64)))
}

// The masks of clauses in a table.
fn clause_masks(clauses: ClauseRows<'_>) -> [u64; CLAUSES]
    ensures { Masks clauses.entry.count clauses.entry.cells.now result }
{
    let mut masks = [0; CLAUSES];
    for i in 0..clauses.count {
        masks[i] = mask(clauses.clause(i));
    }
    masks
}

// A clause is, as a set, one of those in a table: masks are compared first.
fn clause_stands(clause: &[u32], clauses: ClauseRows<'_>, masks: &[u64; CLAUSES]) -> bool
    requires { Masks clauses.count clauses.cells.now masks.now }
    ensures { result ≡ some (same_set (map literal_of clause.now)) (held clauses.entry.count clauses.entry.cells.now) }
{
    let own = mask(clause);
    for k in 0..clauses.count {
        if own == masks[k] && same_set(clause, clauses.clause(k)) {
            return true;
        }
    }
    false
}

// The same. Further clauses mostly come behind the others: the clause i of the table, with the same
// number, is looked at first.
fn stands_still(clause: &[u32], i: usize, clauses: ClauseRows<'_>, masks: &[u64; CLAUSES]) -> bool
    requires { Masks clauses.count clauses.cells.now masks.now }
    ensures { result ≡ some (same_set (map literal_of clause.now)) (held clauses.entry.count clauses.entry.cells.now) }
{
    if i < clauses.count && same_set(clause, clauses.clause(i)) {
        return true;
    }
    clause_stands(clause, clauses, masks)
}

// The place in a of its first clause that is, as a set, none of b's.
pub fn first_lacking(a: ClauseRows<'_>, b: ClauseRows<'_>) -> Option<u32>
    ensures { result ≡ first_lacking header_words (held a.entry.count a.entry.cells.now) (held b.entry.count b.entry.cells.now) }
{
    let masks = clause_masks(b);
    let mut place = HEADER_WORDS;
    for i in 0..a.count {
        let clause = a.clause(i);
        if !stands_still(clause, i, b, &masks) {
            return Some(place);
        }
        place += 1 + clause.len() as u32;
    }
    None
}

// Each clause of a is, as a set, one of b's.
fn clauses_stand(a: ClauseRows<'_>, b: ClauseRows<'_>) -> bool
    ensures { result ≡ stands (held a.entry.count a.entry.cells.now) (held b.entry.count b.entry.cells.now) }
{
    first_lacking(a, b).is_none()
}

// Two tables hold the same clauses, each taken as a set.
pub fn same_clauses(a: ClauseRows<'_>, b: ClauseRows<'_>) -> bool
    ensures { result ≡ same_clauses (held a.entry.count a.entry.cells.now) (held b.entry.count b.entry.cells.now) }
{
    clauses_stand(a, b) && clauses_stand(b, a)
}
