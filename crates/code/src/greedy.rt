// The greedy construction of a covering code: the gain of every word is kept, and lowered as words
// get covered.
ghost use Rattle.std.specs.Prelude.{◌≡◌, not, true, ℕ, ◌^◌, ◌≤◌, ◌<◌, length, get_or, take, replicate};
ghost use Rattle.words.specs.Lists.{keep, span};
ghost use Rattle.code.specs.Code.{near, best};
ghost use Rattle.code.specs.Operations.{block_limit};
ghost use Rattle.code.specs.Machine.{code_cells, peak, flagged, listed, Counts, Lowerable, Lowered, Filled};

use crate::{CELLS, Plan};

// The number of words of length t.
pub fn power(t: u32) -> usize
    requires { t ≤ block_limit }
    ensures { (result ≡ 2 ^ t) × (result ≤ code_cells) }
{
    1usize << t
}

// The ball around 0: the words below n of at most s bits, ascending, written to the first cells.
fn list_ball(ball: &mut [u16], n: usize, s: u32) -> usize
    requires { (n ≤ length ball.old) × (n ≤ 65536) }
    ensures { (result ≤ length ball.new) × (take result ball.new ≡ keep (near s 0) (span 0 n)) }
{
    let mut m = 0;
    for x in 0..n {
        if x.count_ones() <= s {
            ball[m] = x as u16;
            m += 1;
        }
    }
    m
}

// The largest gain. From 0 on, and not from the first gain as `max` goes: so the machine takes them
// all several at a time, from where the array begins.
fn top(gains: &[u16]) -> u16
    ensures { result ≡ peak (λ v. get_or gains.now v 0) (length gains.now) }
{
    gains.iter().fold(0, |most, gain| most.max(*gain))
}

// The first word whose gain is `most`.
fn place(gains: &[u16], most: u16) -> usize
    ensures { (b : ℕ) → b < length gains.now → get_or gains.now b 0 ≡ most →
        ((v : ℕ) → v < b → get_or gains.now v 0 ≡ most → ⊥) → result ≡ b }
{
    gains.iter().position(|gain| *gain == most).unwrap_or(0)
}

// The word that joins next: the first of those of the largest gain. Two passes, since the machine
// can make the first of them on several words at a time.
fn best(gains: &[u16]) -> usize
    requires { 0 < length gains.now }
    ensures { result ≡ best (λ v. get_or gains.now v 0) (length gains.now) }
{
    place(gains, top(gains))
}

// The gains of the words of the ball around x, one less each.
fn lower(ball: &[u16], gains: &mut [u16], x: usize)
    requires { Lowerable ball.now x gains.old }
    ensures { Lowered ball.now x gains.old gains.new }
{
    for offset in ball {
        let w = x ^ usize::from(*offset);
        gains[w] -= 1;
    }
}

// The word w joins: the words of its ball are covered now, and each that was not before lowers the
// gains around it.
fn cover(ball: &[u16], gains: &mut [u16], left: &mut [bool], w: usize)
    requires counts_2 { Counts ball.now gains.old left.old }
    requires w_in_bounds { w < length left.old }
    ensures counts { Counts ball.now gains.new left.new }
    ensures left { flagged left.new ≡
        keep (λ x. not (listed ball.now w x)) (flagged left.old) }
{
    for offset in ball {
        let x = w ^ usize::from(*offset);
        if left[x] {
            left[x] = false;
            lower(ball, gains, x);
        }
    }
}

// The code of a plan in the first cells of the table; the number of its words.
pub fn fill(plan: Plan, table: &mut [u16]) -> usize
    requires { 2 ^ plan.size ≤ length table.old }
    ensures { Filled plan.size plan.radius result table.old table.new }
{
    let n = power(plan.size);
    let mut ball_cells = [0; CELLS];
    let size = list_ball(&mut ball_cells, n, plan.radius);
    let ball: &[u16] = &ball_cells[..size];
    let mut gain_cells = [size as u16; CELLS];
    let gains: &mut [u16] = &mut gain_cells[..n];
    let mut flag_cells = [true; CELLS];
    let left: &mut [bool] = &mut flag_cells[..n];
    let mut count = 0;
    // no `for`: how many words the code has is known when no word is left to cover
    loop {
        let w = best(gains);
        if gains[w] == 0 {
            return count;
        }
        table[count] = w as u16;
        count += 1;
        cover(ball, gains, left, w);
    }
}
