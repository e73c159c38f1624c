// Runs the crate `code` over all its small inputs and some large ones: every code by its size and a
// checksum of its words, every volume and floor, every refusal, and the cells that stay as they
// were. expect.py beside src/ works out what it must write, on its own.
#![tactic(auto)]

use engine::NumberReply;
use std::io;
use words::Refused;

// What a table's cells hold before a call, and how many there are.
const BLANK: u16 = 43981;

const CELLS: usize = 4100;

// How many cells are blank.
fn blanks(cells: &[u16]) -> usize {
    cells.iter().filter(|cell| **cell == BLANK).count()
}

// The cells and their order.
fn checksum(cells: &[u16]) -> u64 {
    let mut sum = 0;
    for cell in cells {
        sum = (sum * 31 + u64::from(*cell) + 1) % 1000003;
    }
    sum
}

fn show_written(rt: &impl Print, count: u32, cells: &[u16]) -> io::Result<()> {
    let n = count as usize;
    if n <= cells.len() {
        let sum = checksum(&cells[..n]);
        let blank = blanks(&cells[n..]);
        print!(rt; " words {count} sum {sum} blank {blank}")?;
    }
    Ok(())
}

fn show_refused(rt: &impl Print, refused: Refused) -> io::Result<()> {
    print!(rt;
        " refused {} place {}",
        refused.reason.number(),
        refused.place
    )
}

fn show_call(rt: &impl Print, t: u32, s: u32, cells: &mut [u16]) -> io::Result<()> {
    print!(rt; " {t} {s}")?;
    match code::code(t, s, cells) {
        Ok(count) => show_written(rt, count, cells),
        Err(refused) => {
            show_refused(rt, refused)?;
            let blank = blanks(cells);
            print!(rt; " blank {blank}")
        }
    }
}

// A call of `code` with a table of n blank cells.
fn show_code(rt: &impl Print, t: u32, s: u32, n: usize) -> io::Result<()> {
    let mut cells = [BLANK; CELLS];
    print!(rt; "code")?;
    if n <= CELLS {
        show_call(rt, t, s, &mut cells[..n])?;
    }
    Ok(())
}

fn show_number(rt: &impl Print, answer: Result<u32, Refused>) -> io::Result<()> {
    match answer {
        Ok(n) => print!(rt; " {n}"),
        Err(refused) => show_refused(rt, refused),
    }
}

// All three operations.
fn show(rt: &impl Print, t: u32, s: u32) -> io::Result<()> {
    show_code(rt, t, s, CELLS)?;
    print!(rt; " volume")?;
    show_number(rt, code::volume(t, s))?;
    print!(rt; " floor")?;
    show_number(rt, code::floor(t, s))?;
    println!(rt)
}

fn radii(rt: &impl Print, t: u32) -> io::Result<()> {
    for s in 0..14 {
        show(rt, t, s)?;
    }
    Ok(())
}

fn lengths(rt: &impl Print) -> io::Result<()> {
    for t in 0..14 {
        radii(rt, t)?;
    }
    Ok(())
}

fn show_table(rt: &impl Print, t: u32, s: u32, n: usize) -> io::Result<()> {
    show_code(rt, t, s, n)?;
    println!(rt)
}

// Tables that are too short, and just long enough; a bad plan comes first.
fn tables(rt: &impl Print) -> io::Result<()> {
    show_table(rt, 1, 0, 0)?;
    show_table(rt, 1, 1, 1)?;
    show_table(rt, 1, 1, 2)?;
    show_table(rt, 3, 1, 7)?;
    show_table(rt, 3, 1, 8)?;
    show_table(rt, 3, 4, 7)?;
    show_table(rt, 12, 12, 4095)?;
    show_table(rt, 12, 12, 4096)
}

fn show_reply(rt: &impl Print, reply: NumberReply) -> io::Result<()> {
    println!(rt; "reply {} {} {}", reply.result, reply.number, reply.place)
}

// The same operations as a C host calls them.
fn replies(rt: &impl Print) -> io::Result<()> {
    let mut cells = [BLANK; CELLS];
    show_reply(rt, engine::covering_code(4, 1, &mut cells))?;
    show_reply(rt, engine::covering_code(4, 5, &mut cells))?;
    show_reply(rt, engine::ball_volume(12, 6))?;
    show_reply(rt, engine::ball_volume(13, 6))?;
    show_reply(rt, engine::covering_floor(4, 1))?;
    show_reply(rt, engine::covering_floor(4, 13))?;
    let sum = checksum(&cells);
    println!(rt; "sum {sum}")
}

fn main(rt: HostRuntime) -> io::Result<()> {
    lengths(&rt)?;
    show(&rt, 4294967295, 0)?;
    show(&rt, 12, 4294967295)?;
    show(&rt, 4294967295, 4294967295)?;
    tables(&rt)?;
    replies(&rt)
}
