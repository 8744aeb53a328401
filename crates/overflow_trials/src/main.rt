// Document 02, M-105: the trials of large values through the proved calls, a line each with what came out and whether that is what is stated.
#![tactic(auto)]

use std::io;

// A line's end. `trials` has the same words: no program can call another's functions, and a crate for these words alone is no plainer.
fn ending(stated: bool) -> &'static str {
    if stated { "as stated" } else { "NOT AS STATED" }
}

// Splits a value: its pages, the bytes of its cell, and the numbers that stand in page 0.
fn split_trial(
    rt: &impl Print,
    label: &str,
    value: &[u8],
    pages: usize,
    cell: usize,
    numbers: u8,
) -> io::Result<()> {
    let mut area = [0xeeu8; 65536];
    let reply = overflow_split::split(value, &[9u8; 32], &[7u32; 16], &mut area);
    let first = area[0];
    let counted = (reply.pages == pages) & (reply.cell_len == cell);
    let stated = ending((reply.refusal == 0) & (counted & (first == numbers)));
    println!(rt;
        "{label:<17}pages {}, cell of {}, numbers in page 0: {first}   {stated}",
        reply.pages, reply.cell_len
    )
}

// The page count of so many bytes.
fn pages_trial(
    rt: &impl Print,
    label: &str,
    len: usize,
    pages: usize,
    refusal: u8,
) -> io::Result<()> {
    let reply = overflow::pages(len);
    let stated = ending((reply.pages == pages) & (reply.refusal == refusal));
    println!(rt;
        "{label:<17}pages {}, refusal {}   {stated}",
        reply.pages, reply.refusal
    )
}

fn main(rt: HostRuntime) -> io::Result<()> {
    split_trial(&rt, "4,092 bytes", &[5u8; 4092], 1, 44, 0)?;
    split_trial(&rt, "4,093 bytes", &[5u8; 4093], 2, 48, 0)?;
    split_trial(&rt, "61,380 bytes", &[5u8; 61380], 15, 100, 0)?;
    split_trial(&rt, "61,381 bytes", &[5u8; 61381], 16, 100, 1)?;
    pages_trial(&rt, "1,048,576 bytes", 1048576, 257, 0)?;
    pages_trial(&rt, "1,048,577 bytes", 1048577, 0, 21)
}
