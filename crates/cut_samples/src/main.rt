// Cuts sample rows: prints the marks of a row, and for each of its cuts the set, the number of bundles and the allowance, and the share
// or where the cut was stopped, with its partition and the number of growth partitions, or the refusal.
#![tactic(auto)]

use cut::{Cutting, Figure, Partition};
use sheet::{Mark, Row, Sheet};
use std::io;

// An allowance that no cut exceeds.
const ENOUGH: u32 = growth::MOST;

// All items.
const ALL: u16 = Sheet::SETS - 1;

fn main(rt: HostRuntime) -> io::Result<()> {
    sample_g(&rt, [1, 2, 3, 4, 5, 6, 7, 0, 0, 0, 0, 0])?;
    sample_h(&rt, [2, 2, 2, 2, 0, 0, 0, 0, 0, 0, 0, 0])?;
    five_items(&rt, [3, 3, 2, 2, 2, 0, 0, 0, 0, 0, 0, 0])?;
    greatest(&rt, [Sheet::GREATEST_MARK as Mark; Sheet::ITEMS])?;
    first_player(
        &rt,
        [
            1017003, 1024999, 1011999, 1000999, 1002000, 1022000, 1003000, 1028000, 1011000,
            1000000, 1021000, 1023000,
        ],
    )
}

// Sample g of document 01, which has 365 growth partitions; a set with gaps.
fn sample_g(rt: &impl Print, row: Row) -> io::Result<()> {
    show_row(rt, row)?;
    show(rt, row, 127, 3, ENOUGH)?;
    show(rt, row, 85, 2, ENOUGH)?;
    allowances(rt, row)?;
    refusals(rt, row)
}

// Allowances up to beyond the growth partitions of sample g.
fn allowances(rt: &impl Print, row: Row) -> io::Result<()> {
    show(rt, row, 127, 3, 1)?;
    show(rt, row, 127, 3, 10)?;
    show(rt, row, 127, 3, 100)?;
    show(rt, row, 127, 3, 364)?;
    show(rt, row, 127, 3, 365)?;
    show(rt, row, 127, 3, 4294967295)
}

// No bundle, seven bundles, an item above the last, both, and no allowance.
fn refusals(rt: &impl Print, row: Row) -> io::Result<()> {
    show(rt, row, 127, 0, 0)?;
    show(rt, row, 127, 7, 0)?;
    show(rt, row, 4096, 6, 0)?;
    show(rt, row, 65535, 1, ENOUGH)?;
    show(rt, row, 65535, 255, ENOUGH)?;
    show(rt, row, 127, 3, 0)
}

// Sample h of document 01.
fn sample_h(rt: &impl Print, row: Row) -> io::Result<()> {
    show_row(rt, row)?;
    show(rt, row, 15, 2, ENOUGH)
}

// The row on which "heaviest piece to the lightest pile" gives 5; no item, and one.
fn five_items(rt: &impl Print, row: Row) -> io::Result<()> {
    show_row(rt, row)?;
    show(rt, row, 31, 2, ENOUGH)?;
    show(rt, row, 0, 2, ENOUGH)?;
    show(rt, row, 4, 6, ENOUGH)
}

// Twelve items at the greatest mark.
fn greatest(rt: &impl Print, row: Row) -> io::Result<()> {
    show_row(rt, row)?;
    show(rt, row, ALL, 1, ENOUGH)?;
    show(rt, row, ALL, 5, ENOUGH)?;
    show(rt, row, ALL, 6, ENOUGH)
}

// The first player of document 000, section 2.
fn first_player(rt: &impl Print, row: Row) -> io::Result<()> {
    show_row(rt, row)?;
    show(rt, row, ALL, 3, ENOUGH)
}

// A text and a number behind it, in a write each.
fn print_field(rt: &impl Print, text: &str, n: u64) -> io::Result<()> {
    print!(rt; "{text}")?;
    print!(rt; "{n}")
}

// The marks of a row.
fn show_row(rt: &impl Print, row: Row) -> io::Result<()> {
    print!(rt; "marks")?;
    for mark in &row {
        print_field(rt, " ", u64::from(*mark))?;
    }
    println!(rt;)
}

fn show(
    rt: &impl Print,
    valuation: Row,
    set: u16,
    bundles: usize,
    allowance: u32,
) -> io::Result<()> {
    print_field(rt, "set ", u64::from(set))?;
    print_field(rt, " into ", bundles as u64)?;
    print_field(rt, ", allowed ", u64::from(allowance))?;
    match cut::cut(valuation, set, bundles, allowance) {
        Ok(found) => show_found(rt, found),
        Err(refusal) => {
            print_field(rt, ": refused ", u64::from(refusal.number()))?;
            show_partition(rt, 0, [0; Sheet::ITEMS])
        }
    }
}

fn show_found(rt: &impl Print, found: Cutting) -> io::Result<()> {
    match found.figure {
        Figure::Share(share) => print_field(rt, ": share ", share)?,
        Figure::Stopped(least) => print_field(rt, ": stopped ", least)?,
    }
    show_partition(rt, found.count, found.partition)
}

// How many growth partitions were looked at, and the places of a partition, those not in use too.
fn show_partition(rt: &impl Print, count: u32, partition: Partition) -> io::Result<()> {
    print_field(rt, ", looked at ", u64::from(count))?;
    print!(rt; ", layout")?;
    for bundle in &partition {
        print_field(rt, " ", u64::from(*bundle))?;
    }
    println!(rt;)
}
