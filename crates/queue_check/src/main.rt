//! Runs the queue at plain numbers, at frontier entries and at numbers that count their comparisons,
//! checks what comes out, and prints counts.
#![tactic(auto)]

mod collect;
mod comparisons;
mod counted;
mod drain;
mod mixed;
mod random;
mod refuse;
mod sample;
mod sums;

use collect::check_distinct;
use comparisons::count_comparisons;
use costs::{Amount, Money};
use drain::fill_and_drain;
use frontier::Entry;
use mixed::mix;
use queue::Ranked;
use refuse::fill_up;
use sample::Sample;
use std::alloc::Global;
use std::env;

/// What is quadratic runs at no more elements than this.
const FEW: usize = 1000;

/// The program's argument, or some hundreds.
fn elements(rt: &HostRuntime) -> anyhow::Result<usize> {
    match env::args(rt)?.nth(1) {
        Some(text) => Ok(text.parse::<usize>()?),
        None => Ok(600),
    }
}

/// Mixes puts and takes of one kind of elements, and then drains a full queue of them.
fn run_kind<T: Ranked + Sample>(
    rt: &HostRuntime,
    heap: Global,
    name: &str,
    blank: T,
    n: usize,
    seeds: (u64, u64),
) -> anyhow::Result<()> {
    let mut slots = vec![in heap; blank; n]?;
    let few = mix(heap, &mut slots, n.min(FEW), seeds.0)?;
    println!(rt; "{name}, mixed: {few}")?;
    let all = fill_and_drain(&mut slots, seeds.1);
    println!(rt; "{name}, drained: {all}")?;
    Ok(())
}

fn run(rt: &HostRuntime) -> anyhow::Result<()> {
    let heap = rt.alloc();
    let n = elements(rt)?;
    println!(rt; "elements: {n}")?;
    run_kind(rt, heap, "plain numbers", 0u32, n, (1, 2))?;
    let blank = Entry {
        amount: Money { units: 0 },
        node: 0,
    };
    run_kind(rt, heap, "frontier entries", blank, n, (3, 4))?;
    let refusals = fill_up(heap, n.min(FEW))?;
    println!(rt; "a full queue: {refusals}")?;
    let distinct = check_distinct(heap, n.min(FEW))?;
    println!(rt; "distinct numbers: {distinct}")?;
    let counts = count_comparisons(heap, n)?;
    println!(rt; "comparisons: {counts}")?;
    Ok(())
}

fn main(rt: HostRuntime) -> anyhow::Result<()> {
    run(&rt)
}
