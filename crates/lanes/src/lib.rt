// The arithmetic of the lanes (R2.1): 32 results by value, and all flags or-ed (R7.1).
#![tactic(auto)]

ghost use Rattle.std.specs.Prelude.{◌≡◌, cond, get_or};
ghost use Rattle.evex.specs.Bits.{is_set};
ghost use Rattle.machine.specs.Lanes.{rounded, operated};
ghost use Rattle.sources.specs.Work.{every_lane};
ghost use Rattle.lanes.specs.Work.{lanes_of, results_by, results_where, picked_at, Serves};

use evex::Operation;
use half::choice::either;
use half::comparison::{GT_OS, LT_OS, Predicate};
use half::{Outcome, comparison, fused, product, quotient, root, sum};
use machine::Environment;
use sources::mask::{end_of, has};

pub mod control;

// 0 in lanes that are off. `joined` has all of them or-ed: of a scalar instruction the one that it has, without a look into the array.
#[derive(Clone, Copy)]
pub struct Results {
    pub halves: [u16; 32],
    pub joined: u16,
    pub flags: u8,
}

// Halves, 0 in lanes that are off, and all of them or-ed.
#[derive(Drop)]
struct Lanes {
    halves: [u16; 32],
    joined: u16,
}

// By what an operation picks one of two halves, or its answer, 1 or 0, where it compares.
#[derive(Clone, Copy)]
struct Picking {
    predicate: Predicate,
    compares: bool,
}

// One element: d is the destination's, f the first source's, x the second's. A line for each operation.
#[tactic(auto, unfolding(machine::specs::Lanes::operated))]
fn operate(operation: Operation, e: Environment, d: u16, f: u16, x: u16) -> Outcome
    ensures { rounded result ≡ operated operation e d f x }
{
    let mode = e.mode;
    let ue = e.underflow;
    match operation {
        Operation::Add => sum::add(mode, ue, f, x),
        Operation::Multiply => product::multiply(mode, ue, f, x),
        Operation::Subtract => sum::subtract(mode, ue, f, x),
        Operation::Divide => quotient::divide(mode, ue, f, x),
        Operation::SquareRoot => root::square_root(mode, ue, x),
        Operation::Fused132 => fused::multiply_add(mode, ue, d, x, f),
        Operation::Fused213 => fused::multiply_add(mode, ue, f, d, x),
        Operation::Fused231 => fused::multiply_add(mode, ue, f, x, d),
        Operation::Minimum => comparison::minimum(f, x),
        Operation::Maximum => comparison::maximum(f, x),
        Operation::Compare => comparison::compare(e.immediate as u32, f, x),
    }
}

// This loop and those below go by the lane's number, which up to four arrays and the mask share: zipped iterators are no plainer.
fn one_by_one(
    on: u32,
    operation: Operation,
    e: Environment,
    d: [u16; 32],
    f: [u16; 32],
    x: [u16; 32],
) -> Results
    ensures { result ≡ results_where (is_set on) operation e (record { destination = d; first = f; second = x }) }
{
    let mut halves = [0u16; 32];
    let mut joined = 0u16;
    let mut flags = 0u8;
    let end = end_of(on);
    for j in 0..end {
        if !has(on, j) {
            continue;
        }
        let r = operate(operation, e, d[j], f[j], x[j]);
        halves[j] = r.half;
        joined |= r.half;
        flags |= r.flags;
    }
    Results {
        halves,
        joined,
        flags,
    }
}

// All 32 lanes, whatever is on.
fn whole_vector(p: Picking, f: [u16; 32], x: [u16; 32]) -> Results
    ensures { result ≡ results_by every_lane (picked_at p f x) }
{
    let mut halves = [0u16; 32];
    let mut joined = 0u16;
    let mut flags = 0u8;
    for j in 0..32 {
        let r = comparison::picked(p.predicate, p.compares, f[j], x[j]);
        halves[j] = r.half;
        joined |= r.half;
        flags |= r.flags;
    }
    Results {
        halves,
        joined,
        flags,
    }
}

fn only_on(on: u32, halves: [u16; 32]) -> Lanes
    ensures { result ≡ lanes_of (is_set on) (λ j. get_or halves j 0) }
{
    let mut lanes = [0u16; 32];
    let mut joined = 0u16;
    for j in 0..32 {
        let half = either(has(on, j), halves[j], 0);
        lanes[j] = half;
        joined |= half;
    }
    Lanes {
        halves: lanes,
        joined,
    }
}

// Lanes that are off are computed with zeros, which raise nothing, and what they give is dropped.
fn all_at_once(on: u32, p: Picking, f: [u16; 32], x: [u16; 32]) -> Results
    ensures { result ≡ results_by (is_set on) (picked_at p f x) }
{
    if on == u32::MAX {
        return whole_vector(p, f, x);
    }
    let first = only_on(on, f);
    let second = only_on(on, x);
    let a = first.halves;
    let b = second.halves;
    let all = whole_vector(p, a, b);
    let every = all.halves;
    let left = only_on(on, every);
    let halves = left.halves;
    Results {
        halves,
        joined: left.joined,
        flags: all.flags,
    }
}

// What the operation picks by, where all 32 lanes at once, in vector instructions, are sooner done than those that are on, one by one: not
// where no lane above 2 is on.
fn way_of(on: u32, operation: Operation, e: Environment) -> Option<Picking>
    ensures { Serves operation e result }
{
    if on < 8 {
        return None;
    }
    match operation {
        Operation::Minimum => Some(Picking {
            predicate: comparison::predicate_of(LT_OS),
            compares: false,
        }),
        Operation::Maximum => Some(Picking {
            predicate: comparison::predicate_of(GT_OS),
            compares: false,
        }),
        Operation::Compare => Some(Picking {
            predicate: comparison::predicate_of(e.immediate as u32),
            compares: true,
        }),
        _ => None,
    }
}

pub fn all_lanes(
    on: u32,
    operation: Operation,
    e: Environment,
    d: [u16; 32],
    f: [u16; 32],
    x: [u16; 32],
) -> Results
    ensures { result ≡ results_where (is_set on) operation e (record { destination = d; first = f; second = x }) }
{
    match way_of(on, operation, e) {
        Some(p) => all_at_once(on, p, f, x),
        None => one_by_one(on, operation, e, d, f, x),
    }
}
