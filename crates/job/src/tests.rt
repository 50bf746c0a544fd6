use crate::answer::{Job, JobAnswer};
use crate::fault::Layer;
use crate::run::run;
use layout::{encode_place, six_places};
use search::states::Ended;
use search_model::bound::Bound;
use std::alloc::Global;
use std::process::Abort;
use std::test::Fail;
use table::node::Node;

// The bytes of the sample, with that low estimate at place 2.
fn sample(heap: Global, low: u32) -> Result<Vec<u8>, Fail> {
    let mut records = six_places();
    records[2] = encode_place(false, 3, low, 8, 2);
    Ok(records.as_flattened().to_vec(heap)?)
}

// A job on the sample from place 0.
fn job(
    heap: Global,
    bound: Bound,
    budget: u32,
    table: &mut [Node],
    list: &mut [u32],
) -> Result<Job, Fail> {
    run(sample(heap, 3)?, 0, bound, budget, table, list).map_err(|_| Fail::new("refused"))
}

#[test]
fn settled(rt: HostRuntime) -> Result<(), Fail> {
    let mut table = [Node::blank(); 6];
    let mut list = [9; 7];
    let job = job(rt.alloc(), Bound { a: 2, b: 1 }, 9, &mut table, &mut list)?;
    let JobAnswer::Settled(_, report, (places, cost)) = job.answer else {
        return Err(Fail::new("not settled"));
    };
    assert_eq!(rt; places, 4);
    assert_eq!(rt; cost, 7);
    assert_eq!(rt; report.total, 3);
    assert_eq!(rt; report.low_mark, Some(4));
    assert_eq!(rt; list, [0, 1, 3, 5, 9, 9, 9]);
    Ok(())
}

// After more the search goes on over the floor that the job hands on.
#[test]
fn goes_on(rt: HostRuntime) -> Result<(), Fail> {
    let mut table = [Node::blank(); 6];
    let mut list = [9; 6];
    let Job { floor, answer } = job(rt.alloc(), Bound { a: 1, b: 1 }, 1, &mut table, &mut list)?;
    assert_eq!(rt; list, [9; 6]);
    let JobAnswer::More(running, _) = answer else {
        return Err(Fail::new("not more"));
    };
    let Ok(Ended::Settled(settled, report)) = running.advance_to_end(&floor, &mut table) else {
        return Err(Fail::new("not settled"));
    };
    assert_eq!(rt; report.low_mark, Some(6));
    assert!(rt; settled.read(&floor, &table, &mut list).is_ok());
    assert_eq!(rt; list, [0, 2, 4, 5, 9, 9]);
    Ok(())
}

// A job with its low estimate at place 2, and by which layer, number and record it is turned down.
#[derive(Clone, Copy)]
struct Case {
    low: u32,
    start: u32,
    bound: Bound,
    budget: u32,
    fault: (Layer, u32, usize),
}

// Turned down so, with the layout handed back and the list untouched.
fn refuses(rt: &impl Abort, heap: Global, case: Case, list: &mut [u32]) -> Result<(), Fail> {
    let Case {
        low,
        start,
        bound,
        budget,
        fault,
    } = case;
    let mut table = [Node::blank(); 6];
    let Err(refused) = run(sample(heap, low)?, start, bound, budget, &mut table, list) else {
        return Err(Fail::new("accepted"));
    };
    let told = refused.fault;
    assert_eq!(rt; (told.layer(), told.number(), told.record()), fault);
    assert_eq!(rt; table[0].kept.mark, 0);
    assert!(rt; refused.layout.as_slice() == sample(heap, low)?.as_slice());
    Ok(())
}

// Each question is the first that is answered no: what fails it is put right from case to case.
#[test]
fn refusals(rt: HostRuntime) -> Result<(), Fail> {
    let mut list = [9; 5];
    let first = Case {
        low: 6,
        start: 6,
        bound: Bound { a: 2, b: 3 },
        budget: 65_536,
        fault: (Layer::Layout, 9, 10),
    };
    let second = Case {
        low: 5,
        fault: (Layer::Search, 31, 0),
        ..first
    };
    let third = Case {
        start: 5,
        fault: (Layer::Search, 32, 0),
        ..second
    };
    let fourth = Case {
        bound: Bound { a: 2, b: 1 },
        fault: (Layer::Search, 35, 0),
        ..third
    };
    let fifth = Case {
        budget: 65_535,
        fault: (Layer::Search, 38, 0),
        ..fourth
    };
    for case in [first, second, third, fourth, fifth] {
        refuses(&rt, rt.alloc(), case, &mut list)?;
    }
    assert_eq!(rt; list, [9; 5]);
    Ok(())
}
