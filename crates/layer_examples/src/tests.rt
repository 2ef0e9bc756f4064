// The layers in their stage, by rows that were counted by hand; and that memory is found where there is plenty, which
// no clause says.

use crate::end::End;
use crate::staged::{Examples, Task};
use crate::total::Table;
use crate::world::World;
use stage_form::{Outcome, run};
use std::test::Fail;
use tl_base::{Budget, Bytes, MemSink, Sink, Text};

// Each number but zero is nested so deep, and comes to itself. To begin a total, to ask, and to nest are free: only the
// loop of the innermost task and its one turn pay, two units for each number. A number above 250 is asked for as 250. A
// zero is raised, and ends the total.
#[test]
fn questions_are_free(rt: HostRuntime) -> Result<(), Fail> {
    let rows = [
        ([3u64, 2, 1], 6u64, Some(End::Done(106)), 0u64, 1u64),
        ([300, 200, 100], 7, Some(End::Done(650)), 1, 1),
        ([3, 0, 1], 6, Some(End::Raised(0)), 4, 0),
        ([3, 2, 1], 5, None, 0, 0),
        ([3, 2, 1], 0, None, 0, 0),
    ];
    let table = Table { largest: 250 };
    let stage = Examples { table: &table };
    for (numbers, units, sum, left, totals) in rows {
        let mut world = World {
            numbers: Vec::from_array(rt.alloc(), numbers)?,
            totals: 0,
            given: 0,
        };
        let mut budget = Budget::new(units);
        let outcome = run(
            rt.alloc(),
            &stage,
            Task::SumUp(100),
            &mut world,
            &mut budget,
        )?;
        let mut end = None;
        if let Outcome::Ends(value) = outcome {
            end = Some(value);
        }
        assert_eq!(rt; end, sum);
        assert_eq!(rt; budget.left(), left);
        assert_eq!(rt; world.totals, totals);
    }
    Ok(())
}

// The sum of two numbers is 1 and 2. It takes one unit for each of five jobs, two for each question, and two for each
// number's nest, 13 in all. With fewer it stops before the first payment that isn't covered, and what is left stays.
#[test]
fn sums_pay_and_ask(rt: HostRuntime) -> Result<(), Fail> {
    let rows = [
        (13u64, Some(End::Done(3)), 0u64, 2u64),
        (14, Some(End::Done(3)), 1, 2),
        (12, None, 0, 2),
        (9, None, 1, 1),
        (4, None, 0, 0),
        (3, None, 1, 0),
    ];
    let table = Table { largest: 0 };
    let stage = Examples { table: &table };
    for (units, sum, left, given) in rows {
        let mut world = World {
            numbers: Vec::new(rt.alloc()),
            totals: 0,
            given: 0,
        };
        let mut budget = Budget::new(units);
        let outcome = run(rt.alloc(), &stage, Task::Add(2), &mut world, &mut budget)?;
        let mut end = None;
        if let Outcome::Ends(value) = outcome {
            end = Some(value);
        }
        assert_eq!(rt; end, sum);
        assert_eq!(rt; budget.left(), left);
        assert_eq!(rt; world.given, given);
    }
    Ok(())
}

#[test]
fn memory_for_texts_is_found(rt: HostRuntime) -> Result<(), Fail> {
    for (count, fits) in [(0usize, true), (65_535, true), (65_536, false)] {
        let bytes = vec![in rt.alloc(); b'a'; count]?;
        assert_eq!(rt; Text::new(rt.alloc(), &bytes)?.is_some(), fits);
    }
    let mut text = Bytes::new(rt.alloc());
    text.push_all(b"ab")?;
    text.push_all(b"c")?;
    assert!(rt; text.as_slice() == b"abc".as_slice());
    Ok(())
}

#[test]
fn memory_for_a_sink_is_found(rt: HostRuntime) -> Result<(), Fail> {
    let mut sink = MemSink::new(rt.alloc(), 2, Vec::new(rt.alloc()))?;
    assert_eq!(rt; sink.write(b"abc"), Ok(2));
    assert!(rt; sink.bytes() == b"ab".as_slice());
    Ok(())
}
