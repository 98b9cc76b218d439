ghost use Rattle.std.specs.Prelude.{◌≡◌};

use lk_base::NoMemory;
use lk_sets::{Arrow, BitRows, IdSet};
use std::alloc::Global;
use std::process::Abort;
use std::test::Fail;

/// A set that was made has these numbers.
fn check_set(rt: &impl Abort, made: Result<IdSet, NoMemory>, want: &[u32]) -> Result<(), Fail> {
    let set = made?;
    assert!(rt; set.ids() == want);
    Ok(())
}

/// What the sets of 1 and 4, and of 4 and 9, come to.
fn check_both(rt: &impl Abort, set: &IdSet, other: &IdSet) -> Result<(), Fail> {
    assert!(rt; set.has(1) && !set.has(2));
    check_set(rt, set.copy(), &[1, 4])?;
    check_set(rt, set.meet(other), &[4])?;
    check_set(rt, set.union(other), &[1, 4, 9])
}

#[test]
fn a_set_is_sorted_and_meets_and_joins_another(rt: HostRuntime) -> Result<(), Fail> {
    let set = IdSet::from_list(rt.alloc(), &[4, 1, 4])?;
    let other = IdSet::from_list(rt.alloc(), &[4, 9])?;
    check_both(&rt, &set, &other)
}

#[test]
fn an_empty_set_has_no_number(rt: HostRuntime) -> Result<(), Fail> {
    check_set(&rt, Ok(IdSet::empty(rt.alloc())), &[])
}

#[test]
fn a_pair_is_new_once_and_a_row_joins_another(rt: HostRuntime) -> Result<(), Fail> {
    let mut rows = BitRows::new(rt.alloc(), 3)?;
    assert!(rt; rows.put(0, 2) && !rows.put(0, 2));
    assert!(rt; rows.join_row(0, 1) && rows.has(1, 2));
    Ok(())
}

/// A row has these numbers.
fn check_row(
    rt: &impl Abort,
    alloc: Global,
    rows: &BitRows,
    number: u32,
    want: &[u32],
) -> Result<(), Fail> {
    assert!(rt; number < rows.size());
    let row = rows.row(number).collect::<Vec<u32>>(alloc)?;
    assert!(rt; row.as_slice() == want);
    Ok(())
}

/// Puts and joins at both ends of rows with this last number.
fn use_ends(rt: &impl Abort, rows: &mut BitRows, last: u32) {
    assert!(rt; 0 < last && last < rows.size());
    assert!(rt; rows.put(0, last));
    assert!(rt; !rows.put(0, last));
    assert!(rt; rows.next_in_row(0, 0) == Some(last));
    assert!(rt; rows.join_row(0, last));
    assert!(rt; rows.put(last, 0));
}

/// Puts, joins and reads at both ends of rows of this size, of at least 2.
fn check_ends(rt: &impl Abort, alloc: Global, size: u32) -> Result<(), Fail> {
    assert!(rt; 2 <= size && size <= 65_536);
    let mut rows = BitRows::new(alloc, size)?;
    use_ends(rt, &mut rows, size - 1);
    assert!(rt; rows.size() == size && rows.next_in_row(0, size).is_none());
    check_row(rt, alloc, &rows, size - 1, &[0, size - 1])
}

#[test]
fn rows_of_one_word_of_more_and_of_the_largest_size_have_both_ends(
    rt: HostRuntime,
) -> Result<(), Fail> {
    for size in [2, 63, 64, 65, 65_536] {
        check_ends(&rt, rt.alloc(), size)?;
    }
    Ok(())
}

#[test]
fn a_relation_over_nothing_can_be_made(rt: HostRuntime) -> Result<(), Fail> {
    let none = BitRows::new(rt.alloc(), 0)?;
    assert!(rt; none.size() == 0);
    Ok(())
}

#[test]
fn the_least_relation_has_one_pair(rt: HostRuntime) -> Result<(), Fail> {
    let mut one = BitRows::new(rt.alloc(), 1)?;
    assert!(rt; one.put(0, 0) && !one.join_row(0, 0));
    check_row(&rt, rt.alloc(), &one, 0, &[0])
}

/// An arrow from one number into another.
fn arrow(from: u32, into: u32) -> Arrow
    ensures { result ≡ record { from = from; into = into } }
{
    Arrow { from, into }
}

/// The rows in and behind a circle of arrows have what one of them had, and another row what it had.
fn check_circle(rt: &impl Abort, alloc: Global, rows: &BitRows) -> Result<(), Fail> {
    for number in [70, 71, 72, 73] {
        check_row(rt, alloc, rows, number, &[99])?;
    }
    check_row(rt, alloc, rows, 3, &[5])
}

#[test]
fn arrows_pass_rows_on_round_a_circle(rt: HostRuntime) -> Result<(), Fail> {
    let mut rows = BitRows::new(rt.alloc(), 100)?;
    rows.put(70, 99);
    rows.put(3, 5);
    rows.spread(&[arrow(70, 71), arrow(72, 70), arrow(71, 72), arrow(71, 73)]);
    check_circle(&rt, rt.alloc(), &rows)
}
