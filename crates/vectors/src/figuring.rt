// The shipped value algebras, on values worked out by hand.
use algebra::ValueAlgebra;
use figures::{Figures, Float, Summary, Sums, Trail};
use frame::{Cause, Frame};
use std::test::Fail;

const TOO_LARGE: Cause = Cause { number: 1 };

// The front is faster by 40,000, the rear by as much, both stand still.
const FRONT: Frame = Frame {
    front: 40_000,
    rear: 0,
    flags: 0,
};

const REAR: Frame = Frame {
    front: 0,
    rear: 40_000,
    flags: 7,
};

const STILL: Frame = Frame {
    front: 0,
    rear: 0,
    flags: 0,
};

fn figures(count: u32, sum: u32, fastest: u16, lowest_slip: i32, highest_slip: i32) -> Figures {
    Figures {
        count,
        sum,
        fastest,
        lowest_slip,
        highest_slip,
    }
}

#[test]
fn summary_keeps_the_slips(rt: HostRuntime) -> Result<(), Fail> {
    let front = Summary.value(FRONT);
    let rear = Summary.value(REAR);
    let still = Summary.value(STILL);
    assert_eq!(rt; front, figures(1, 40_000, 40_000, 40_000, 40_000));
    assert_eq!(rt; rear, figures(1, 0, 0, -40_000, -40_000));
    assert_eq!(rt; still, figures(1, 0, 0, 0, 0));
    let high = Summary.join(still, front)?;
    assert_eq!(rt; high, figures(2, 40_000, 40_000, 0, 40_000));
    let low = Summary.join(rear, still)?;
    assert_eq!(rt; low, figures(2, 0, 0, -40_000, 0));
    let all = figures(4, 40_000, 40_000, -40_000, 40_000);
    assert_eq!(rt; Summary.join(high, low)?, all);
    assert_eq!(rt; Summary.join(low, high)?, all);
    Ok(())
}

// 107,374 frames of 40,000 add up to 4,294,960,000, and one more would pass 32 bits.
#[test]
fn summary_fills_up(rt: HostRuntime) -> Result<(), Fail> {
    let one = Summary.value(Frame {
        front: 40_000,
        rear: 40_000,
        flags: 0,
    });
    let mut all = one;
    for _ in 1..107_374u32 {
        all = Summary.join(all, one)?;
    }
    assert_eq!(rt; all, figures(107_374, 4_294_960_000, 40_000, 0, 0));
    assert_eq!(rt; Summary.join(all, one), Err(TOO_LARGE));
    assert_eq!(rt; Summary.join(one, all), Err(TOO_LARGE));
    Ok(())
}

#[test]
fn summary_ends_at_32_bits(rt: HostRuntime) -> Result<(), Fail> {
    let one = figures(1, 1, 1, 0, 0);
    let sum = figures(1, u32::MAX - 1, 1, 0, 0);
    let full = figures(2, u32::MAX, 1, 0, 0);
    assert_eq!(rt; Summary.join(sum, one)?, full);
    assert_eq!(rt; Summary.join(full, one), Err(TOO_LARGE));
    let still = figures(1, 0, 0, 0, 0);
    let count = figures(u32::MAX - 1, 0, 0, 0, 0);
    let full = figures(u32::MAX, 0, 0, 0, 0);
    assert_eq!(rt; Summary.join(still, count)?, full);
    assert_eq!(rt; Summary.join(full, still), Err(TOO_LARGE));
    Ok(())
}

#[test]
fn trail_shows_the_order(rt: HostRuntime) -> Result<(), Fail> {
    assert_eq!(rt; Trail.value(FRONT), 40_000);
    assert_eq!(rt; Trail.value(REAR), 0);
    assert_eq!(rt; Trail.join(5, 7)?, 162);
    assert_eq!(rt; Trail.join(7, 5)?, 222);
    // 31 · (2³² − 1) + 30 is one less than a multiple of 2³².
    assert_eq!(rt; Trail.join(u32::MAX, 30)?, u32::MAX);
    assert_eq!(rt; Trail.join(u32::MAX, 31)?, 0);
    Ok(())
}

fn sums(sum: f32, squares: f32) -> Sums {
    Sums { sum, squares }
}

#[test]
fn float_shows_the_grouping(rt: HostRuntime) -> Result<(), Fail> {
    let a = Float.value(Frame {
        front: 4_096,
        rear: 0,
        flags: 0,
    });
    let b = Float.value(Frame {
        front: 1,
        rear: 0,
        flags: 0,
    });
    assert_eq!(rt; a, sums(4096.0, 16777216.0));
    assert_eq!(rt; b, sums(1.0, 1.0));
    assert_eq!(rt; Float.value(FRONT), sums(40000.0, 1600000000.0));
    let left = Float.join(Float.join(a, b)?, b)?;
    assert_eq!(rt; left, sums(4098.0, 16777216.0));
    let right = Float.join(a, Float.join(b, b)?)?;
    assert_eq!(rt; right, sums(4098.0, 16777218.0));
    Ok(())
}
