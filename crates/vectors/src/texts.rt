// What is printed of figures, faults and refusals.
use algebra::Fault;
use figures::{Figures, Sums};
use frame::Cause;
use layout::LoadRefusal;
use render::Counted;
use std::test::Fail;

// Numbers and the text that Rust's own `{}` writes of them.
const FLOATS: [(f32, f32, &str); 5] = [
    (12.0, 74.0, "sum 12 squares 74"),
    (4098.0, 16777218.0, "sum 4098 squares 16777218"),
    (
        2147483600.0,
        8444440500000.0,
        "sum 2147483600 squares 8444440500000",
    ),
    (0.0, 0.1, "sum 0 squares 0.1"),
    (
        958458800.0,
        340282350000000000000000000000000000000.0,
        "sum 958458800 squares 340282350000000000000000000000000000000",
    ),
];

#[test]
fn floats(rt: HostRuntime) -> Result<(), Fail> {
    for (sum, squares, text) in FLOATS {
        let sums = Sums { sum, squares };
        assert_eq!(rt; sums.to_string(rt.alloc())?.as_str(), text);
    }
    Ok(())
}

#[test]
fn counts(rt: HostRuntime) -> Result<(), Fail> {
    for (count, text) in [
        (0, "0 nodes"),
        (1, "1 node"),
        (2, "2 nodes"),
        (1023, "1023 nodes"),
    ] {
        let counted = Counted {
            count,
            noun: "node",
        };
        assert_eq!(rt; counted.to_string(rt.alloc())?.as_str(), text);
    }
    Ok(())
}

#[test]
fn figures(rt: HostRuntime) -> Result<(), Fail> {
    let ride = Figures {
        count: 2,
        sum: 12,
        fastest: 7,
        lowest_slip: -3,
        highest_slip: 5,
    };
    let text = ride.to_string(rt.alloc())?;
    assert_eq!(rt; text.as_str(), "count 2 sum 12 fastest 7 slip -3 to 5");
    Ok(())
}

// Each kind of fault and its line.
const FAULTS: [(Fault, &str); 3] = [
    (
        Fault::BadFrame {
            cause: Cause { number: 2 },
            node: 1,
            frame: 0,
        },
        "fault layer 1 cause 2 node 1 frame 0",
    ),
    (
        Fault::LeafJoin {
            cause: Cause { number: 255 },
            node: 1023,
            frame: 4294967295,
        },
        "fault layer 2 cause 255 node 1023 frame 4294967295",
    ),
    (
        Fault::ForkJoin {
            cause: Cause { number: 255 },
            node: 1023,
        },
        "fault layer 2 cause 255 node 1023",
    ),
];

#[test]
fn faults(rt: HostRuntime) -> Result<(), Fail> {
    for (fault, text) in FAULTS {
        assert_eq!(rt; fault.to_string(rt.alloc())?.as_str(), text);
    }
    Ok(())
}

// Each refusal and how its line begins; the reason in words follows.
const REFUSALS: [(LoadRefusal, &str); 4] = [
    (LoadRefusal::Size, "refused 1 at 0: the header"),
    (LoadRefusal::Link(0), "refused 2 at 0: the link"),
    (LoadRefusal::Content(1024), "refused 3 at 1024: the record"),
    (LoadRefusal::Naming(3), "refused 4 at 3: this fork"),
];

#[test]
fn refusals(rt: HostRuntime) -> Result<(), Fail> {
    for (refusal, begins) in REFUSALS {
        let text = refusal.to_string(rt.alloc())?;
        assert!(rt; text.as_str().starts_with(begins), "{}", begins);
    }
    Ok(())
}
