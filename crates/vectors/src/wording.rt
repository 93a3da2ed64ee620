// What is made of a command line.
use console::{Command, Plan, Reckoning, decimal, parse};
use std::alloc::Global;
use std::test::Fail;

// Words that are no command, and how the message begins.
const MISTAKES: [(&[&str], &str); 10] = [
    (&[], "no command: "),
    (&["evaluat"], "unknown command: "),
    (&["Help"], "unknown command: "),
    (&["help", "evaluate"], "surplus argument: "),
    (&["evaluate"], "missing argument: "),
    (&["evaluate", "a.job", "a.trace"], "missing argument: "),
    (
        &["evaluate", "a.job", "a.trace", "Trail"],
        "unknown reckoning: ",
    ),
    (
        &["evaluate", "a.job", "a.trace", "trail", "-1"],
        "the start is no frame number: ",
    ),
    (
        &["evaluate", "a.job", "a.trace", "trail", ""],
        "the start is no frame number: ",
    ),
    (
        &["evaluate", "a.job", "a.trace", "trail", "1", "2"],
        "surplus argument: ",
    ),
];

fn owned(heap: Global, words: &[&str]) -> Result<Vec<String>, Fail> {
    let mut all = Vec::new(heap);
    for word in words {
        all.push(String::from_str(heap, word)?)?;
    }
    Ok(all)
}

#[test]
fn mistakes(rt: HostRuntime) -> Result<(), Fail> {
    for (words, begins) in MISTAKES {
        let words = owned(rt.alloc(), words)?;
        let Err(error) = parse(&words) else {
            return Err(Fail::new("taken for a command"));
        };
        let text = error.to_string(rt.alloc())?;
        assert!(rt; text.as_str().starts_with(begins), "{}", begins);
    }
    Ok(())
}

#[test]
fn a_start(rt: HostRuntime) -> Result<(), Fail> {
    let words = owned(
        rt.alloc(),
        &["evaluate", "a.job", "b.trace", "float", "007"],
    )?;
    let evaluation = Command::Evaluate {
        job: "a.job",
        trace: "b.trace",
        plan: Plan {
            reckoning: Reckoning::Float,
            start: Some(7),
        },
    };
    assert_eq!(rt; parse(&words), Ok(evaluation));
    Ok(())
}

#[test]
fn numbers(rt: HostRuntime) {
    assert_eq!(rt; decimal("0"), Some(0));
    assert_eq!(rt; decimal("18446744073709551615"), Some(18446744073709551615));
    assert_eq!(rt; decimal("18446744073709551616"), None);
    assert_eq!(rt; decimal("+1"), None);
    assert_eq!(rt; decimal(" 1"), None);
    assert_eq!(rt; decimal("1a"), None);
    assert_eq!(rt; decimal(""), None);
}
