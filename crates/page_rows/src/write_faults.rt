//! Outputs that fail: at a piece, or where they hand on at the end what was put.

use crate::example::Example;
use std::alloc::Global;
use std::test::Fail;

const SUM_TRACE: &str = "trace 1\n0 turn 1 dom\n0 call 1\n0 log 3\n0 ret\n0 end done\n";

const EMPTY: &str = "trace 1\n0 turn 1 dom\n0 call 1\n0 ret\n0 end done\n";

const EMPTY_TOLD_MORE: &str = "trace 2\n0 turn 1 dom\n0 call 1\n0 ret\n0 end done\n";

const EMPTY_COUNTS: &str = "turns 1\ncalls 1\ndrops 0\nsettles 0\nend done\n";

const EMPTY_EXPORT: &str =
    "{\"traceEvents\":[{\"dur\":0,\"name\":\"script 1\",\"ph\":\"X\",\"pid\":1,\"tid\":1,\"ts\":0}]}\n";

/// The words, the files `s` and `t`, the number of the piece that is not taken, how many bytes of it are kept, and what stands in `out`
/// then. The arrivals set nothing.
type Unwritten = (
    &'static [&'static str],
    &'static str,
    &'static str,
    &'static [(u64, usize)],
    &'static str,
);

const RUN: &[&str] = &["run", "s", "a"];

const CHECK: &[&str] = &["check", "s", "a", "t"];

const MIGRATE: &[&str] = &["migrate", "s", "a", "t"];

const SUM: &str = "log(1 + 2);";

const UNWRITTEN: [Unwritten; 19] = [
    (RUN, SUM, "", &[(1, 0)], ""),
    (RUN, SUM, "", &[(1, 3)], "tra"),
    (RUN, SUM, "", &[(2, 0)], "trace 1\n"),
    (RUN, SUM, "", &[(2, 3)], "trace 1\n0 t"),
    (RUN, SUM, "", &[(3, 0)], "trace 1\n0 turn 1 dom\n"),
    (RUN, SUM, "", &[(3, 3)], "trace 1\n0 turn 1 dom\n0 c"),
    (RUN, SUM, "", &[(4, 0)], "trace 1\n0 turn 1 dom\n0 call 1\n"),
    (
        RUN,
        SUM,
        "",
        &[(4, 3)],
        "trace 1\n0 turn 1 dom\n0 call 1\n0 l",
    ),
    (
        RUN,
        SUM,
        "",
        &[(5, 0)],
        "trace 1\n0 turn 1 dom\n0 call 1\n0 log 3\n",
    ),
    (
        RUN,
        SUM,
        "",
        &[(5, 3)],
        "trace 1\n0 turn 1 dom\n0 call 1\n0 log 3\n0 r",
    ),
    (
        RUN,
        SUM,
        "",
        &[(6, 0)],
        "trace 1\n0 turn 1 dom\n0 call 1\n0 log 3\n0 ret\n",
    ),
    (
        RUN,
        SUM,
        "",
        &[(6, 3)],
        "trace 1\n0 turn 1 dom\n0 call 1\n0 log 3\n0 ret\n0 e",
    ),
    (CHECK, "", EMPTY, &[(1, 3)], "leg"),
    (MIGRATE, "", EMPTY, &[(1, 3)], "tra"),
    (MIGRATE, "", EMPTY, &[(3, 4)], "trace 2\n0 turn 1 dom\n0 ca"),
    (&["storm", "4"], "", "", &[(1, 10)], "turns 3\nca"),
    (&["stat", "t"], "", EMPTY, &[(1, 7)], "turns 1"),
    (&["blame", "t"], "", EMPTY, &[(1, 4)], "tota"),
    (&["expand", "s"], SUM, "", &[(1, 3)], "log"),
];

// Whether the program ends with a write fault behind what was kept.
fn is_unwritten(alloc: Global, row: &Unwritten) -> Result<bool, Fail> {
    let (words, script, trace, failing_out, kept) = *row;
    let example = Example {
        words,
        failing_out,
        ..Example::of_trace(script.as_bytes(), b"page 1\n", trace.as_bytes())
    };
    let ended = example.run(alloc)?;
    Ok(
        ended.status == 75
            && ended.out.as_str() == kept
            && ended.err.as_str() == "pageloop: write fault\n",
    )
}

#[test]
fn a_piece_that_cannot_be_written_gives_status_75(rt: HostRuntime) -> Result<(), Fail> {
    for (number, row) in UNWRITTEN.iter().enumerate() {
        assert!(rt; is_unwritten(rt.alloc(), row)?, "row {number}: {}", row.4);
    }
    Ok(())
}

#[test]
fn an_error_output_that_fails_changes_no_status(rt: HostRuntime) -> Result<(), Fail> {
    let examples: [(&[&str], &str, &str, &[(u64, usize)], u8); 6] = [
        (&["run", "s", "a"], "log(1 + 2);", "page 1\n", &[], 0),
        (&["storm", "0"], "log(1 + 2);", "page 1\n", &[], 2),
        (&["run", "s", "a"], "log(", "page 1\n", &[], 3),
        (&["run", "s", "a"], "log(1 + 2);", "", &[], 4),
        (&["run", "s", "b"], "log(1 + 2);", "page 1\n", &[], 74),
        (&["run", "s", "a"], "log(1 + 2);", "page 1\n", &[(1, 0)], 75),
    ];
    for (words, script, arrivals, failing_out, status) in examples {
        let example = Example {
            words,
            failing_out,
            failing_err: &[(1, 0), (2, 0), (3, 0)],
            ..Example::of_files(script.as_bytes(), arrivals.as_bytes())
        };
        let ended = example.run(rt.alloc())?;
        assert_eq!(rt; ended.status, status, "{words:?}");
        assert_eq!(rt; ended.err.as_str(), "", "{words:?}");
    }
    Ok(())
}

#[test]
fn an_error_output_that_fails_holds_a_start_of_the_line(rt: HostRuntime) -> Result<(), Fail> {
    let example = Example {
        failing_err: &[(1, 4)],
        ..Example::of_files(b"log(", b"page 1\n")
    };
    let ended = example.run(rt.alloc())?;
    assert_eq!(rt; ended.out.as_str(), "");
    assert_eq!(rt; ended.err.as_str(), "page");
    assert_eq!(rt; ended.status, 3);
    Ok(())
}

// Each puts all of its text, and the sink fails only where it is to hand that on.
#[test]
fn what_is_not_handed_on_at_the_end_gives_status_75(rt: HostRuntime) -> Result<(), Fail> {
    let examples: [(&[&str], &[u8], &str); 7] = [
        (&["run", "s", "a"], b"log(1 + 2);", SUM_TRACE),
        (&["check", "s", "a", "t"], b"", "legal\n"),
        (&["migrate", "s", "a", "t"], b"", EMPTY_TOLD_MORE),
        (
            &["storm", "4"],
            b"",
            "turns 3\ncalls 5\ndrops 1\nsettles 4\nend done\n",
        ),
        (&["stat", "t"], b"", EMPTY_COUNTS),
        (&["export", "t"], b"", EMPTY_EXPORT),
        (&["blame", "t"], b"", "total 0\n"),
    ];
    for (words, script, text) in examples {
        let example = Example {
            words,
            is_out_lost: true,
            ..Example::of_trace(script, b"page 1\n", EMPTY.as_bytes())
        };
        let ended = example.run(rt.alloc())?;
        assert_eq!(rt; ended.out.as_str(), text, "{words:?}");
        assert_eq!(rt; ended.err.as_str(), "pageloop: write fault\n", "{words:?}");
        assert_eq!(rt; ended.status, 75, "{words:?}");
    }
    Ok(())
}

#[test]
fn an_answer_that_puts_nothing_stays_where_an_output_fails_at_its_end(
    rt: HostRuntime,
) -> Result<(), Fail> {
    let examples: [(&[&str], &str, u8, &str); 3] = [
        (
            &["run", "s", "a"],
            "log(",
            3,
            "pageloop: script: no parse at byte 4\n",
        ),
        (
            &["run", "s", "b"],
            "log(1 + 2);",
            74,
            "pageloop: read fault: b\n",
        ),
        (
            &["run", "s", "a"],
            "lgo(1);",
            5,
            "pageloop: unknown name at byte 0\n",
        ),
    ];
    for (words, script, status, line) in examples {
        let example = Example {
            words,
            is_out_lost: true,
            is_err_lost: true,
            ..Example::of_files(script.as_bytes(), b"page 1\n")
        };
        let ended = example.run(rt.alloc())?;
        assert_eq!(rt; ended.out.as_str(), "", "{words:?}");
        assert_eq!(rt; ended.err.as_str(), line, "{words:?}");
        assert_eq!(rt; ended.status, status, "{words:?}");
    }
    Ok(())
}
