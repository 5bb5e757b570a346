//! Words that are of a form.

use crate::told::{told, told_of_watch};
use std::test::Fail;

#[test]
fn words_of_a_form_ask_for_its_command(rt: HostRuntime) -> Result<(), Fail> {
    let alloc = rt.alloc();
    let cases: [(&[&str], &str); 16] = [
        (&["trace", "image", "plan"], "trace image plan"),
        (&["trace", "a=b", "points"], "trace a=b points"),
        (
            &["record", "image", "plan", "dump"],
            "record image plan dump",
        ),
        (&["points", "image", "dump"], "points image dump"),
        (
            &["replay", "a", "b", "--from=0", "--workers", "16"],
            "replay a b from 0 workers 16",
        ),
        (
            &["replay", "a", "b", "--from", "18446744073709551615"],
            "replay a b from 18446744073709551615 workers 1",
        ),
        (
            &["replay", "--workers=2", "a", "--from=007", "b"],
            "replay a b from 7 workers 2",
        ),
        (&["make", "4294967295"], "make 4294967295"),
        (&["make", "00000000000000000000"], "make 0"),
        (&["load", "a", "0", "b", "c"], "load a b c task 0"),
        (&["load", "a", "00", "b", "a"], "load a b a task 0"),
        (&["load", "a", "9", "b", "b"], "load a b b task 9"),
        (&["load", "1", "09", "2", "3"], "load 1 2 3 task 9"),
        (&["load", "a", "15", "b", "new=c"], "load a b new=c task 15"),
        (
            &["live", "a", "b", "c", "--slices=0", "--len", "1"],
            "live a b c slices 0 len 1 tape -",
        ),
        (
            &[
                "live",
                "--tape=t=1",
                "a",
                "--len=1048576",
                "b",
                "--slices",
                "1048576",
                "c",
            ],
            "live a b c slices 1048576 len 1048576 tape t=1",
        ),
    ];
    for (words, wanted) in cases {
        let text = told(alloc, words)?;
        assert_eq!(rt; text.as_str(), wanted, "{words:?}");
    }
    Ok(())
}

#[test]
fn words_of_watch_ask_for_a_run_that_is_looked_at(rt: HostRuntime) -> Result<(), Fail> {
    let alloc = rt.alloc();
    let cases = [
        (
            "watch a b c --slices=2 --len=2 --observers=2 --looks=3",
            "watch a b c slices 2 len 2 observers 2 looks 3",
        ),
        (
            "watch --looks 1 a --observers 1 a --len 0 a --slices 0",
            "watch a a a slices 0 len 0 observers 1 looks 1",
        ),
        (
            "watch a=b watch --observers=4 --slices=1048576 w --looks=1000 --len=1048576",
            "watch a=b watch w slices 1048576 len 1048576 observers 4 looks 1000",
        ),
        (
            "watch --slices=00000000000000000003 --len=04 --observers=01 --looks=0010 a b c",
            "watch a b c slices 3 len 4 observers 1 looks 10",
        ),
    ];
    for (line, wanted) in cases {
        let text = told_of_watch(alloc, line)?;
        assert_eq!(rt; text.as_str(), wanted, "{line}");
    }
    Ok(())
}
