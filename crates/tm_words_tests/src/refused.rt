//! Words that are of no form.

use crate::told::{told, told_of_watch};
use std::test::Fail;

#[test]
fn first_words_and_names_are_refused(rt: HostRuntime) -> Result<(), Fail> {
    let alloc = rt.alloc();
    let cases: [&[&str]; 18] = [
        &[],
        &["trace", "a"],
        &["trace", "a", "b", "--", "c"],
        &["trace", "a", "b", "--version"],
        &["trace", "a", "--"],
        &["Trace", "a", "b"],
        &["a", "points", "b"],
        &["--from=0", "replay", "a", "b"],
        &["record", "a", "b"],
        &["record", "a", "b", "c", "d"],
        &["points", "-h", "a"],
        &["points", "a", "b", "watch"],
        &["points", "a", "b", "--len=2"],
        &["live", "a", "b", "", "--slices", "0", "--len", "1"],
        &["make", "1", "2"],
        &["make", "-1"],
        &["make", "4294967296"],
        &[
            "watch",
            "a",
            "b",
            "c",
            "--slices=0",
            "--len=0",
            "--observers=1",
            "--looks=1",
        ],
    ];
    for words in cases {
        let text = told(alloc, words)?;
        assert_eq!(rt; text.as_str(), "nothing", "{words:?}");
    }
    Ok(())
}

#[test]
fn options_of_a_replay_are_refused(rt: HostRuntime) -> Result<(), Fail> {
    let alloc = rt.alloc();
    let cases: [&[&str]; 18] = [
        &["replay", "a", "b"],
        &["replay", "a", "b", "--from", "1", "--from", "1"],
        &["replay", "a", "b", "--from=1", "--from", "1"],
        &["replay", "a", "b", "--from", "-1"],
        &["replay", "a", "b", "--from="],
        &["replay", "a", "b", "--from", ""],
        &["replay", "a", "b", "--from==0"],
        &["replay", "a", "b", "--from=+0"],
        &["replay", "a", "b", "--from= 0"],
        &["replay", "a", "b", "--from=0x0"],
        &["replay", "a", "b", "--from=000000000000000000000"],
        &["replay", "a", "b", "--from=18446744073709551616"],
        &["replay", "a", "b", "--from", "--from", "0"],
        &["replay", "a", "--from", "b", "0"],
        &["replay", "a", "b", "--FROM=0"],
        &["replay", "a", "b", "--fro=0"],
        &["replay", "a", "b", "--from=0", "--workers", "17"],
        &["replay", "a", "b", "--from=0", "--workers=0"],
    ];
    for words in cases {
        let text = told(alloc, words)?;
        assert_eq!(rt; text.as_str(), "nothing", "{words:?}");
    }
    Ok(())
}

#[test]
fn options_of_a_run_beside_devices_are_refused(rt: HostRuntime) -> Result<(), Fail> {
    let alloc = rt.alloc();
    let cases: [&[&str]; 14] = [
        &["live", "a", "b", "c"],
        &["live", "a", "b", "c", "--slices=1"],
        &["live", "a", "b", "--slices=1", "--len=1"],
        &["live", "a", "b", "c", "--slices", "0", "1"],
        &["live", "a", "b", "c", "--slices", "--len", "0", "1"],
        &["live", "a", "b", "c", "--slices=1048577", "--len=1"],
        &["live", "a", "b", "c", "--slices=1", "--len=1048577"],
        &["live", "a", "b", "c", "--slices=1", "--len=1", "--slices=1"],
        &[
            "live",
            "a",
            "b",
            "c",
            "--slices=1",
            "--len=1",
            "--workers=1",
        ],
        &[
            "live",
            "a",
            "b",
            "c",
            "--slices=1",
            "--len=1",
            "--tape",
            "c",
        ],
        &["live", "a", "b", "c", "--slices=1", "--len=1", "--tape=c"],
        &["live", "a", "b", "c", "--slices=1", "--len=1", "--tape="],
        &["live", "a", "b", "c", "--slices=1", "--len=1", "--tape=-t"],
        &[
            "live",
            "a",
            "b",
            "c",
            "--slices=1",
            "--len=1",
            "--tape=t",
            "--tape",
            "u",
        ],
    ];
    for words in cases {
        let text = told(alloc, words)?;
        assert_eq!(rt; text.as_str(), "nothing", "{words:?}");
    }
    Ok(())
}

#[test]
fn tasks_and_names_of_a_load_are_refused(rt: HostRuntime) -> Result<(), Fail> {
    let alloc = rt.alloc();
    let cases: [&[&str]; 26] = [
        &["load", "a", "0", "b"],
        &["load", "a", "0", "b", "c", "d"],
        &["load", "a", "b", "c"],
        &["load", "0", "a", "b", "c"],
        &["load", "a", "b", "c", "0"],
        &["load", "a", "16", "b", "c"],
        &["load", "a", "016", "b", "c"],
        &["load", "a", "000", "b", "c"],
        &["load", "a", "015", "b", "c"],
        &["load", "a", "99", "b", "c"],
        &["load", "a", "-1", "b", "c"],
        &["load", "a", "+1", "b", "c"],
        &["load", "a", "0x", "b", "c"],
        &["load", "a", " 1", "b", "c"],
        &["load", "a", "", "b", "c"],
        &["load", "", "0", "b", "c"],
        &["load", "a", "0", "", "c"],
        &["load", "a", "0", "b", ""],
        &["load", "-a", "0", "b", "c"],
        &["load", "a", "0", "-b", "c"],
        &["load", "a", "0", "b", "-c"],
        &["load", "a", "--task=0", "b", "c"],
        &["load", "a", "0", "b", "c", "--task=0"],
        &["load", "--", "a", "0", "b", "c"],
        &["Load", "a", "0", "b", "c"],
        &["elf", "a", "0", "b", "c"],
    ];
    for words in cases {
        let text = told(alloc, words)?;
        assert_eq!(rt; text.as_str(), "nothing", "{words:?}");
    }
    Ok(())
}

#[test]
fn words_that_are_not_of_watch_are_refused(rt: HostRuntime) -> Result<(), Fail> {
    let alloc = rt.alloc();
    let cases = [
        "",
        "watch",
        "watch a b c",
        "watch a b c --len=1 --observers=1 --looks=1",
        "watch a b c --slices=1 --observers=1 --looks=1",
        "watch a b c --slices=1 --len=1 --looks=1",
        "watch a b c --slices=1 --len=1 --observers=1",
        "watch a b c --slices=1 --len=1 --observers=1 --looks=1 d",
        "watch a b --slices=1 --len=1 --observers=1 --looks=1",
        "watch a -b c --slices=1 --len=1 --observers=1 --looks=1",
        "watch a b -- --slices=1 --len=1 --observers=1 --looks=1",
        "watch a b - --slices=1 --len=1 --observers=1 --looks=1",
        "watch a b c --slices=1048577 --len=1 --observers=1 --looks=1",
        "watch a b c --slices=1 --len=1048577 --observers=1 --looks=1",
        "watch a b c --slices=1 --len=1 --observers=0 --looks=1",
        "watch a b c --slices=1 --len=1 --observers=5 --looks=1",
        "watch a b c --slices=1 --len=1 --observers=1 --looks=0",
        "watch a b c --slices=1 --len=1 --observers=1 --looks=1001",
        "watch a b c --slices= --len=1 --observers=1 --looks=1",
        "watch a b c --slices=1 --len= --observers=1 --looks=1",
        "watch a b c --slices=1 --len=1 --observers= --looks=1",
        "watch a b c --slices=1 --len=1 --observers=1 --looks=",
        "watch a b c --slices=1 --len=1 --observers=1 --looks=-1",
        "watch a b c --slices=+1 --len=1 --observers=1 --looks=1",
        "watch a b c --slices=1 --len=1 --observers=0x1 --looks=1",
        "watch a b c --slices=000000000000000000001 --len=1 --observers=1 --looks=1",
        "watch a b c --slices=1 --len=1 --observers=1 --looks=1 --slices=1",
        "watch a b c --slices=1 --len=1 --observers=1 --looks=1 --looks 1",
        "watch a b c --slices=1 --len=1 --observers=1 --looks",
        "watch a b c --slices=1 --len=1 --observers=1 --looks --",
        "watch a b c --slices=1 --len=1 --observers=1 --looks=1 --tape=t",
        "watch a b c --slices=1 --len=1 --observers=1 --looks=1 --workers=1",
        "watch a b c --slices=1 --len=1 --observers=1 --look=1",
        "watch a b c --slices=1 --len=1 --observers=1 --looks==1",
        "Watch a b c --slices=1 --len=1 --observers=1 --looks=1",
        "live a b c --slices=1 --len=1 --observers=1 --looks=1",
        "--slices=1 watch a b c --len=1 --observers=1 --looks=1",
        "trace a b",
    ];
    for line in cases {
        let text = told_of_watch(alloc, line)?;
        assert_eq!(rt; text.as_str(), "nothing", "{line}");
    }
    Ok(())
}
