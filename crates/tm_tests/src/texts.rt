//! Whole texts.

use crate::calls::{shelf, trace};
use std::alloc::Global;
use std::test::Fail;
use std::thread::Threads;
use tm_io::MemSink;
use tm_prog::Status;

/// An image, a plan, and the text of the whole run.
#[derive(Clone, Copy)]
pub struct Case {
    pub what: &'static str,
    pub image: &'static str,
    pub plan: &'static str,
    pub text: &'static str,
}

const SMALLEST: &str = "tmi 1\ntask 0 basic 1 auto 0 1\ntext 0 00200893 00000073\n";

const PREEMPTED: &str = "\
tmi 1
task 0 basic 1 auto 0 1
text 0 0000006f
task 1 basic 2 off 0 1
text 1 00200893 00000073
line 1 activate 1
";

/// A task that multiplies and divides, in an image of version 2.
pub const MULTIPLIED: Case = Case {
    what: "products and quotients in version 2",
    image: "\
tmi 2
task 0 basic 1 auto 0 1
text 0 80000337 fff00393 027342b3 02736433 027334b3 02035533 0000006f
",
    plan: "tmplan 1\nslice 6 0\n",
    text: "\
start 0 -
task 0 0.0.00000000
regs x2=10000004
switch 1 - idle 0
end 0 on
task 0 running 0.0.00000018
regs x2=10000004 x5=80000000 x6=80000000 x7=ffffffff x9=7fffffff x10=ffffffff
",
};

const CASES: [Case; 22] = [
    MULTIPLIED,
    Case {
        what: "a quotient is no instruction in version 1",
        image: "\
tmi 1
task 0 basic 1 auto 0 1
text 0 80000337 fff00393 027342b3 02736433 027334b3 02035533 0000006f
",
        plan: "tmplan 1\nslice 6 0\n",
        text: "\
start 0 -
task 0 0.0.00000000
regs x2=10000004
switch 1 - idle 0
switch 2 0 fault -
at 0.0.00000008
cause 2
regs x2=10000004 x6=80000000 x7=ffffffff
end - fault
task 0 ready 0.0.00000008
regs x2=10000004 x6=80000000 x7=ffffffff
",
    },
    Case {
        what: "the smallest whole run",
        image: SMALLEST,
        plan: "tmplan 1\nslice 2 0\n",
        text: "\
start 0 -
task 0 0.0.00000000
regs x2=10000004
switch 1 - idle 0
switch 2 0 ends -
at 1.0.00000000
regs x2=10000004
end - on
task 0 suspended 1.0.00000000
regs x2=10000004
",
    },
    Case {
        what: "no slice at all",
        image: SMALLEST,
        plan: "tmplan 1\n",
        text: "\
start 0 -
task 0 0.0.00000000
regs x2=10000004
end - on
task 0 ready 0.0.00000000
regs x2=10000004
",
    },
    Case {
        what: "a jump to itself, preempted",
        image: PREEMPTED,
        plan: "tmplan 1\nslice 5 0\nslice 2 0x2\n",
        text: "\
start 0 -
task 0 0.0.00000000
regs x2=10000004
task 1 0.0.00000000
regs x2=10000004
switch 1 - idle 0
switch 2 0 preempted 1
at 0.5.00000000
regs x2=10000004
switch 3 1 ends 0
at 1.0.00000000
regs x2=10000004
end 0 on
task 0 running 0.5.00000000
regs x2=10000004
task 1 suspended 1.0.00000000
regs x2=10000004
",
    },
    Case {
        what: "two preemptions at one marker",
        image: PREEMPTED,
        plan: "tmplan 1\nslice 5 0\nslice 2 0x2\nslice 2 0x2\n",
        text: "\
start 0 -
task 0 0.0.00000000
regs x2=10000004
task 1 0.0.00000000
regs x2=10000004
switch 1 - idle 0
switch 2 0 preempted 1
at 0.5.00000000
regs x2=10000004
switch 3 1 ends 0
at 1.0.00000000
regs x2=10000004
switch 4 0 preempted 1
at 0.5.00000000
regs x2=10000004
switch 5 1 ends 0
at 2.0.00000000
regs x2=10000004
end 0 on
task 0 running 0.5.00000000
regs x2=10000004
task 1 suspended 2.0.00000000
regs x2=10000004
",
    },
    Case {
        what: "a pc that stands in three turns of a loop",
        image: "\
tmi 1
task 0 basic 1 auto 0 1
text 0 00300093 fff08093 fe009ee3 00200893 00000073
task 1 basic 2 off 0 1
text 1 00200893 00000073
line 1 activate 1
",
        plan: "tmplan 1\nslice 4 0\nslice 0 0x2\n",
        text: "\
start 0 -
task 0 0.0.00000000
regs x2=10000004
task 1 0.0.00000000
regs x2=10000004
switch 1 - idle 0
switch 2 0 preempted 1
at 0.1.00000008
regs x1=00000001 x2=10000004
end 1 on
task 0 ready 0.1.00000008
regs x1=00000001 x2=10000004
task 1 running 0.0.00000000
regs x2=10000004
",
    },
    Case {
        what: "a call that activates a task of greater priority",
        image: "\
tmi 1
task 0 basic 1 auto 0 1
text 0 00100513 00100893 00000073 0000006f
task 1 basic 2 off 0 1
text 1 00200893 00000073
",
        plan: "tmplan 1\nslice 3 0\n",
        text: "\
start 0 -
task 0 0.0.00000000
regs x2=10000004
task 1 0.0.00000000
regs x2=10000004
switch 1 - idle 0
switch 2 0 preempted 1
at 0.0.0000000c
regs x2=10000004 x17=00000001
end 1 on
task 0 ready 0.0.0000000c
regs x2=10000004 x17=00000001
task 1 running 0.0.00000000
regs x2=10000004
",
    },
    Case {
        what: "a store into the text",
        image: "tmi 1\ntask 0 basic 1 auto 0 1\ntext 0 00002023\n",
        plan: "tmplan 1\nslice 3 0\nslice 3 0\n",
        text: "\
start 0 -
task 0 0.0.00000000
regs x2=10000004
switch 1 - idle 0
switch 2 0 fault -
at 0.0.00000000
cause 6
regs x2=10000004
end - fault
task 0 ready 0.0.00000000
regs x2=10000004
",
    },
    Case {
        what: "bytes in words, and a word at an odd address",
        image: "\
tmi 1
task 0 basic 1 auto 0 1
text 0 100002b7 fff00313 00628123 00229383 00228403 0012a483
",
        plan: "tmplan 1\nslice 9 0\n",
        text: "\
start 0 -
task 0 0.0.00000000
regs x2=10000004
switch 1 - idle 0
switch 2 0 fault -
at 0.0.00000014
cause 4
regs x2=10000004 x5=10000000 x6=ffffffff x7=000000ff x8=ffffffff
data 10000000 00ff0000
end - fault
task 0 ready 0.0.00000014
regs x2=10000004 x5=10000000 x6=ffffffff x7=000000ff x8=ffffffff
",
    },
    Case {
        what: "the backward transfer that fills an epoch begins the next",
        image: "tmi 1\ntask 0 basic 1 auto 0 1\ntext 0 0000006f\n",
        plan: "tmplan 1\nslice 1048576 0\n",
        text: "\
start 0 -
task 0 0.0.00000000
regs x2=10000004
switch 1 - idle 0
end 0 on
task 0 running 1.0.00000000
regs x2=10000004
",
    },
    Case {
        what: "the next transfer counts in the new epoch",
        image: "tmi 1\ntask 0 basic 1 auto 0 1\ntext 0 0000006f\n",
        plan: "tmplan 1\nslice 1048576 0\nslice 1 0\n",
        text: "\
start 0 -
task 0 0.0.00000000
regs x2=10000004
switch 1 - idle 0
end 0 on
task 0 running 1.1.00000000
regs x2=10000004
",
    },
    Case {
        what: "an extended task goes on where its event is set",
        image: "\
tmi 1
task 0 extended 1 auto 0 1
text 0 00100593 00800893 00000073 00100513 00b00893 00000073 0000006f
",
        plan: "tmplan 1\nslice 6 0\n",
        text: "\
start 0 -
task 0 0.0.00000000
regs x2=10000004
switch 1 - idle 0
end 0 on
task 0 running 1.0.00000018
regs x2=10000004 x17=0000000b
",
    },
    Case {
        what: "a task chains itself",
        image: "\
tmi 1
task 0 basic 1 auto 0 1
text 0 100002b7 00700313 0062a023 00300893 00000073
",
        plan: "tmplan 1\nslice 5 0\n",
        text: "\
start 0 -
task 0 0.0.00000000
regs x2=10000004
switch 1 - idle 0
switch 2 0 ends 0
at 1.0.00000000
regs x2=10000004
data 10000000 00000007
end 0 on
task 0 running 1.0.00000000
regs x2=10000004
",
    },
    Case {
        what: "the holder of a resource goes first among equals",
        image: "\
tmi 1
task 0 basic 3 auto 0 1
text 0 00600893 00000073 0000006f
task 1 basic 5 off 0 1
text 1 00200893 00000073
task 2 basic 6 off 0 1
text 2 00200893 00000073
resource 0 0 1
line 0 activate 1
line 1 activate 2
",
        plan: "tmplan 1\nslice 4 0\nslice 2 0x3\n",
        text: "\
start 0 -
task 0 0.0.00000000
regs x2=10000004
task 1 0.0.00000000
regs x2=10000004
task 2 0.0.00000000
regs x2=10000004
switch 1 - idle 0
switch 2 0 preempted 2
at 0.2.00000008
regs x2=10000004 x17=00000006
switch 3 2 ends 0
at 1.0.00000000
regs x2=10000004
end 0 on
task 0 running 0.2.00000008
regs x2=10000004 x17=00000006
task 1 ready 0.0.00000000
regs x2=10000004
task 2 suspended 1.0.00000000
regs x2=10000004
",
    },
    Case {
        what: "a task that holds a resource may not end",
        image: "\
tmi 1
task 0 basic 1 auto 0 1
text 0 00600893 00000073 00200893 00000073 0000006f
resource 0 0
",
        plan: "tmplan 1\nslice 4 0\n",
        text: "\
start 0 -
task 0 0.0.00000000
regs x2=10000004
switch 1 - idle 0
end 0 on
task 0 running 0.0.00000010
regs x2=10000004 x10=00000006 x17=00000002
",
    },
    Case {
        what: "an absolute alarm at the present value has a whole turn left",
        image: "\
tmi 1
task 0 basic 1 auto 0 1
text 0 00e00893 00000073 00c00893 00000073 00100513 00000593 00d00893 00000073 0000006f
alarm 0 activate 0
alarm 1 activate 0
",
        plan: "tmplan 1\nslice 4 0\n",
        text: "\
start 0 -
task 0 0.0.00000000
regs x2=10000004
switch 1 - idle 0
end 0 on
task 0 running 0.0.00000010
regs x2=10000004 x11=80000000 x17=0000000c
",
    },
    Case {
        what: "a relative increment of 0 is refused",
        image: "\
tmi 1
task 0 basic 1 auto 0 1
text 0 00e00893 00000073 00c00893 00000073 00100513 00000593 00d00893 00000073 0000006f
alarm 0 activate 0
alarm 1 activate 0
",
        plan: "tmplan 1\nslice 8 0\n",
        text: "\
start 0 -
task 0 0.0.00000000
regs x2=10000004
switch 1 - idle 0
end 0 on
task 0 running 0.0.00000020
regs x2=10000004 x10=00000008 x17=0000000d
",
    },
    Case {
        what: "outputs stand with the task that made them",
        image: "\
tmi 1
task 0 basic 1 auto 0 1
text 0 00100513 00700593 01300893 00000073 0000006f
task 1 basic 2 off 0 1
text 1 00900593 01300893 00000073 00200893 00000073
line 1 activate 1
",
        plan: "tmplan 1\nslice 5 0x2\nslice 4 0\n",
        text: "\
start 0 -
task 0 0.0.00000000
regs x2=10000004
task 1 0.0.00000000
regs x2=10000004
switch 1 - idle 1
switch 2 1 ends 0
at 1.0.00000000
regs x2=10000004
out 0 00000009
end 0 on
task 0 running 0.0.00000010
regs x2=10000004 x17=00000013
out 1 00000007
task 1 suspended 1.0.00000000
regs x2=10000004
",
    },
    Case {
        what: "a full box, and a shutdown",
        image: "\
tmi 1
task 0 basic 1 auto 0 1
text 0 01000893 00000073 00000073 00050413 01400893 00000073
box 0 1
",
        plan: "tmplan 1\nslice 9 0\nslice 9 0\n",
        text: "\
start 0 -
task 0 0.0.00000000
regs x2=10000004
switch 1 - idle 0
switch 2 0 shutdown -
at 0.0.00000018
regs x2=10000004 x8=00000004 x17=00000014
end - shutdown
task 0 ready 0.0.00000018
regs x2=10000004 x8=00000004 x17=00000014
",
    },
    Case {
        what: "a port is read as the slice latched it",
        image: "\
tmi 1
task 0 basic 1 auto 0 1
text 0 00100513 01200893 00000073 0000006f
",
        plan: "tmplan 1\nslice 3 0 0 9 0 0\n",
        text: "\
start 0 -
task 0 0.0.00000000
regs x2=10000004
switch 1 - idle 0
end 0 on
task 0 running 0.0.0000000c
regs x2=10000004 x11=00000009 x17=00000012
",
    },
    Case {
        what: "an alarm that is due at the second tick",
        image: "\
tmi 1
task 0 basic 1 auto 0 1
text 0 00200593 00d00893 00000073 0000006f
task 1 basic 2 off 0 1
text 1 00200893 00000073
alarm 0 activate 1
line 0 tick
",
        plan: "tmplan 1\nslice 4 0\nslice 1 1\nslice 1 1\n",
        text: "\
start 0 -
task 0 0.0.00000000
regs x2=10000004
task 1 0.0.00000000
regs x2=10000004
switch 1 - idle 0
switch 2 0 preempted 1
at 0.2.0000000c
regs x2=10000004 x17=0000000d
end 1 on
task 0 ready 0.2.0000000c
regs x2=10000004 x17=0000000d
task 1 running 0.0.00000004
regs x2=10000004 x17=00000002
",
    },
];

fn text_of(
    rt: &(impl Threads + Sync),
    alloc: Global,
    case: &Case,
) -> Result<Option<Vec<u8>>, Fail> {
    let mut shelf = shelf(alloc, case.image.as_bytes(), case.plan.as_bytes(), &[])?;
    let mut sink = MemSink::new(alloc, 4096, &[])?;
    sink.room(1 << 16)?;
    let status = trace(rt, alloc, &mut shelf, &mut sink)?;
    if status != Status::Ok {
        return Ok(None);
    }
    Ok(Some(Vec::from_slice(alloc, sink.bytes())?))
}

#[test]
fn whole_runs_are_printed(rt: HostRuntime) -> Result<(), Fail> {
    for case in &CASES {
        let text = text_of(&rt, rt.alloc(), case)?;
        let wanted = Vec::from_slice(rt.alloc(), case.text.as_bytes())?;
        assert!(rt; text == Some(wanted), "{}", case.what);
    }
    Ok(())
}
