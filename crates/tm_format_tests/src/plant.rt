//! Plants that are read, and the first lines of others that are refused; tapes that are written.

use std::alloc::Global;
use std::test::Fail;
use tm_image::{Fault, Reason};
use tm_marker::Slice;
use tm_plant::{Act, Plant, plan_text, read_plant};

fn plant(alloc: Global, text: &str) -> Result<Plant, Fault> {
    let bytes = text.as_bytes();
    if bytes.len() >= u32::MAX as usize {
        return Err(Fault {
            line: 0,
            reason: Reason::Memory,
        });
    }
    read_plant(alloc, bytes)
}

fn assert_shared<T: Send + Sync>() {}

#[test]
fn a_plant_may_be_shared(_rt: HostRuntime) {
    assert_shared::<Plant>();
    assert_shared::<Act>();
}

#[test]
fn plants_are_read(rt: HostRuntime) {
    let alloc = rt.alloc();
    let text =
        "tmplant 1\ndevice 0\nraise 0 15 1048575\nset 0 3 0xffffffff\n# one more\n device\t1\r\nhold 1 0 65536\nraise 0 0 1";
    let read = plant(alloc, text).expect(&rt, "a plant");
    assert_eq!(rt; read.devices(), 2);
    let first = [
        Act::Raise {
            line: 15,
            times: 1_048_575,
        },
        Act::Set {
            port: 3,
            value: 0xffff_ffff,
        },
        Act::Raise { line: 0, times: 1 },
    ];
    assert_eq!(rt; read.acts(0), first.as_slice());
    let second = [Act::Hold {
        line: 0,
        turns: 65_536,
    }];
    assert_eq!(rt; read.acts(1), second.as_slice());
    assert_eq!(rt; read.acts(2).len(), 0);
    let none = plant(alloc, "tmplant 1").expect(&rt, "a plant of no devices");
    assert_eq!(rt; none.devices(), 0);
}

#[test]
fn each_line_of_a_plant_has_its_reasons(rt: HostRuntime) {
    let cases: [(&str, u32, Reason); 26] = [
        ("", 1, Reason::Missing),
        ("# a note\n\n", 3, Reason::Missing),
        ("tmplan 1\n", 1, Reason::Form),
        ("tmplant 1\ndevices 0\n", 2, Reason::Form),
        ("tmplant 1\ndevice\n", 2, Reason::Form),
        ("tmplant 1\ndevice 0\nraise 0 1\n", 3, Reason::Form),
        ("tmplant 1\ndevice 0\nraise 0 1 1 1\n", 3, Reason::Form),
        ("tmplant 1\ndevice x\n", 2, Reason::Number),
        ("tmplant 1\nraise 9 99 -1\n", 2, Reason::Number),
        (
            "tmplant 1\ndevice 0\nset 0 0 4294967296\n",
            3,
            Reason::Number,
        ),
        ("tmplant 1\ndevice 1\n", 2, Reason::Range),
        ("tmplant 1\nraise 0 1 1\n", 2, Reason::Range),
        ("tmplant 1\ndevice 0\nset 1 0 0\n", 3, Reason::Range),
        ("tmplant 1\ndevice 0\nhold 1 0 0\n", 3, Reason::Range),
        ("tmplant 1\ndevice 0\nraise 0 16 1\n", 3, Reason::Range),
        ("tmplant 1\ndevice 0\nraise 0 1 0\n", 3, Reason::Range),
        ("tmplant 1\ndevice 0\nset 0 4 1\n", 3, Reason::Range),
        ("tmplant 1\ndevice 0\nhold 0 16 1\n", 3, Reason::Range),
        ("tmplant 1\ndevice 0\nhold 0 1 65537\n", 3, Reason::Range),
        ("tmplant 1\ndevice 0\ndevice 0\n", 3, Reason::Repeated),
        ("tmplant 1\ndevice 0\nraise 0 1 1048577\n", 3, Reason::Limit),
        (
            "tmplant 1\ndevice 0\nraise 0 1 1048576\nraise 0 1 1\n",
            4,
            Reason::Limit,
        ),
        (
            "tmplant 1\ndevice 0\nraise 0 16 1048577\n",
            3,
            Reason::Range,
        ),
        (
            "tmplant 1\ndevice 0\ndevice 1\ndevice 2\ndevice 3\ndevice 4\ndevice 5\ndevice 6\ndevice 7\ndevice 8\n",
            10,
            Reason::Limit,
        ),
        (
            "tmplant 1\ndevice 0\ndevice 1\ndevice 2\ndevice 3\ndevice 4\ndevice 5\ndevice 6\ndevice 7\ndevice 9\n",
            10,
            Reason::Range,
        ),
        ("tmplant 1\ndevice 0\r\r\n", 2, Reason::Form),
    ];
    for (text, line, reason) in cases {
        let fault = plant(rt.alloc(), text).err();
        assert_eq!(rt; fault, Some(Fault { line, reason }), "{text}");
    }
}

#[test]
fn a_plant_has_at_most_65536_acts(rt: HostRuntime) -> Result<(), Fail> {
    let alloc = rt.alloc();
    let mut text = String::from_str(alloc, "tmplant 1\ndevice 0\n")?;
    for _ in 0..65_536 {
        text.push_str("set 0 0 1\n")?;
    }
    let read = plant(alloc, text.as_str()).expect(&rt, "65,536 acts");
    assert_eq!(rt; read.acts(0).len(), 65_536);
    text.push_str("hold 0 0 0\n")?;
    let fault = plant(alloc, text.as_str()).err();
    assert_eq!(rt;
        fault,
        Some(Fault {
            line: 65_539,
            reason: Reason::Limit
        })
    );
    Ok(())
}

#[test]
fn tapes_have_one_spelling(rt: HostRuntime) -> Result<(), Fail> {
    let alloc = rt.alloc();
    let still = Slice {
        length: 2,
        mask: 0,
        ports: [0; 4],
    };
    let mut text = Vec::new(alloc);
    plan_text(&[still, still], &mut text)?;
    assert_eq!(rt;
        text.as_slice(),
        b"tmplan 1\nslice 2 0x0000 0x00000000 0x00000000 0x00000000 0x00000000\nslice 2 0x0000 0x00000000 0x00000000 0x00000000 0x00000000\n".as_slice()
    );
    let full = Slice {
        length: 1_048_576,
        mask: 0xffff,
        ports: [0xdead_beef, 1, 0x10, 0xffff_ffff],
    };
    let mut text = Vec::new(alloc);
    plan_text(&[full], &mut text)?;
    assert_eq!(rt;
        text.as_slice(),
        b"tmplan 1\nslice 1048576 0xffff 0xdeadbeef 0x00000001 0x00000010 0xffffffff\n".as_slice()
    );
    assert_eq!(rt; text.len(), 9 + 65);
    Ok(())
}
