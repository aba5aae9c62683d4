// Block files, each with the report that it must give.
use crate::files::{EXAMPLE, bytes_of, repeated};
use report::reporting::report;
use std::alloc::Global;
use std::process::Abort;
use std::test::Fail;

// Blocks that are timed.
const TIMED: [(&str, &str); 12] = [
    // an empty file
    ("", "late none\nearly none\n"),
    // the example of four nets
    (
        EXAMPLE,
        "late -5 2 0 2\nearly 2 2 1 2\nnet 0 -5 10\nnet 1 3 2\nnet 2 -5 2\nnet 3 -5 2\n",
    ),
    // a launch and a late limit on one net
    (
        "0105 07000000 05000000",
        "late -2 0\nearly none\nnet 0 -2 -\n",
    ),
    // a launch and no limit
    ("0101 07000000", "late none\nearly none\nnet 0 - -\n"),
    // limits and no launch
    (
        "010C 05000000 03000000",
        "late none\nearly none\nnet 0 - -\n",
    ),
    // the longest transition
    (
        "0303 00000000 1F01001F 0103 00000000 F704 0104 02000000 0202 0100",
        "late 1 1 0\nearly none\nnet 0 1 -\nnet 1 1 -\n",
    ),
    // a chain of three nets, each with a limit
    (
        "0303 00050000 1F05000A 0107 0A000000 3900 64000000 010C 14000000 0F000000 010C 1E000000 0A000000 0202 0100 0203 0100 0200",
        "late 5 1 0\nearly 0 1 0\nnet 0 5 0\nnet 1 5 0\nnet 2 10 10\n",
    ),
    // two arcs between the same nets
    (
        "0303 000A0000 1F0A0000 0303 00140005 1F140005 0101 00000000 010C 32000000 05000000 0202 0100 0206 0100 01",
        "late 30 1 1\nearly 5 1 0\nnet 0 30 5\nnet 1 30 5\n",
    ),
    // a diamond whose fast branch is slow to change
    (
        "0303 0014001E 1F14001E 0303 001E0000 1F1E0000 0303 00000000 1F3E001F 0103 00000000 0B00 0100 0100 010C 40000000 20000000 0206 0100 00 0206 0200 01 0207 0100 0300 02 0207 0200 0300 02",
        "late -16 2 0 2\nearly -2 2 1 3\nnet 0 -16 -2\nnet 1 -16 48\nnet 2 34 -2\nnet 3 -16 -2\n",
    ),
    // a kind of eight points
    (
        "03FF 000A0001 010B0002 020C0003 030D0004 040E0005 050F0006 06100007 1F29001F 0103 00000000 6000 010C 14000000 14000000 0202 0100",
        "late 4 1 0\nearly -4 1 0\nnet 0 4 -4\nnet 1 4 -4\n",
    ),
    // points on the highest bits
    (
        "03C0 000A0001 1F29000A 0101 00000000 0104 14000000 0202 0100",
        "late 10 1 0\nearly none\nnet 0 10 -\nnet 1 10 -\n",
    ),
    // delays that stay level
    ("0303 000A0001 1F0A0001", "late none\nearly none\n"),
];

// Kinds that the model refuses, by the number of the refusal.
const KINDS: [(&str, &str); 13] = [
    // 2: no points
    ("0300", "fault 0 2 0\n"),
    // 2: one point
    ("0310 00000000", "fault 0 2 1\n"),
    // 3: the first step
    ("0303 01000000 1E000000", "fault 0 3 0\n"),
    // 3: the last step
    ("0307 00000000 0C000000 1E000000", "fault 0 3 2\n"),
    // 4: a step that stays
    ("030F 00000000 05000000 05000000 1F000000", "fault 0 4 2\n"),
    // 4: before 5
    ("030F 000A0001 05090001 050C0001 1F0C0001", "fault 0 4 2\n"),
    // 4: a step above 31
    ("0307 00000000 28000000 1F000000", "fault 0 4 2\n"),
    // 5: a delay that falls
    ("0303 000A0001 1F090001", "fault 0 5 1\n"),
    // 5: by its high byte
    ("0303 00000100 1FFF0000", "fault 0 5 1\n"),
    // 5: before 6
    ("0307 00000002 05010001 1F000003", "fault 0 5 2\n"),
    // 6: an output step that falls
    ("0303 00000004 1F000003", "fault 0 6 1\n"),
    // 7: an output step above 31
    ("0303 00000001 1F000020", "fault 0 7 1\n"),
    // 7: at its first point
    ("0303 00000020 1F000021", "fault 0 7 0\n"),
];

// Refusals of the draft, the block and the timing.
const BLOCKS: [(&str, &str); 15] = [
    // 11: the head
    ("0100 0202 0500", "fault 2 11 5\n"),
    // 11: the tail before the head
    ("0100 0203 0500 0600", "fault 2 11 5\n"),
    // 11: before 15
    ("0100 0207 0000 0100 20", "fault 2 11 1\n"),
    // 12: the launch time
    ("0103 41420F00 F804", "fault 0 12 1000001\n"),
    // 12: the transition
    ("010F 40420F00 F804 012D3101 012D3101", "fault 0 12 1272\n"),
    // 12: the late limit
    (
        "010F 40420F00 F704 012D3101 022D3101",
        "fault 0 12 20000001\n",
    ),
    // 12: the early limit
    (
        "010F 40420F00 F704 002D3101 022D3101",
        "fault 0 12 20000002\n",
    ),
    // 12: a refused net is not there
    ("0100 0105 41420F00 01000000", "fault 2 12 1000001\n"),
    // 13: an arc from a net to itself
    ("0100 0200", "fault 4 13 0\n"),
    // 13: the lowest net behind a cycle
    (
        "0100 0100 0100 0100 0100 0203 0300 0400 0203 0400 0300 0203 0400 0100 0202 0300",
        "fault 32 13 1\n",
    ),
    // 13: two cycles
    (
        "0100 0100 0100 0100 0203 0200 0300 0203 0300 0200 0203 0100 0100",
        "fault 26 13 1\n",
    ),
    // 13: before 23
    ("0100 0100 0202 0100 0203 0100 0100", "fault 14 13 1\n"),
    // 15: a kind above 31
    ("0100 0204 20", "fault 2 15 32\n"),
    // 23: a kind that the model does not hold
    ("0100 0100 0202 0100", "fault 8 23 0\n"),
    // 23: the lowest such arc
    (
        "0303 00000000 1F000000 0100 0100 0202 0100 0206 0100 01 0206 0100 02",
        "fault 28 23 1\n",
    ),
];

// Refusals of the reader.
const RECORDS: [(&str, &str); 12] = [
    // 24: no map byte
    ("07", "fault 0 24 1\n"),
    // 24: a field cut short
    ("0100 0107 0000 00", "fault 2 24 7\n"),
    // 24: the second field missing
    ("0103 00000000", "fault 0 24 6\n"),
    // 24: a point missing
    ("0303 00000000", "fault 0 24 6\n"),
    // 24: before 26
    ("011F", "fault 0 24 2\n"),
    // 25: an unknown tag
    ("0700", "fault 0 25 7\n"),
    // 25: tag 0
    ("0000", "fault 0 25 0\n"),
    // 26: a net's bit 4
    ("0110", "fault 0 26 16\n"),
    // 26: an arc's bit 3
    ("0208", "fault 0 26 8\n"),
    // 26: before 27
    ("0112 3800", "fault 0 26 18\n"),
    // 27: a transition without a launch time
    ("0102 3800", "fault 0 27 2\n"),
    // 27: after a good record
    ("0100 010E 3800 01000000 01000000", "fault 2 27 14\n"),
];

fn reports_are(rt: &impl Abort, heap: Global, table: &[(&str, &str)]) -> Result<(), Fail> {
    for (file, expected) in table {
        let bytes = bytes_of(heap, file)?;
        let text = report(heap, &bytes)?;
        assert_eq!(rt; text.as_str(), *expected, "{}", file);
    }
    Ok(())
}

#[test]
fn timed_blocks(rt: HostRuntime) -> Result<(), Fail> {
    reports_are(&rt, rt.alloc(), &TIMED)
}

#[test]
fn refused_kinds(rt: HostRuntime) -> Result<(), Fail> {
    reports_are(&rt, rt.alloc(), &KINDS)
}

#[test]
fn refused_blocks(rt: HostRuntime) -> Result<(), Fail> {
    reports_are(&rt, rt.alloc(), &BLOCKS)
}

#[test]
fn refused_records(rt: HostRuntime) -> Result<(), Fail> {
    reports_are(&rt, rt.alloc(), &RECORDS)
}

// The three refusals for want of room: 1, 9 and 10.
#[test]
fn full(rt: HostRuntime) -> Result<(), Fail> {
    let heap = rt.alloc();
    let kinds = repeated(heap, "", "0303 00000000 1F000000", 33)?;
    assert_eq!(rt; report(heap, &kinds)?.as_str(), "fault 320 1 32\n");
    let nets = repeated(heap, "", "0100", 257)?;
    assert_eq!(rt; report(heap, &nets)?.as_str(), "fault 512 9 256\n");
    let arcs = repeated(heap, "0100 0100", "0202 0100", 1025)?;
    assert_eq!(rt; report(heap, &arcs)?.as_str(), "fault 4100 10 1024\n");
    Ok(())
}
