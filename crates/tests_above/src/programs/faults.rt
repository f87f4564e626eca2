//! Runs on devices that fail, and on inputs that end early.
use crate::programs::answered::{answered, repeated};
use crate::programs::devices::{Feed, Refusal, Sink};
use ratio_lines::calculator::run;
use ratio_lines::counted::Counted;
use ratio_lines::fault::CalcFault;
use std::alloc::Global;
use std::io::ErrorKind;
use std::process::Abort;
use std::test::Fail;

/// Two lines of 18 bytes.
const INPUT: &[u8] = b"1/2 + 1/3\n1 cmp 2\n";

/// The answers to them, of 6 bytes.
const ANSWERS: &[u8] = b"5/6\n<\n";

/// The first `count` bytes, or all if there are fewer.
fn beginning(bytes: &[u8], count: usize) -> &[u8] {
    &bytes[..count.min(bytes.len())]
}

/// How many bytes of answers are written if a read fails after `read` bytes. Each row of the
/// table says from how many bytes on it holds.
fn written_before(table: &[(usize, usize)], read: usize) -> usize {
    let mut written = 0;
    for (from, count) in table {
        if read >= *from {
            written = *count;
        }
    }
    written
}

/// A run on these devices ends with this fault, after it wrote these bytes.
fn assert_fault(rt: &impl Abort, reader: Feed, writer: Sink, fault: CalcFault, written: &[u8]) {
    let mut reader = Counted::new(reader);
    let mut writer = Counted::new(writer);
    let result = run(&mut reader, &mut writer);
    assert_eq!(rt; result, Err(fault));
    assert_eq!(rt; writer.into_inner().bytes.as_slice(), written);
}

/// The reader fails after each number of bytes, with two kinds of
/// error. A read gives at most 1, 7 or 512 bytes.
fn assert_read_faults(
    rt: &impl Abort,
    alloc: Global,
    input: &[u8],
    answers: &[u8],
    table: &[(usize, usize)],
) {
    for left in 0..input.len() {
        let written = beginning(answers, written_before(table, left));
        for kind in [ErrorKind::Other, ErrorKind::Interrupted] {
            for step in [1, 7, 512] {
                let reader = Feed::failing(input, step, left, kind);
                assert_fault(rt, reader, Sink::new(alloc), CalcFault::Read, written);
            }
        }
    }
}

/// The writer refuses a call after each number of bytes, in three
/// ways. A write takes at most 1 byte, or all.
fn assert_write_faults(rt: &impl Abort, alloc: Global, input: &[u8], answers: &[u8]) {
    for left in 0..answers.len() {
        for refusal in [
            Refusal::Fails(ErrorKind::Other),
            Refusal::Fails(ErrorKind::Interrupted),
            Refusal::TakesNone,
        ] {
            for read_step in [1, 7, 512] {
                for write_step in [1, usize::MAX] {
                    let writer = Sink::refusing(alloc, write_step, left, refusal);
                    assert_fault(
                        rt,
                        Feed::new(input, read_step),
                        writer,
                        CalcFault::Write,
                        beginning(answers, left),
                    );
                }
            }
        }
    }
}

#[test]
fn stops_where_a_device_fails(rt: HostRuntime) {
    assert_read_faults(&rt, rt.alloc(), INPUT, ANSWERS, &[(10, 4), (18, 6)]);
    assert_write_faults(&rt, rt.alloc(), INPUT, ANSWERS);
}

#[test]
fn stops_where_a_device_fails_in_long_lines(rt: HostRuntime) -> Result<(), Fail> {
    let mut input = repeated(rt.alloc(), b"a", 600)?;
    input.extend_from_slice(b"\n")?;
    input.extend_from_slice(repeated(rt.alloc(), b"b", 1001)?.as_slice())?;
    input.extend_from_slice(b"\n1 + 2\n")?;
    let answers = b"error: want LEFT OP RIGHT\nerror: line too long\n3\n";
    let table = [(601, 26), (1603, 47), (1609, 49)];
    assert_read_faults(&rt, rt.alloc(), input.as_slice(), answers, &table);
    assert_write_faults(&rt, rt.alloc(), input.as_slice(), answers);
    Ok(())
}

/// The answers to one piece are longer than the 1,024 bytes that are written at once: the first call of the
/// writer gets 26 answers, of 988 bytes. All that a writer took before it refused is written, in each answer
/// of the piece and at each byte beside the end of that call.
#[test]
fn stops_where_a_write_fails_amid_a_piece(rt: HostRuntime) -> Result<(), Fail> {
    let input = repeated(rt.alloc(), b"1 + x\n", 85)?;
    let answers = repeated(rt.alloc(), b"error: right: failed to parse integer\n", 85)?;
    for left in 0..answers.len() {
        if left % 37 != 0 && left.abs_diff(988) > 2 {
            continue;
        }
        let written = beginning(answers.as_slice(), left);
        let reader = Feed::new(input.as_slice(), 512);
        let writer = Sink::refusing(rt.alloc(), usize::MAX, left, Refusal::TakesNone);
        assert_fault(&rt, reader, writer, CalcFault::Write, written);
    }
    Ok(())
}

#[test]
fn stops_after_the_last_byte(rt: HostRuntime) {
    for kind in [ErrorKind::Other, ErrorKind::Interrupted] {
        let reader = Feed::failing(INPUT, 1, INPUT.len(), kind);
        assert_fault(&rt, reader, Sink::new(rt.alloc()), CalcFault::Read, ANSWERS);
        let writer = Sink::unflushed(rt.alloc(), kind);
        assert_fault(&rt, Feed::new(INPUT, 1), writer, CalcFault::Write, ANSWERS);
    }
}

#[test]
fn answers_inputs_that_end_early(rt: HostRuntime) -> Result<(), Fail> {
    let want: &[u8] = b"error: want LEFT OP RIGHT\n";
    let answers: [&[u8]; 11] = [
        b"",
        want,
        want,
        want,
        want,
        want,
        want,
        b"3/2\n",
        b"error: right: failed to parse integer\n",
        b"5/6\n",
        b"5/6\n",
    ];
    for (count, answer) in answers.iter().enumerate() {
        for step in [1, 7, 512] {
            assert_eq!(rt;
                answered(rt.alloc(), beginning(INPUT, count), step)?.as_slice(),
                *answer
            );
        }
    }
    Ok(())
}
