//! The worked rows: lines and their answers.
use crate::programs::answered::{answered, assert_answers, repeated};
use std::alloc::Global;
use std::test::Fail;

/// An input, and the answers to its lines.
#[derive(Clone, Copy)]
struct Row {
    input: &'static [u8],
    answers: &'static [u8],
}

const fn make_row(input: &'static [u8], answers: &'static [u8]) -> Row {
    Row { input, answers }
}

#[test]
fn answers_lines(rt: HostRuntime) -> Result<(), Fail> {
    let rows = [
        make_row(
            b"\x31\x2f\x32\x20\x63\x6d\x70\x20\x31\x2f\x33\x0a",
            b"\x3e\x0a",
        ),
        make_row(b"2/4 cmp 1/2\n", b"=\n"),
        make_row(
            b"-9223372036854775808 cmp 9223372036854775807/9223372036854775806\n",
            b"<\n",
        ),
        make_row(b"1/0 cmp x\n", b"error: left: zero value denominator\n"),
        make_row(b"1 cmp x\n", b"error: right: failed to parse integer\n"),
        make_row(b"1 cmp 0/0\n", b"error: right: zero value denominator\n"),
        make_row(b"1/-2 cmp 1/2\n", b"<\n"),
        make_row(b"-1/-2 cmp 1/2\n", b"=\n"),
        make_row(b"-9223372036854775808/-2 cmp 4611686018427387904\n", b"=\n"),
        make_row(
            b"-9223372036854775808/-1 cmp 1\n",
            b"error: left: failed to parse integer\n",
        ),
        make_row(
            b"1/-9223372036854775808 cmp 1\n",
            b"error: left: failed to parse integer\n",
        ),
        make_row(b"1/2 ^ 3\n", b"error: unknown operator\n"),
        make_row(b"x ^ y\n", b"error: unknown operator\n"),
        make_row(b"1/2+1/3\n", b"error: want LEFT OP RIGHT\n"),
        make_row(b"1  + 2\n", b"error: want LEFT OP RIGHT\n"),
        make_row(b"\n", b"error: want LEFT OP RIGHT\n"),
        make_row(b"\xff\n", b"error: not UTF-8\n"),
        make_row(b"", b""),
        make_row(b"1 cmp 1", b"=\n"),
        make_row(b"1 cmp 2\r\n", b"<\n"),
        make_row(b"1 cmp 2\r\r\n", b"error: right: failed to parse integer\n"),
        make_row(b"\xff", b"error: not UTF-8\n"),
        make_row(
            b"9223372036854775808 cmp 1\n",
            b"error: left: failed to parse integer\n",
        ),
        make_row(
            b"-1 cmp +1\n3 cmp 2\n\n2/3 cmp 2/3",
            b"<\n>\nerror: want LEFT OP RIGHT\n=\n",
        ),
    ];
    for row in rows {
        assert_answers(&rt, rt.alloc(), row.input, row.answers)?;
    }
    Ok(())
}

#[test]
fn answers_operators(rt: HostRuntime) -> Result<(), Fail> {
    let rows = [
        make_row(
            b"\x31\x2f\x32\x20\x2b\x20\x31\x2f\x33\x0a",
            b"\x35\x2f\x36\x0a",
        ),
        make_row(b"1/2 - 1/3", b"1/6\n"),
        make_row(b"6/-4 + 0", b"-3/2\n"),
        make_row(b"-3/4 * 2/9", b"-1/6\n"),
        make_row(b"3/2 / -1/2", b"-3\n"),
        make_row(b"5/2 % 3/2", b"1\n"),
        make_row(b"-9223372036854775808 % -1", b"0\n"),
        make_row(b"9223372036854775807 % 1/2", b"error: out of range\n"),
        make_row(b"1/2 cmp 1/3", b">\n"),
        make_row(b"9223372036854775807 + 1", b"error: out of range\n"),
        make_row(
            b"9223372036854775807/2 + 9223372036854775807/2",
            b"9223372036854775807\n",
        ),
        make_row(b"-9223372036854775808 / -1", b"error: out of range\n"),
        make_row(b"-9223372036854775808 - 1", b"error: out of range\n"),
        make_row(b"9223372036854775807/2 * 2/9223372036854775807", b"1\n"),
        make_row(b"1 / 0", b"error: division by zero\n"),
        make_row(b"0 / 0", b"error: division by zero\n"),
        make_row(b"1 % 0/5", b"error: division by zero\n"),
        make_row(b"1/0 + x", b"error: left: zero value denominator\n"),
        make_row(b"x / 0", b"error: left: failed to parse integer\n"),
        make_row(b"x + 1/0", b"error: left: failed to parse integer\n"),
        make_row(b"1 + x", b"error: right: failed to parse integer\n"),
        make_row(b"1 / 0/0", b"error: right: zero value denominator\n"),
        make_row(
            b"1/-9223372036854775808 + 1",
            b"error: left: failed to parse integer\n",
        ),
        make_row(b"1/2 ^ 3", b"error: unknown operator\n"),
        make_row(b"1 + 2\r", b"3\n"),
        make_row(b"1 + 2\r\r", b"error: right: failed to parse integer\n"),
        make_row(b"1 - 1", b"0\n"),
        make_row(b"1 + 2\n1 - 2\n1/2 * 1/2\n", b"3\n-1\n1/4\n"),
    ];
    for row in rows {
        assert_answers(&rt, rt.alloc(), row.input, row.answers)?;
    }
    Ok(())
}

#[test]
fn answers_several_operators(rt: HostRuntime) -> Result<(), Fail> {
    let rows = [
        make_row(b"1/2 + 1/3 + 1/6", b"1\n"),
        make_row(b"1 - 2 * 3", b"-3\n"),
        make_row(b"1/2 + 1/3 cmp 5/6", b"=\n"),
        make_row(b"1 + 2 + 3 cmp 7", b"<\n"),
        make_row(b"2 * 3 % 4 / -2", b"-1\n"),
        make_row(b"1 cmp 2 + 3", b"error: cmp must be last\n"),
        make_row(b"1 cmp 2 cmp 3", b"error: cmp must be last\n"),
        make_row(b"1 + 2 cmp 3 + 4 ^ 5", b"error: unknown operator\n"),
        make_row(b"1 cmp 2 ^ 3", b"error: unknown operator\n"),
        make_row(b"x cmp 2 + 3", b"error: cmp must be last\n"),
        make_row(b"1 / 0 + x", b"error: right: failed to parse integer\n"),
        make_row(
            b"1 / 0 + 1/0 + x",
            b"error: right: zero value denominator\n",
        ),
        make_row(b"1 + 1/0 + x", b"error: right: zero value denominator\n"),
        make_row(b"x / 0 + 1/0", b"error: left: failed to parse integer\n"),
        make_row(b"1 / 0 + 1", b"error: division by zero\n"),
        make_row(b"1 / 0 cmp 1", b"error: division by zero\n"),
        make_row(b"1 + 1 % 0 + 1", b"error: division by zero\n"),
        make_row(b"9223372036854775807 + 1 - 1", b"error: out of range\n"),
        make_row(b"9223372036854775807 + 1 / 0", b"error: out of range\n"),
        make_row(
            b"1 / 0 + 9223372036854775807 + 1",
            b"error: division by zero\n",
        ),
        make_row(b"9223372036854775807 + 1 cmp 1", b"error: out of range\n"),
        make_row(b"1 + 2 +", b"error: want LEFT OP RIGHT\n"),
        make_row(b"1 + 2 + ", b"error: want LEFT OP RIGHT\n"),
        make_row(b"1 + 2  3", b"error: want LEFT OP RIGHT\n"),
        make_row(b" 1 + 2 + 3", b"error: want LEFT OP RIGHT\n"),
        make_row(b"1", b"error: want LEFT OP RIGHT\n"),
        make_row(b"1 +", b"error: want LEFT OP RIGHT\n"),
        make_row(b"1 + 2 + 3\r", b"6\n"),
        make_row(b"1 + 2 + 3\r\r", b"error: right: failed to parse integer\n"),
    ];
    for row in rows {
        assert_answers(&rt, rt.alloc(), row.input, row.answers)?;
    }
    Ok(())
}

#[test]
fn answers_hostile_lines(rt: HostRuntime) -> Result<(), Fail> {
    let rows = [
        make_row(b"1 + \xe2\x82", b"error: not UTF-8\n"),
        make_row(
            b"\xef\xbc\x91 + 2",
            b"error: left: failed to parse integer\n",
        ),
        make_row(b"1 + 2\0", b"error: right: failed to parse integer\n"),
        make_row(
            b"\0\n\0\0 + 1\n",
            b"error: want LEFT OP RIGHT\nerror: left: failed to parse integer\n",
        ),
        make_row(b"1\t+\t2", b"error: want LEFT OP RIGHT\n"),
    ];
    for row in rows {
        assert_answers(&rt, rt.alloc(), row.input, row.answers)?;
    }
    Ok(())
}

/// A long input: `first`, then `count` times `middle`, and then `last`.
#[derive(Clone, Copy)]
struct LongRow {
    first: &'static [u8],
    middle: &'static [u8],
    count: usize,
    last: &'static [u8],
    answers: &'static [u8],
}

const fn long(
    first: &'static [u8],
    middle: &'static [u8],
    count: usize,
    last: &'static [u8],
    answers: &'static [u8],
) -> LongRow {
    LongRow {
        first,
        middle,
        count,
        last,
        answers,
    }
}

/// The bytes of a long row.
fn input_of(alloc: Global, row: &LongRow) -> Result<Vec<u8>, Fail> {
    let mut input = Vec::new(alloc);
    input.extend_from_slice(row.first)?;
    input.extend_from_slice(repeated(alloc, row.middle, row.count)?.as_slice())?;
    input.extend_from_slice(row.last)?;
    Ok(input)
}

#[test]
fn answers_long_lines(rt: HostRuntime) -> Result<(), Fail> {
    let rows = [
        long(b"1", b" + 1", 249, b"", b"250\n"),
        long(
            b"01",
            b" + 1",
            249,
            b"\r\r",
            b"error: right: failed to parse integer\n",
        ),
        long(b"01", b" + 1", 249, b"\r\r\r", b"error: line too long\n"),
        long(b"1", b" + 1", 250, b"", b"error: line too long\n"),
        long(b"", b"a", 120, b"", b"error: want LEFT OP RIGHT\n"),
        long(b"", b"a", 121, b"", b"error: want LEFT OP RIGHT\n"),
        long(b"", b"a", 119, b"\r", b"error: want LEFT OP RIGHT\n"),
        long(b"", b"a", 120, b"\r", b"error: want LEFT OP RIGHT\n"),
        long(b"", b"a", 1000, b"", b"error: want LEFT OP RIGHT\n"),
        long(b"", b"a", 1001, b"", b"error: line too long\n"),
        long(b"", b"a", 1000, b"\r", b"error: line too long\n"),
        long(b"", b"\xff", 121, b"", b"error: not UTF-8\n"),
        long(b"", b"\0", 1001, b"\n1 + 2", b"error: line too long\n3\n"),
        long(b"", b"a", 10_000, b"", b"error: line too long\n"),
        // A line that is too long, and a long one that is not. Another line follows each.
        long(b"", b"a", 1001, b"\n1 - 1\n", b"error: line too long\n0\n"),
        long(
            b"",
            b"a",
            600,
            b"\n1 - 1\n",
            b"error: want LEFT OP RIGHT\n0\n",
        ),
        // A line end at the first byte of a piece of 512 bytes, and a carriage return at the last byte.
        long(
            b"",
            b"a",
            512,
            b"\n1 - 1\n",
            b"error: want LEFT OP RIGHT\n0\n",
        ),
        long(
            b"",
            b"a",
            505,
            b"\n1 + 2\r\n",
            b"error: want LEFT OP RIGHT\n3\n",
        ),
        // The first two bytes of a character end a piece of 512
        // bytes. Its third byte follows, or does not.
        long(
            b"",
            b"a",
            505,
            b"\n1 + \xe2\x82\xac\n",
            b"error: want LEFT OP RIGHT\nerror: right: failed to parse integer\n",
        ),
        long(
            b"",
            b"a",
            505,
            b"\n1 + \xe2\x82\n1 - 1\n",
            b"error: want LEFT OP RIGHT\nerror: not UTF-8\n0\n",
        ),
        long(
            b"",
            b"a",
            505,
            b"\n1 + \xe2\x82",
            b"error: want LEFT OP RIGHT\nerror: not UTF-8\n",
        ),
    ];
    for row in rows {
        let input = input_of(rt.alloc(), &row)?;
        assert_answers(&rt, rt.alloc(), input.as_slice(), row.answers)?;
    }
    Ok(())
}

#[test]
fn answers_a_line_of_ten_megabytes(rt: HostRuntime) -> Result<(), Fail> {
    let input = repeated(rt.alloc(), b"aaaaaaaaaa", 1_000_000)?;
    let answers = answered(rt.alloc(), input.as_slice(), 512)?;
    assert_eq!(rt; answers.as_slice(), b"error: line too long\n".as_slice());
    Ok(())
}

/// `count` equal lines, and the answer to each.
#[derive(Clone, Copy)]
struct EqualLines {
    line: &'static [u8],
    answer: &'static [u8],
    count: usize,
}

#[test]
fn answers_many_lines(rt: HostRuntime) -> Result<(), Fail> {
    let rows = [
        // The last of 86 lines of 6 bytes crosses the end of a piece of 512 bytes.
        EqualLines {
            line: b"1 + 2\n",
            answer: b"3\n",
            count: 86,
        },
        // The answers to one piece are many times longer than the array of waiting bytes.
        EqualLines {
            line: b"\n",
            answer: b"error: want LEFT OP RIGHT\n",
            count: 600,
        },
    ];
    for row in rows {
        let input = repeated(rt.alloc(), row.line, row.count)?;
        let answers = repeated(rt.alloc(), row.answer, row.count)?;
        assert_answers(&rt, rt.alloc(), input.as_slice(), answers.as_slice())?;
    }
    Ok(())
}
