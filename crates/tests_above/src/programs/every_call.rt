//! How a run uses its devices, and each public call that no line shows.
use crate::programs::answered::repeated;
use crate::programs::devices::{Feed, Sink, Watch, WatchedFeed, WatchedSink};
use ratio_lines::calculator::run;
use ratio_lines::counted::Counted;
use ratio_lines::fault::{CalcFault, fault_line};
use ratio_lines::laws;
use std::io::{Read, Write};
use std::test::Fail;

#[test]
fn reads_and_writes_once_a_piece(rt: HostRuntime) -> Result<(), Fail> {
    let input = repeated(rt.alloc(), b"1 + 2\n", 86)?;
    // 516 bytes come in pieces of 512 and 4 bytes, and the last read gives none. A
    // write follows each read that gave a line end.
    for (step, reads, first_reads, writes) in [
        (512, 3, [512, 4, 0], 2),
        (7, 75, [7, 7, 7], 74),
        (1, 517, [1, 1, 1], 86),
    ] {
        let watch = Watch::new();
        let mut reader = Counted::new(WatchedFeed {
            bytes: input.as_slice(),
            step,
            watch: &watch,
        });
        let mut writer = Counted::new(WatchedSink { watch: &watch });
        assert_eq!(rt; run(&mut reader, &mut writer), Ok(()));
        assert_eq!(rt; watch.reads.get(), reads);
        assert_eq!(rt; watch.first_reads.get(), first_reads);
        assert_eq!(rt; watch.writes.get(), writes);
        assert_eq!(rt; watch.ends_written.get(), 86);
        assert_eq!(rt;
            watch.is_late.get(),
            false,
            "every whole line was answered before a read"
        );
    }
    Ok(())
}

#[test]
fn names_faults(rt: HostRuntime) {
    for (fault, number, line) in [
        (CalcFault::Read, 1, "ratio_calc: read failed"),
        (CalcFault::Write, 2, "ratio_calc: write failed"),
        (CalcFault::Endless, 3, "ratio_calc: input too long"),
    ] {
        assert_eq!(rt; fault as u8, number);
        assert_eq!(rt; fault_line(fault), line);
    }
}

#[test]
fn counted_devices_read_write_and_flush(rt: HostRuntime) -> Result<(), Fail> {
    let mut reader = Counted::new(Feed::new(b"1 + 2", 3));
    let mut buffer = [0u8; 4];
    assert_eq!(rt; reader.read(&mut buffer)?, 3);
    assert_eq!(rt; buffer, [b'1', b' ', b'+', 0]);
    let mut writer = Counted::new(Sink::new(rt.alloc()));
    assert_eq!(rt; writer.write(b"3\n")?, 2);
    writer.flush()?;
    assert_eq!(rt; writer.into_inner().bytes.as_slice(), b"3\n".as_slice());
    Ok(())
}

#[test]
fn states_laws() {
    laws::side_by_side();
    laws::answers();
}
