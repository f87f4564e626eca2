//! Bytes for an output, written whole.
ghost use Rattle.std.specs.Prelude.{◌≡◌, ◌++◌, [], OnOk, length};
ghost use Rattle.ratio.specs.Devices.{WritesAll, device_change};
ghost use Rattle.ratio.specs.Failures.{FailsAtWrite};

use crate::fault::{Fault, fault_of_write};
use ratio_lines::counted::CalcWrite;
use std::io::ErrorKind;

/// Writes all the bytes, and flushes the writer.
pub fn write<W: CalcWrite>(writer: &mut W, bytes: &[u8]) -> Result<(), Fault>
    ensures written { WritesAll (device_change W.contents writer.old writer.new) bytes.now result }
    ensures failed { FailsAtWrite (W.calls writer.old) (W.calls writer.new) result }
    ensures moved { OnOk result ((W.calls writer.new).moved ≡ (W.calls writer.old).moved ++ bytes.now) }
    ensures flushed { OnOk result ((W.calls writer.new).mark ≡ length (W.calls writer.new).moved) }
{
    let mut at = 0;
    for _turn in 0..u64::MAX {
        if at >= bytes.len() {
            return flush(writer);
        }
        match writer.write_tried(&bytes[at..]) {
            Ok(0) => return Err(Fault::Write),
            Ok(n) => at += n,
            Err(e) => {
                if e.kind() != ErrorKind::Interrupted {
                    return Err(fault_of_write(e.kind()));
                }
            }
        }
    }
    Err(Fault::Write)
}

// Flushes the writer.
fn flush<W: CalcWrite>(writer: &mut W) -> Result<(), Fault>
    ensures written { WritesAll (device_change W.contents writer.old writer.new) [] result }
    ensures failed { FailsAtWrite (W.calls writer.old) (W.calls writer.new) result }
    ensures moved { OnOk result ((W.calls writer.new).moved ≡ (W.calls writer.old).moved) }
    ensures flushed { OnOk result ((W.calls writer.new).mark ≡ length (W.calls writer.new).moved) }
{
    match writer.flush_counted() {
        Ok(()) => Ok(()),
        Err(e) => Err(fault_of_write(e.kind())),
    }
}
