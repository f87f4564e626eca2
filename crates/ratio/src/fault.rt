//! Why the program stops before its end, and its message.
ghost use Rattle.std.specs.Prelude.{◌≡◌, ◌++◌, true};
ghost use Rattle.ratio.specs.Devices.{WritesAll, device_change};
ghost use Rattle.ratio.specs.Failures.{FailsAtWrite, is_write};
ghost use Rattle.ratio.specs.Faults.{IsFaultOfWrite, message_of};
ghost use Rattle.ratio.specs.declared.fault.Fault.TheVariants.{Memory};

use crate::writing::write;
use ratio_lines::counted::CalcWrite;
use std::alloc::AllocError;
use std::io::ErrorKind;

/// Why the program stops before its end.
#[derive(Drop)]
pub enum Fault {
    /// An argument is not in UTF-8.
    Arguments,
    /// No option has this name.
    UnknownOption(String),
    /// There is no number from 0 to 1,000,000 behind `--decimal`.
    NoPlaces,
    /// The memory did not suffice.
    Memory,
    /// The input could not be read.
    Read,
    /// An answer could not be written.
    Write,
    /// Nobody reads the answers any more.
    Unread,
    /// 2^64-1 lines were answered, and the input has not ended.
    Endless,
}

impl From<AllocError> for Fault {
    ghost from_gives = { λ _ e. e ≡ Memory };

    fn from(_e: AllocError) -> Fault {
        Fault::Memory
    }
}

/// The fault of a write that failed with an error of this kind. A broken pipe is no news: its reader has seen enough.
pub fn fault_of_write(kind: ErrorKind) -> Fault
    ensures fault { IsFaultOfWrite kind result }
    ensures writing { is_write result ≡ true }
{
    if kind == ErrorKind::BrokenPipe {
        Fault::Unread
    } else {
        Fault::Write
    }
}

/// Writes the message of a fault, as on standard error.
pub fn report<W: CalcWrite>(errors: &mut W, fault: &Fault) -> Result<(), Fault>
    ensures written { WritesAll (device_change W.contents errors.old errors.new) (message_of fault.now) result }
    ensures failed { FailsAtWrite (W.calls errors.old) (W.calls errors.new) result }
{
    let (text, name, more) = message(fault);
    write(errors, text.as_bytes())?;
    write(errors, name.as_bytes())?;
    write(errors, more.as_bytes())
}

// The message of a fault, in three parts.
fn message(fault: &Fault) -> (&str, &str, &str)
    ensures { result.0.now ++ (result.1.now ++ result.2.now) ≡ message_of fault.now }
{
    match fault {
        Fault::Arguments => ("ratio: an argument is not UTF-8\n", "", ""),
        Fault::UnknownOption(name) => (
            "ratio: unknown option ",
            name.as_str(),
            ": see ratio --help\n",
        ),
        Fault::NoPlaces => (
            "ratio: --decimal wants a number of places, from 0 to 1000000\n",
            "",
            "",
        ),
        Fault::Memory => ("ratio: out of memory\n", "", ""),
        Fault::Read => ("ratio: read failed\n", "", ""),
        Fault::Write => ("ratio: write failed\n", "", ""),
        Fault::Unread => ("", "", ""),
        Fault::Endless => ("ratio: input too long\n", "", ""),
    }
}
