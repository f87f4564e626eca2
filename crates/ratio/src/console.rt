//! What the system gives the program and takes from it: arguments, the input and its lines, whether a person types it, and the two outputs.
//! The crate for cargo has these calls in a file by hand.
ghost use Rattle.std.specs.Prelude.{◌≡◌, ℕ, List, Option};

use crate::fault::Fault;
use ratio_lines::counted::{CalcWrite, Calls, Moments};
use std::env;
use std::io::{BufRead, BufReader, IsTerminal, Stdin};

/// The arguments behind the program's name.
pub fn arguments(rt: &HostRuntime) -> Result<Vec<String>, Fault> {
    let Ok(mut words) = env::args(rt) else {
        return Err(Fault::Arguments);
    };
    let _program = words.next();
    let mut arguments = Vec::new(rt.alloc());
    for word in words {
        match arguments.push(word) {
            Ok(()) => (),
            Err(_) => return Err(Fault::Memory),
        }
    }
    Ok(arguments)
}

/// Whether a person types the input and sees the output.
pub fn is_terminal(rt: &HostRuntime) -> bool {
    rt.stdin().is_terminal() && rt.stdout().is_terminal()
}

/// Standard input from where it is.
pub fn input(rt: &HostRuntime) -> Result<Lines<BufReader<Stdin>>, Fault> {
    match BufReader::new(rt.alloc(), rt.stdin()) {
        Ok(reader) => Ok(Lines::new(reader)),
        Err(_) => Err(Fault::Memory),
    }
}

/// A reader of lines whose calls are followed, beside those of the writer of their answers.
pub trait LineRead<W: CalcWrite> {
    ghost use Rattle.ratio.specs.Devices.{GivesLine, after_line, device_change};
    ghost use Rattle.ratio_lines.specs.Devices.{after_moment};
    ghost use Rattle.ratio_lines.specs.declared.counted.Calls.{Calls};
    ghost use Rattle.ratio_lines.specs.declared.counted.Moments.{Moments};
    ghost use Rattle.std.specs.Io.{StopsAt};

    /// The bytes that it has left, if they are known.
    ghost remaining: { Self → Option (List ℕ) };

    /// What the calls did so far.
    ghost calls: { Self → Calls };

    /// What the reader had given and the writer had taken before each read.
    ghost moments: { Self → Moments };

    /// Reads the next line, with its line end if it has one, and says whether there is one. A call that returns `Err` has failed.
    fn read_line(&mut self, line: &mut Vec<u8>, writer: &W) -> Result<bool, Fault>
        ensures stops { StopsAt line.new.items 10 }
        ensures line { GivesLine (device_change remaining self.old self.new) line.new.items result }
        ensures calls { calls self.new ≡ after_line (calls self.old) line.new.items result }
        ensures moments { moments self.new ≡ after_moment (moments self.old) (calls self.old) (W.calls writer.now) };
}

/// A reader whose lines are read by followed calls.
#[derive(Drop)]
pub struct Lines<D> {
    device: D,
    calls: Calls,
    moments: Moments,
}

impl<D> Lines<D> {
    ghost use Rattle.ratio_lines.specs.Devices.{no_calls, no_moments};

    /// The reader. No line has been read.
    pub fn new(device: D) -> Lines<D>
        ensures { result ≡ record { device = device; calls = no_calls; moments = no_moments } }
    {
        Lines {
            device,
            calls: Calls::none(),
            moments: Moments::none(),
        }
    }
}

impl<D: BufRead, W: CalcWrite> LineRead<W> for Lines<D> {
    ghost remaining = { λ l. D.remaining l.device };

    ghost calls = { λ l. l.calls };

    ghost moments = { λ l. l.moments };

    fn read_line(&mut self, line: &mut Vec<u8>, writer: &W) -> Result<bool, Fault> {
        self.moments.note(&self.calls, writer.calls());
        line.clear();
        match self.device.read_until(b'\n', line) {
            Ok(0) => {
                self.calls.note_ended();
                Ok(false)
            }
            Ok(_) => {
                self.calls.note_moved(line.as_slice());
                Ok(true)
            }
            Err(_) => {
                self.calls.note_moved(line.as_slice());
                self.calls.note_failed();
                Err(Fault::Read)
            }
        }
    }
}
