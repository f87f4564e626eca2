//! The programs: the calculator over devices in memory, and the small programs. The expected answers come from outside.
mod answered;
mod devices;
mod every_call;
mod faults;
mod lines;
mod shareholders;
mod small_programs;
mod trains;
