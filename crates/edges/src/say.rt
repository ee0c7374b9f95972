// Lines of output: a label and a value.
use record::Kernel;
use std::fmt::Display;
use std::io;

pub fn line(rt: &impl Print, label: &str, value: impl Display + Copy) -> io::Result<()> {
    println!(rt; "{label}: {value}")
}

// 1 where the record is sound, 0 where it isn't.
pub fn verdict(rt: &impl Print, label: &str, k: Kernel) -> io::Result<()> {
    line(rt, label, u32::from(record::soundness::is_sound(k)))
}
