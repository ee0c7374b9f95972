// A refusal's number (01, Refusal numbers), and how refusals and answers print.
ghost use Rattle.std.specs.Prelude.{◌≡◌, Some};
ghost use Rattle.rules.specs.Answers.{said, number, refused, printed};

use crate::{Answer, Refusal};
use std::error::Error;
use std::fmt;

impl From<Refusal> for u32 {
    ghost from_gives = { λ r n. n ≡ number r };

    fn from(r: Refusal) -> u32 {
        r as u32
    }
}

impl fmt::Display for Refusal {
    ghost output = { λ r. Some (printed (refused (number r))) };

    fn fmt<W: fmt::Write>(&self, f: &mut fmt::Formatter<W>) -> fmt::Result {
        let n = u32::from(*self);
        write!(f, "refused {n}")
    }
}

impl Error for Refusal {}

impl fmt::Display for Answer {
    ghost output = { λ a. Some (printed (said a)) };

    fn fmt<W: fmt::Write>(&self, f: &mut fmt::Formatter<W>) -> fmt::Result {
        match self {
            Answer::Done => f.write_str("done"),
            Answer::Waiting => f.write_str("waiting"),
            Answer::TimedOut => f.write_str("timedout"),
            Answer::Busy => f.write_str("busy"),
            Answer::Value(v) => write!(f, "value {v}"),
            Answer::Refused(r) => write!(f, "{r}"),
        }
    }
}
