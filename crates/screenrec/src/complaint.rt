//! What the program says where a recording didn't end well.
ghost use Rattle.std.specs.Prelude.{◌≡◌};
ghost use Rattle.screenrec.specs.Numbers.{status_number};

use crate::Status;
use std::fmt;

impl Status {
    /// The exit status of the program.
    pub fn number(self) -> u8
        ensures { result ≡ status_number self }
    {
        match self {
            Status::Ok => 0,
            Status::Usage => 1,
            Status::BadPaint { .. } => 2,
            Status::Limit { .. } => 3,
            Status::InputFault { .. } => 4,
            Status::SinkFault => 5,
            Status::ReportFault => 6,
            Status::NoMemory => 7,
            Status::TooLarge { .. } => 8,
            Status::BadStream { .. } => 9,
        }
    }
}

/// One line on standard error. It is empty for `Ok`.
#[derive(Clone, Copy, Debug, PartialEq, Eq)]
pub struct Complaint(pub Status);

impl fmt::Display for Complaint {
    fn fmt<W: fmt::Write>(&self, f: &mut fmt::Formatter<W>) -> fmt::Result {
        match self.0 {
            Status::Ok => Ok(()),
            Status::Usage => write!(f, "usage"),
            Status::BadPaint { file, line, cause } => {
                write!(f, "bad paint: file {file} line {line}: {cause:?}")
            }
            Status::Limit { which } => write!(f, "limit: {which:?}"),
            Status::InputFault { file } => write!(f, "cannot read: file {file}"),
            Status::SinkFault => write!(f, "cannot write"),
            Status::ReportFault => write!(f, "cannot report"),
            Status::NoMemory => write!(f, "no memory"),
            Status::TooLarge { file } => write!(f, "too large: file {file}"),
            Status::BadStream { at } => write!(f, "bad stream: unit {at}"),
        }
    }
}
