// Why no more lines are read.
use arrayvec::CapacityError;
use std::num::TryFromIntError;
use std::{fmt, io};

#[derive(Clone, Copy, Debug, PartialEq, Eq)]
pub enum Stop {
    // The input has ended.
    Ended,
    // A line has not the form.
    NotUnderstood,
    // Results could not be written.
    Lost,
}

// More numbers than a line may have.
impl<T: Drop> From<CapacityError<T>> for Stop {
    fn from(_: CapacityError<T>) -> Stop {
        Stop::NotUnderstood
    }
}

// A number that is too large for what it stands for.
impl From<TryFromIntError> for Stop {
    fn from(_: TryFromIntError) -> Stop {
        Stop::NotUnderstood
    }
}

impl From<fmt::Error> for Stop {
    fn from(_: fmt::Error) -> Stop {
        Stop::Lost
    }
}

impl From<io::Error> for Stop {
    fn from(_: io::Error) -> Stop {
        Stop::Lost
    }
}
