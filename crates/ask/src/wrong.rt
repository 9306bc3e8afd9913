// What ends the program at a line.
use std::alloc::{AllocError, AllocFailed};
use std::{fmt, io};

#[derive(Debug, Drop)]
pub(crate) enum Wrong {
    NoCommand,
    NoNumber,
    Signals,
    Room,
    Full,
    // not of the line's making: no memory, or nothing can be printed; each is handed on as it is
    Memory(AllocError),
    Outside(io::Error),
}

impl fmt::Display for Wrong {
    fn fmt<W: fmt::Write>(&self, f: &mut fmt::Formatter<W>) -> fmt::Result {
        f.write_str(match self {
            Wrong::NoCommand => "no command: signals, clause, assume, room or ask",
            Wrong::NoNumber => "a word where a number is due",
            Wrong::Signals => "signals wants one number that is not negative",
            Wrong::Room => "room wants one number that is not negative",
            Wrong::Full => "no room for another clause",
            Wrong::Memory(error) => return error.fmt(f),
            Wrong::Outside(error) => return error.fmt(f),
        })
    }
}

impl From<io::Error> for Wrong {
    fn from(error: io::Error) -> Wrong {
        Wrong::Outside(error)
    }
}

impl From<AllocError> for Wrong {
    fn from(error: AllocError) -> Wrong {
        Wrong::Memory(error)
    }
}

impl<T: Drop> From<AllocFailed<T>> for Wrong {
    fn from(failed: AllocFailed<T>) -> Wrong {
        Wrong::from(AllocError::from(failed))
    }
}
