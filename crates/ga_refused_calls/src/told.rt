use std::fmt;

/// The result of a call, and whether its borrowed values are as they were before.
#[derive(Clone, Copy)]
pub enum Told {
    /// The call gave its result, and may have changed what it borrowed mutably.
    Answered,
    /// It ran out of memory.
    Refused { is_alike: bool },
    /// It answered another fault.
    Fault { is_alike: bool },
}

impl Told {
    /// The result of a call that fails only when out of memory.
    pub fn answered(is_answered: bool, is_alike: bool) -> Told {
        if is_answered {
            Told::Answered
        } else {
            Told::Refused { is_alike }
        }
    }

    /// The result of a call that fails, when out of memory or otherwise.
    pub fn failed(is_memory: bool, is_alike: bool) -> Told {
        if is_memory {
            Told::Refused { is_alike }
        } else {
            Told::Fault { is_alike }
        }
    }
}

impl fmt::Display for Told {
    fn fmt<W: fmt::Write>(&self, f: &mut fmt::Formatter<W>) -> fmt::Result {
        f.write_str(match self {
            Told::Answered => "answered",
            Told::Refused { is_alike: true } => "refused alike",
            Told::Refused { is_alike: false } => "refused changed",
            Told::Fault { is_alike: true } => "fault alike",
            Told::Fault { is_alike: false } => "fault changed",
        })
    }
}
