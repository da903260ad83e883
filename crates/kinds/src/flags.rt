// Presence: no or yes.
ghost use Rattle.std.specs.Prelude.{Some};
ghost use Rattle.kinds.specs.Flags.{flags, flag_code};
ghost use Rattle.kinds.specs.FlagLaws.{flags_lawful, one_flag_code};
ghost use Rattle.kinds.specs.Wording.{flag_word};
ghost use Rattle.std.proofs.Common.{ap};

use crate::codes::Coded;
use crate::semiring::Kind;
use std::fmt;

#[derive(Clone, Copy, Debug, PartialEq, Eq)]
pub struct Flag {
    pub yes: bool,
}

impl Kind for Flag {
    ghost ring = { flags };

    ghost means = { λ f. f.yes };

    ghost lawful = { flags_lawful };

    fn zero() -> Flag {
        Flag { yes: false }
    }

    fn one() -> Flag {
        Flag { yes: true }
    }

    fn plus(self, other: Flag) -> Flag {
        Flag {
            yes: self.yes | other.yes,
        }
    }

    fn times(self, other: Flag) -> Flag {
        Flag {
            yes: self.yes & other.yes,
        }
    }

    fn same(self, other: Flag) -> bool {
        self == other
    }
}

impl Coded for Flag {
    ghost number = { λ f. flag_code f.yes };

    ghost one_code = { record { same_code = λ x y e. ap flag_code e; same_meaning = λ x y e. one_flag_code x.yes y.yes e } };

    fn read(code: u64) -> Option<Flag> {
        match code {
            0 => Some(Flag { yes: false }),
            1 => Some(Flag { yes: true }),
            _ => None,
        }
    }

    fn code(self) -> u64 {
        u64::from(self.yes)
    }
}

impl fmt::Display for Flag {
    ghost output = { λ f. Some (flag_word f.yes) };

    fn fmt<W: fmt::Write>(&self, f: &mut fmt::Formatter<W>) -> fmt::Result {
        write!(f, "{}", if self.yes { "yes" } else { "no" })
    }
}
