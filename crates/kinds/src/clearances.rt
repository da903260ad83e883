// Who may see: from none, whom nobody can be, by top, secret and confidential to public.
ghost use Rattle.std.specs.Prelude.{◌≡◌, Some};
ghost use Rattle.kinds.specs.Clearances.{rank};
ghost use Rattle.kinds.specs.Upto.{held, ranks};
ghost use Rattle.kinds.specs.NumberLaws.{ranks_lawful};
ghost use Rattle.kinds.specs.ClearanceLaws.{one_rank};
ghost use Rattle.kinds.specs.Wording.{clearance_word};

use crate::codes::Coded;
use crate::semiring::Kind;
use std::fmt;

#[derive(Clone, Copy, Debug, PartialEq, Eq, PartialOrd, Ord)]
pub enum Clearance {
    None,
    Top,
    Secret,
    Confidential,
    Public,
}

impl Clearance {
    /// Its name, in small letters.
    pub fn name(self) -> &'static str
        ensures { result.now ≡ clearance_word self }
    {
        match self {
            Self::None => "none",
            Self::Top => "top",
            Self::Secret => "secret",
            Self::Confidential => "confidential",
            Self::Public => "public",
        }
    }
}

impl Kind for Clearance {
    ghost ring = { ranks 4 };

    ghost means = { λ c. held 4 (rank c) };

    ghost lawful = { ranks_lawful 4 };

    fn zero() -> Clearance {
        Clearance::None
    }

    fn one() -> Clearance {
        Clearance::Public
    }

    fn plus(self, other: Clearance) -> Clearance {
        self.max(other)
    }

    fn times(self, other: Clearance) -> Clearance {
        self.min(other)
    }

    fn same(self, other: Clearance) -> bool {
        self == other
    }
}

impl Coded for Clearance {
    ghost number = { rank };

    ghost one_code = { one_rank };

    fn read(code: u64) -> Option<Clearance> {
        match code {
            0 => Some(Clearance::None),
            1 => Some(Clearance::Top),
            2 => Some(Clearance::Secret),
            3 => Some(Clearance::Confidential),
            4 => Some(Clearance::Public),
            _ => None,
        }
    }

    fn code(self) -> u64 {
        self as u64
    }
}

impl fmt::Display for Clearance {
    ghost output = { λ c. Some (clearance_word c) };

    fn fmt<W: fmt::Write>(&self, f: &mut fmt::Formatter<W>) -> fmt::Result {
        write!(f, "{}", self.name())
    }
}
