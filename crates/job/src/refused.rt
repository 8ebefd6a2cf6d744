// Why a line of a job is refused.
ghost use Rattle.std.specs.Prelude.{◌≡◌};
ghost use Rattle.job.specs.Refused.{shown};
ghost use Rattle.job.specs.declared.refused.Refused.TheVariants.{ByJob, BySheet, ByPanel};
ghost use Rattle.panel.specs.declared.refusal.SheetRefusal.TheVariants.{Prices};

use crate::reader::Unreadable;
use costs::RowRefusal;
use panel::{Level, Refusal, SheetRefusal, Shown};

/// Why a line is refused: it cannot be read or is out of turn, or what it says is turned down.
#[derive(Clone, Copy, Debug, PartialEq, Eq)]
pub enum Refused {
    ByJob(Unreadable),
    BySheet(SheetRefusal),
    ByPanel(Refusal),
}

impl Refused {
    /// What is shown of a refusal.
    // a method and no `From`: no plainer, since a refusal is shown where it is borrowed
    pub fn shown(&self) -> Shown
        ensures { result ≡ shown self.now }
    {
        match *self {
            Refused::ByJob(e) => Shown::new(Level::Job, 16, e.place as u64),
            Refused::BySheet(e) => e.shown(),
            Refused::ByPanel(e) => e.shown(),
        }
    }
}

impl From<Unreadable> for Refused {
    ghost from_gives = { λ e r. r ≡ ByJob e };

    fn from(e: Unreadable) -> Refused {
        Refused::ByJob(e)
    }
}

impl From<SheetRefusal> for Refused {
    ghost from_gives = { λ e r. r ≡ BySheet e };

    fn from(e: SheetRefusal) -> Refused {
        Refused::BySheet(e)
    }
}

impl From<RowRefusal> for Refused {
    ghost from_gives = { λ e r. r ≡ BySheet (Prices e) };

    fn from(e: RowRefusal) -> Refused {
        Refused::BySheet(e.into())
    }
}

impl From<Refusal> for Refused {
    ghost from_gives = { λ e r. r ≡ ByPanel e };

    fn from(e: Refusal) -> Refused {
        Refused::ByPanel(e)
    }
}
