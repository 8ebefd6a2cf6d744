// Why a call or a setting is refused, and what is shown of it.
ghost use Rattle.std.specs.Prelude.{◌≡◌};
ghost use Rattle.panel.specs.declared.refusal.SheetRefusal.TheVariants.{Prices};
ghost use Rattle.panel.specs.Refusals.{row, shown_of_call, shown_of_sheet};

use costs::RowRefusal;

/// Why a call on a panel is refused, with what is returned.
#[derive(Clone, Copy, Debug, PartialEq, Eq)]
pub enum Refusal {
    LayerRange,
    ClassUnset,
    NetRange,
    OffPanel,
    SamePoint,
    TooFewPlaces(u32),
    InTheWay(u32),
    NoSuchJob,
    ShortCoordinates(u32),
    TooManyLines,
    ShortNodes(u32),
    NoPath,
    ShortPath(u32),
    JobsUsedUp,
}

/// Why a setting of a sheet or of its price list is refused.
#[derive(Clone, Copy, Debug, PartialEq, Eq)]
pub enum SheetRefusal {
    Size,
    Prices(RowRefusal),
    Class,
}

impl From<RowRefusal> for SheetRefusal {
    ghost from_gives = { λ e refusal. refusal ≡ Prices e };

    fn from(e: RowRefusal) -> SheetRefusal {
        SheetRefusal::Prices(e)
    }
}

/// Where a refusal arises.
#[derive(Clone, Copy, Debug, PartialEq, Eq)]
pub enum Level {
    Job,
    Sheet,
    Panel,
}

/// What is shown of a refusal: its number, its level and the number returned.
#[derive(Clone, Copy, Debug, PartialEq, Eq)]
pub struct Shown {
    // the customer's numbers, 1 to 16, which are printed
    pub number: u32,
    pub level: Level,
    pub returned: u64,
}

impl Shown {
    /// A refusal by these three.
    pub fn new(level: Level, number: u32, returned: u64) -> Shown
        ensures { result ≡ row number level returned }
    {
        Shown {
            number,
            level,
            returned,
        }
    }
}

// `shown` is a method, no plainer as a `From`: a refusal is shown where it is borrowed.
impl Refusal {
    /// What is shown of the refusal of a call.
    pub fn shown(&self) -> Shown
        ensures { result ≡ shown_of_call self.now }
    {
        match *self {
            Refusal::LayerRange => Shown::new(Level::Panel, 2, 0),
            Refusal::ClassUnset => Shown::new(Level::Panel, 3, 0),
            Refusal::NetRange => Shown::new(Level::Panel, 4, 0),
            Refusal::OffPanel => Shown::new(Level::Panel, 5, 0),
            Refusal::SamePoint => Shown::new(Level::Panel, 6, 0),
            Refusal::TooFewPlaces(pieces) => Shown::new(Level::Panel, 7, pieces as u64),
            Refusal::InTheWay(job) => Shown::new(Level::Panel, 8, job as u64),
            Refusal::NoSuchJob => Shown::new(Level::Panel, 9, 0),
            Refusal::ShortCoordinates(needed) => Shown::new(Level::Panel, 10, needed as u64),
            Refusal::TooManyLines => Shown::new(Level::Panel, 11, 0),
            Refusal::ShortNodes(nodes) => Shown::new(Level::Panel, 12, nodes as u64),
            Refusal::NoPath => Shown::new(Level::Panel, 13, 0),
            Refusal::ShortPath(points) => Shown::new(Level::Panel, 14, points as u64),
            Refusal::JobsUsedUp => Shown::new(Level::Panel, 15, 0),
        }
    }
}

impl SheetRefusal {
    /// What is shown of the refusal of a setting.
    pub fn shown(&self) -> Shown
        ensures { result ≡ shown_of_sheet self.now }
    {
        match *self {
            SheetRefusal::Size => Shown::new(Level::Sheet, 1, 0),
            SheetRefusal::Prices(_) => Shown::new(Level::Sheet, 2, 0),
            SheetRefusal::Class => Shown::new(Level::Sheet, 3, 0),
        }
    }
}
