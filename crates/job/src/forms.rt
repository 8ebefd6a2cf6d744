// What the lines of a job say.
ghost use Rattle.std.specs.Prelude.{◌≡◌};
ghost use Rattle.job.specs.Forms.{verb, cost_choice, register_choice};

use geometry::{Measures, Size};

/// The kind of a line, by its first word.
#[derive(Clone, Copy, Debug, PartialEq, Eq)]
pub enum Verb {
    Panel,
    Layer,
    Class,
    Open,
    Place,
    Lift,
    Quote,
    Connect,
}

impl Verb {
    /// The kind of a line that begins with this word.
    pub fn named(word: &[u8]) -> Option<Verb>
        ensures { result ≡ verb word.now }
    {
        match word {
            b"panel" => Some(Verb::Panel),
            b"layer" => Some(Verb::Layer),
            b"class" => Some(Verb::Class),
            b"open" => Some(Verb::Open),
            b"place" => Some(Verb::Place),
            b"lift" => Some(Verb::Lift),
            b"quote" => Some(Verb::Quote),
            b"connect" => Some(Verb::Connect),
            _ => None,
        }
    }
}

/// The kind of cost that a panel line names: `m` is the sum of money, `v` counts vias first.
#[derive(Clone, Copy, Debug, PartialEq, Eq)]
pub enum CostChoice {
    Money,
    Vias,
}

impl CostChoice {
    /// The kind of cost of this letter.
    pub fn named(word: &[u8]) -> Option<CostChoice>
        ensures { result ≡ cost_choice word.now }
    {
        match word {
            b"m" => Some(CostChoice::Money),
            b"v" => Some(CostChoice::Vias),
            _ => None,
        }
    }
}

/// The register that a panel line names: `p` is the plain one, `s` the one in strips.
#[derive(Clone, Copy, Debug, PartialEq, Eq)]
pub enum RegisterChoice {
    Plain,
    Strips,
}

impl RegisterChoice {
    /// The register of this letter.
    pub fn named(word: &[u8]) -> Option<RegisterChoice>
        ensures { result ≡ register_choice word.now }
    {
        match word {
            b"p" => Some(RegisterChoice::Plain),
            b"s" => Some(RegisterChoice::Strips),
            _ => None,
        }
    }
}

/// A panel line: the size, the kind of cost and the register.
#[derive(Clone, Copy, Debug, PartialEq, Eq)]
pub struct PanelLine {
    pub size: Size,
    pub cost: CostChoice,
    pub register: RegisterChoice,
}

/// A layer line: a layer and its row of the price list.
// u, v and t one by one, as the price list takes them: by a rule of the project it lends one row to a function
#[derive(Clone, Copy, Debug, PartialEq, Eq)]
pub struct LayerLine {
    pub layer: u32,
    pub u: u32,
    pub v: u32,
    pub t: u32,
}

/// A class line: the number of a class and its measures.
#[derive(Clone, Copy, Debug, PartialEq, Eq)]
pub struct ClassLine {
    pub number: u32,
    pub measures: Measures,
}
