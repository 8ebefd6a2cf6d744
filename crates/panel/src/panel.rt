// A panel, from its opening on.
ghost use Rattle.std.specs.Prelude.{◌≡◌};
ghost use Rattle.panel.specs.Panels.{opened};

use crate::sheet::Sheet;
use costs::{Amount, CostKind};
use registers::{Pieces, Register};
use std::marker::Model;

/// A sheet, a kind of cost and a register of what stands, with the last job number given.
#[derive(Drop)]
pub struct Panel<K: CostKind, R: Register> {
    pub(crate) sheet: Sheet,
    pub(crate) kind: K,
    pub(crate) register: R,
    pub(crate) last: u16,
}

impl<K: CostKind, R: Register> Model for Panel<K, R> {
    ghost use Rattle.std.specs.Prelude.{T};
    ghost use Rattle.geometry.specs.Clearance.{in_order};
    ghost use Rattle.panel.specs.Panels.{PanelState};

    ghost Value = { PanelState K };

    ghost view = { λ p. record {
      sheet = p.sheet;
      kind = p.kind;
      places = R.Register.places p.register;
      standing = record { pieces = R.Pieces.pieces p.register; jobs = p.last };
    } };

    ghost invariant = { λ p. T (in_order (R.Pieces.pieces p.register)) };
}

impl Sheet {
    /// Opens a panel on which nothing stands. The sheet is used up.
    pub fn open<K: CostKind, R: Register>(self, kind: K, register: R) -> Panel<K, R>
        ensures { result ≡ opened self kind (R.Register.places register) }
    {
        let mut register = register;
        register.clear();
        Panel {
            sheet: self,
            kind,
            register,
            last: 0,
        }
    }
}
