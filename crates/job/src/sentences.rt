// Reading what a line says.
ghost use Rattle.std.specs.Prelude.{◌≡◌};
ghost use Rattle.job.specs.Reading.{of_words};
ghost use Rattle.job.specs.Forms.{read_all, panel_line, layer_line, class_line, place_line, lift_line};

use crate::forms::{ClassLine, CostChoice, LayerLine, PanelLine, RegisterChoice};
use crate::reader::{Unreadable, WordReader};
use geometry::{Measures, Size};
use panel::Placement;

// Numbers, and no word behind them.
pub(crate) fn read_all<const N: usize>(words: &mut WordReader<'_>) -> Result<[u32; N], Unreadable>
    ensures { result ≡ of_words (read_all N) words.old }
{
    let values = words.numbers::<N>()?;
    words.finish()?;
    Ok(values)
}

// The words behind `panel`: three numbers, the letter of a kind of cost and that of a register.
pub(crate) fn read_panel(words: &mut WordReader<'_>) -> Result<PanelLine, Unreadable>
    ensures { result ≡ of_words panel_line words.old }
{
    let [width, height, layers] = words.numbers::<3>()?;
    let cost = words.read(CostChoice::named)?;
    let register = words.read(RegisterChoice::named)?;
    words.finish()?;
    let size = Size {
        width,
        height,
        layers,
    };
    Ok(PanelLine {
        size,
        cost,
        register,
    })
}

// The words behind `layer`: a layer and its prices.
pub(crate) fn read_layer(words: &mut WordReader<'_>) -> Result<LayerLine, Unreadable>
    ensures { result ≡ of_words layer_line words.old }
{
    let [layer, u, v, t] = read_all::<4>(words)?;
    Ok(LayerLine { layer, u, v, t })
}

// The words behind `class`: the number of a class and its measures.
pub(crate) fn read_class(words: &mut WordReader<'_>) -> Result<ClassLine, Unreadable>
    ensures { result ≡ of_words class_line words.old }
{
    let [number, half, space, pad] = read_all::<4>(words)?;
    let measures = Measures { half, space, pad };
    Ok(ClassLine { number, measures })
}

// The words behind `place`: a layer, a rectangle, a net and a space.
pub(crate) fn read_place(words: &mut WordReader<'_>) -> Result<Placement, Unreadable>
    ensures { result ≡ of_words place_line words.old }
{
    let [layer, x1, y1, x2, y2, net, space] = read_all::<7>(words)?;
    Ok(Placement {
        layer,
        x1,
        y1,
        x2,
        y2,
        net,
        space,
    })
}

// The word behind `lift`: a job number.
pub(crate) fn read_lift(words: &mut WordReader<'_>) -> Result<u32, Unreadable>
    ensures { result ≡ of_words lift_line words.old }
{
    let [job] = read_all::<1>(words)?;
    Ok(job)
}
