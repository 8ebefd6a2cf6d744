// What a line of a job comes to.
ghost use Rattle.std.specs.Prelude.{◌≡◌, Some, MatchResult, OnOk};
ghost use Rattle.job.specs.declared.forms.Verb.TheVariants as verbs;
ghost use Rattle.job.specs.Text.{words};
ghost use Rattle.job.specs.Stages.{line_says, by_verb, answer_of, led_on_by};
ghost use Rattle.job.specs.Settings.{Taken, SetBy};

use crate::forms::Verb;
use crate::reader::{LINE_BYTES, Unreadable, WordReader};
use crate::refused::Refused;
use crate::sentences::{read_class, read_layer, read_lift, read_panel, read_place};
use crate::setup::{Setup, Stage};
use panel::Call;

impl Setup {
    // A panel line sets the size, the kind of cost and the register.
    fn set_panel(&mut self, words: &mut WordReader<'_>) -> Result<Option<Call>, Refused>
        ensures { Taken (line_says verbs.Panel) verbs.Panel words.old result self.old self.new }
    {
        let line = read_panel(words)?;
        self.sheet.set_size(line.size)?;
        self.stage = Stage::Setup;
        self.cost = line.cost;
        self.register = line.register;
        Ok(None)
    }

    // A layer line sets the prices of a layer.
    fn set_layer(&mut self, words: &mut WordReader<'_>) -> Result<Option<Call>, Refused>
        ensures { Taken (line_says verbs.Layer) verbs.Layer words.old result self.old self.new }
    {
        let line = read_layer(words)?;
        self.prices.set(line.layer, line.u, line.v, line.t)?;
        Ok(None)
    }

    // A class line sets the measures of a class.
    fn set_class(&mut self, words: &mut WordReader<'_>) -> Result<Option<Call>, Refused>
        ensures { Taken (line_says verbs.Class) verbs.Class words.old result self.old self.new }
    {
        let line = read_class(words)?;
        self.sheet.set_class(line.number, line.measures)?;
        Ok(None)
    }

    // An open line leads on to the calls.
    fn open(&mut self, words: &mut WordReader<'_>) -> Result<Option<Call>, Refused>
        ensures { Taken (line_says verbs.Open) verbs.Open words.old result self.old self.new }
    {
        words.finish()?;
        self.stage = Stage::Open;
        Ok(None)
    }

    // What a line of this kind comes to at the stage of the job: by a rule of the project one match on both together.
    fn take_line(&mut self, verb: Verb, words: &mut WordReader<'_>) -> Result<Option<Call>, Refused>
        ensures { Taken (by_verb self.old.stage (Some verb)) verb words.old result self.old self.new }
    {
        match (self.stage, verb) {
            (Stage::Start, Verb::Panel) => self.set_panel(words),
            (Stage::Setup, Verb::Layer) => self.set_layer(words),
            (Stage::Setup, Verb::Class) => self.set_class(words),
            (Stage::Setup, Verb::Open) => self.open(words),
            (Stage::Open, Verb::Place) => Ok(Some(Call::Place(read_place(words)?))),
            (Stage::Open, Verb::Lift) => Ok(Some(Call::Lift(read_lift(words)?))),
            _ => Err(Unreadable { place: 0 }.into()),
        }
    }

    /// What a line comes to: nothing more, a call, or a refusal, which changes nothing.
    pub fn line(&mut self, text: &[u8]) -> Result<Option<Call>, Refused>
        ensures answer { result ≡ answer_of self.old.stage text.now }
        ensures set { MatchResult result (λ _. SetBy text.now self.old self.new) (λ _. self.new ≡ self.old) }
        ensures stage { OnOk result (self.new.stage ≡ led_on_by self.old.stage (words 0 text.now)) }
    {
        if text.len() > LINE_BYTES {
            return Err(Unreadable { place: LINE_BYTES }.into());
        }
        let mut words = WordReader::new(text);
        let verb = words.read(Verb::named)?;
        self.take_line(verb, &mut words)
    }
}
