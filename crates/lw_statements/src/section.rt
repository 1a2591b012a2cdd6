ghost use Rattle.std.specs.Prelude.{◌≡◌};
ghost use Rattle.lw_grammar.specs.Script.{is_screen_due, are_assets_due, are_calls_due, are_tasks_due, are_numbers_due};
ghost use Rattle.lw_grammar.specs.Script.{is_nothing_due, is_ordered, is_audited, is_known_in, belongs_in as belongs_meant};
ghost use Rattle.lw_grammar.specs.Script.{may_end as may_end_meant};
ghost use Rattle.lw_statements.specs.SectionMeaning.{section_meaning};

use lw_grammar::{Form, NumberVerb, PartVerb, Verb};

/// The parts of a script, by what is due in them.
#[derive(Clone, Copy, Debug, PartialEq, Eq)]
pub enum Section {
    /// The screen.
    Screen,
    /// Glyphs, bitmaps and the first task.
    Assets,
    /// Calls, groups or a task's end.
    Calls,
    /// A further task, an order or a report.
    Tasks,
    /// Numbers of an order.
    Numbers,
    /// Nothing more.
    Nothing,
}

impl Section {
    fn is_screen(self) -> bool
        ensures { result ≡ is_screen_due (section_meaning self) }
    {
        self == Section::Screen
    }

    fn is_assets(self) -> bool
        ensures { result ≡ are_assets_due (section_meaning self) }
    {
        self == Section::Assets
    }

    fn is_calls(self) -> bool
        ensures { result ≡ are_calls_due (section_meaning self) }
    {
        self == Section::Calls
    }

    /// Whether a further task, an order or a report is due.
    pub fn is_tasks(self) -> bool
        ensures { result ≡ are_tasks_due (section_meaning self) }
    {
        self == Section::Tasks
    }

    /// Whether numbers of an order are due.
    pub fn is_numbers(self) -> bool
        ensures { result ≡ are_numbers_due (section_meaning self) }
    {
        self == Section::Numbers
    }

    /// Whether nothing more is due.
    pub fn is_nothing(self) -> bool
        ensures { result ≡ is_nothing_due (section_meaning self) }
    {
        self == Section::Nothing
    }

    /// Whether the input may end here.
    pub fn may_end(self, form: Form) -> bool
        ensures { result ≡ may_end_meant form (section_meaning self) }
    {
        match form {
            Form::Plain => self.is_tasks(),
            Form::Ordered => self.is_numbers(),
            Form::Audited => self.is_nothing(),
        }
    }
}

fn is_ordered(form: Form) -> bool
    ensures { result ≡ is_ordered form }
{
    form == Form::Ordered
}

fn is_audited(form: Form) -> bool
    ensures { result ≡ is_audited form }
{
    form == Form::Audited
}

/// Whether some line begins with this verb, where the lines above tell this version, or none by 0.
pub fn is_known_in(version: u32, verb: Verb) -> bool
    ensures { result ≡ is_known_in version verb }
{
    match verb {
        Verb::Part(PartVerb::Layers) => version != 1,
        Verb::Number(NumberVerb::Hook) => version >= 2,
        Verb::Part(PartVerb::Pattern) | Verb::Area | Verb::AreaPattern | Verb::Gzz(_) => {
            version == 2
        }
        _ => true,
    }
}

/// Whether lines with this verb stand in this section of this input, where the lines above tell this version, or none by 0.
pub fn belongs_in(form: Form, version: u32, section: Section, verb: Verb) -> bool
    ensures { result ≡ belongs_meant form version (section_meaning section) verb }
{
    match verb {
        Verb::Part(PartVerb::Layers) => section.is_screen() && version == 0,
        Verb::Part(PartVerb::Screen) => section.is_screen(),
        Verb::Part(PartVerb::Glyph | PartVerb::Bitmap | PartVerb::Pattern) => section.is_assets(),
        Verb::Part(PartVerb::Task) => section.is_assets() || section.is_tasks(),
        Verb::Part(PartVerb::Order) => section.is_tasks() && is_ordered(form),
        Verb::Part(PartVerb::Report) => section.is_tasks() && is_audited(form),
        _ => section.is_calls(),
    }
}
