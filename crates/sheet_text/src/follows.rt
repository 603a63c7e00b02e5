ghost use Rattle.std.specs.Prelude.{◌≡◌, ◌==◌, ◌&&◌, [], length};
ghost use Rattle.sheet_text.specs.Names.{same_field, same_kind};
ghost use Rattle.sheet_text.specs.Follows.{listed, named, missing, firsts, stat_lines, last_of, lacks, complete, goes_on, room_for, may_follow};

use crate::names::fields_of;
use crate::types::{Field, FieldLine};
use layout::kinds::Kind;

impl FieldLine {
    // Whether the line names that field of the template.
    pub(crate) fn names(&self, template: u16, field: Field) -> bool
        ensures { result ≡ (self.now.template == template && same_field self.now.field field) }
    {
        self.template == template && self.field == field
    }

    // Whether the line is of that kind.
    fn is_of(&self, kind: Kind) -> bool
        ensures { result ≡ same_kind self.now.kind kind }
    {
        self.kind == kind
    }
}

// some field lines, seen from one template
#[derive(Clone, Copy)]
pub(crate) struct TemplateLines<'a> {
    pub lines: &'a [FieldLine],
    pub template: u16,
}

impl<'a> TemplateLines<'a> {
    // Whether a line is of the template.
    pub(crate) fn is_listed(&self) -> bool
        ensures { result ≡ listed self.now.lines.now self.now.template }
    {
        let template = self.template;
        self.lines.iter().any(|x| x.template == template)
    }

    // Whether a line of the template names the field.
    fn is_named(&self, field: Field) -> bool
        ensures { result ≡ named self.now.lines.now self.now.template field }
    {
        let template = self.template;
        self.lines.iter().any(|x| x.names(template, field))
    }

    // How many of these fields no line of the template names.
    fn count_missing(&self, fields: &[Field]) -> usize
        ensures { result ≡ missing self.now.lines.now self.now.template fields.now }
    {
        fields.iter().filter(|f| !self.is_named(**f)).count()
    }
}

// how many templates some lines have, and how many of these are of the kind `stat`
#[derive(Clone, Copy)]
struct Templates {
    all: usize,
    stats: usize,
}

// Counts the templates of some lines.
fn count_templates(lines: &[FieldLine]) -> Templates
    ensures all { result.all ≡ length (firsts [] lines.now) }
    ensures stats { result.stats ≡ stat_lines (firsts [] lines.now) }
{
    let mut all: usize = 0;
    let mut stats: usize = 0;
    for (i, x) in lines.iter().enumerate() {
        let before = TemplateLines {
            lines: &lines[..i],
            template: x.template,
        };
        if !before.is_listed() {
            all += 1;
            stats += usize::from(x.is_of(Kind::Stat));
        }
    }
    Templates { all, stats }
}

fn last_of(lines: &[FieldLine]) -> Option<FieldLine>
    ensures { result ≡ last_of lines.now }
{
    lines.last().copied()
}

// Whether the template of the last line has all its fields.
pub(crate) fn is_complete(lines: &[FieldLine]) -> bool
    ensures { result ≡ complete lines.now }
{
    match last_of(lines) {
        Some(x) => {
            let template = x.template;
            TemplateLines { lines, template }.count_missing(fields_of(x.kind)) == 0
        }
        None => true,
    }
}

fn goes_on(lines: &[FieldLine], x: &FieldLine) -> bool
    ensures { result ≡ goes_on (last_of lines.now) x.now }
{
    match last_of(lines) {
        Some(y) => y.template == x.template && y.is_of(x.kind),
        None => false,
    }
}

fn has_room(lines: &[FieldLine], kind: Kind) -> bool
    ensures { result ≡ room_for lines.now kind }
{
    let templates = count_templates(lines);
    templates.all < 40 && (kind != Kind::Stat || templates.stats < 16)
}

// Whether a line may stand behind those before it.
pub(crate) fn may_follow(lines: &[FieldLine], x: &FieldLine) -> bool
    ensures { result ≡ may_follow lines.now x.now }
{
    let template = x.template;
    let before = TemplateLines { lines, template };
    if before.is_listed() {
        goes_on(lines, x) && !before.is_named(x.field)
    } else {
        is_complete(lines) && has_room(lines, x.kind)
    }
}
