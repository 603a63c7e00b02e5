ghost use Rattle.std.specs.Prelude.{◌≡◌, true, [], ◌∷◌, ◌++◌, if◌then◌else◌};
ghost use Rattle.layout.specs.Lawful.{different};
ghost use Rattle.sheet_text.specs.Meaning.{spare, spot_of, layout_of, template_of, templates_of, listing};
ghost use Rattle.sheet_text.specs.Adding.{takes};
ghost use Rattle.sheet_text.specs.Kept.{Kept};

use crate::follows::TemplateLines;
use crate::types::{Field, FieldLine};
use layout::kinds::{
    Actions, DeleteLayout, EmptyLayout, EntriesLayout, HeaderLayout, Kind, Layout, MassLayout,
    OrderLayout, Spot, StatLayout,
};
use layout::sheet::Sheet;
use layout::template::Template;
use layout::width::Width;

fn spare_spot(field: Field) -> Spot
    ensures { result ≡ spare field }
{
    match field {
        Field::Price => Spot {
            offset: 0,
            width: Width::Eight,
        },
        _ => Spot {
            offset: 0,
            width: Width::One,
        },
    }
}

impl<'a> TemplateLines<'a> {
    // Where the lines put a field of the template.
    fn spot_of(&self, field: Field) -> Spot
        ensures { result ≡ spot_of self.now.lines.now self.now.template field }
    {
        let template = self.template;
        match self.lines.iter().find(|x| x.names(template, field)) {
            Some(x) => x.spot,
            None => spare_spot(field),
        }
    }

    fn order_layout(&self) -> Layout
        ensures { result ≡ layout_of self.now.lines.now self.now.template Kind.Order }
    {
        Layout::Order(OrderLayout {
            security: self.spot_of(Field::Security),
            action: self.spot_of(Field::Action),
            side: self.spot_of(Field::Side),
            position: self.spot_of(Field::Position),
            price: self.spot_of(Field::Price),
            size: self.spot_of(Field::Size),
            oid: self.spot_of(Field::Oid),
            firm: self.spot_of(Field::Firm),
        })
    }

    fn entries_layout(&self) -> Layout
        ensures { result ≡ layout_of self.now.lines.now self.now.template Kind.Entries }
    {
        Layout::Entries(EntriesLayout {
            security: self.spot_of(Field::Security),
            count: self.spot_of(Field::Group).width,
            side: self.spot_of(Field::Side),
            position: self.spot_of(Field::Position),
            price: self.spot_of(Field::Price),
            size: self.spot_of(Field::Size),
            oid: self.spot_of(Field::Oid),
            firm: self.spot_of(Field::Firm),
        })
    }

    fn header_layout(&self) -> Layout
        ensures { result ≡ layout_of self.now.lines.now self.now.template Kind.Header }
    {
        Layout::Header(HeaderLayout {
            security: self.spot_of(Field::Security),
            last: self.spot_of(Field::Last),
            bids: self.spot_of(Field::Bids),
            offers: self.spot_of(Field::Offers),
            stats: self.spot_of(Field::Stats),
        })
    }

    // The layout of the template by its lines.
    fn layout_of(&self, kind: Kind) -> Layout
        ensures { result ≡ layout_of self.now.lines.now self.now.template kind }
    {
        let security = self.spot_of(Field::Security);
        match kind {
            Kind::Order => self.order_layout(),
            Kind::Delete => Layout::Delete(DeleteLayout {
                security,
                side: self.spot_of(Field::Side),
                position: self.spot_of(Field::Position),
            }),
            Kind::Mass => Layout::Mass(MassLayout {
                security,
                action: self.spot_of(Field::Action),
                side: self.spot_of(Field::Side),
                position: self.spot_of(Field::Position),
            }),
            Kind::Empty => Layout::Empty(EmptyLayout { security }),
            Kind::Stat => Layout::Stat(StatLayout {
                security,
                value: self.spot_of(Field::Value),
            }),
            Kind::Header => self.header_layout(),
            Kind::Entries => self.entries_layout(),
        }
    }
}

// Adds the template of a line, where the sheet takes it.
fn add_template(sheet: &mut Sheet, lines: &[FieldLine], x: &FieldLine) -> bool
    ensures taken { result ≡ takes sheet.old.templates.items (template_of lines.now x.now) }
    ensures actions { sheet.new.actions ≡ sheet.old.actions }
    ensures templates { listing sheet.new.templates.items ≡ (if result then listing sheet.old.templates.items ++ template_of lines.now x.now ∷ [] else listing sheet.old.templates.items) }
{
    let template = x.template;
    let layout = TemplateLines { lines, template }.layout_of(x.kind);
    match Template::new(template, layout) {
        Some(t) => sheet.add(t),
        None => false,
    }
}

// Makes the sheet of these lines, with these actions.
pub(crate) fn build(sheet: &mut Sheet, actions: Actions, lines: &[FieldLine])
    requires kept { Kept lines.now }
    requires different { different actions ≡ true }
    ensures actions { sheet.new.actions ≡ actions }
    ensures templates { listing sheet.new.templates.items ≡ templates_of lines.now }
{
    let _ = sheet.restart(actions);
    for (i, x) in lines.iter().enumerate() {
        let before = TemplateLines {
            lines: &lines[..i],
            template: x.template,
        };
        if !before.is_listed() {
            let _ = add_template(sheet, lines, x);
        }
    }
}
