ghost use Rattle.std.specs.Prelude.{◌≡◌, ◌==◌, Some, None, MatchOption};
ghost use Rattle.std.specs.Option.{option_map};
ghost use Rattle.std.specs.List.{find as first_of};
ghost use Rattle.layout.specs.Lawful.{find};
ghost use Rattle.layout.specs.declared.template.Template.{Template};

use crate::sheet::Sheet;
use crate::template::Template;

// The first of some templates with that number.
fn first_with(templates: &[Template], id: u16) -> Option<&Template>
    ensures { option_map (λ t. t.now) result ≡ first_of (λ (t : Template). t.id == id) templates.now }
{
    templates.iter().find(|t| t.id == id)
}

// The first of some templates with that number, which is mostly the first of all.
fn hinted(templates: &[Template], id: u16) -> Option<&Template>
    ensures { option_map (λ t. t.now) result ≡ first_of (λ (t : Template). t.id == id) templates.now }
{
    match templates {
        [first, ..] if first.id == id => Some(first),
        [_, behind @ ..] => first_with(behind, id),
        [] => None,
    }
}

impl Sheet {
    // The template with that number, where the sheet lists it.
    pub fn template(&self, id: u16) -> Option<&Template>
        ensures { MatchOption result (find self.now.templates.items id ≡ None) (λ t. find self.now.templates.items id ≡ Some t.now.layout) }
    {
        let start = usize::from(self.first[usize::from(id % 256)]);
        hinted(self.templates.as_slice().get(start..)?, id)
    }
}
