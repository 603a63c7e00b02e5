ghost use Rattle.std.specs.Prelude.{◌≡◌, ◌==◌, ◌≤◌, length, take, None, replicate};
ghost use Rattle.std.specs.List.{position};
ghost use Rattle.panel.specs.Numbers.{noted, number_of};
ghost use Rattle.panel.specs.Model.{templates_of, panel_of};

use crate::listed::Listed;
use crate::numbers::Numbers;
use message::values::StatFields;

// Notes a statistic as the latest number of its template.
fn note(numbers: &mut [Option<i64>], templates: &[u16], f: &StatFields)
    requires { length templates.now ≤ length numbers.old }
    ensures { take (length templates.now) numbers.new ≡ noted templates.now (take (length templates.now) numbers.old) f.now.template f.now.value }
{
    for (k, template) in templates.iter().enumerate() {
        if u64::from(*template) == f.template {
            numbers[k] = Some(f.value);
        }
    }
}

// The first place of a template.
fn place_of(templates: &[u16], template: u64) -> Option<usize>
    ensures { result ≡ position (λ u. u == template) templates.now }
{
    templates.iter().position(|t| u64::from(*t) == template)
}

// The number of a template.
fn number_of(numbers: &[Option<i64>], templates: &[u16], template: u64) -> Option<i64>
    requires { length templates.now ≤ length numbers.now }
    ensures { result ≡ number_of templates.now (take (length templates.now) numbers.now) template }
{
    let k = place_of(templates, template)?;
    numbers[k]
}

impl Listed {
    // The templates in use.
    pub(crate) fn templates(&self) -> &[u16]
        ensures { result.now ≡ templates_of self.now }
    {
        &self.places[..self.count]
    }
}

impl Numbers {
    // No numbers.
    pub(crate) fn none() -> Numbers
        ensures { result.places ≡ replicate 16 None }
    {
        Numbers { places: [None; 16] }
    }

    // Notes a statistic.
    pub(crate) fn note(&mut self, listed: &Listed, f: &StatFields)
        ensures { panel_of listed.now self.new ≡ noted (templates_of listed.now) (panel_of listed.now self.old) f.now.template f.now.value }
    {
        note(&mut self.places, listed.templates(), f);
    }

    // The number of a template.
    pub(crate) fn number(&self, listed: &Listed, template: u64) -> Option<i64>
        ensures { result ≡ number_of (templates_of listed.now) (panel_of listed.now self.now) template }
    {
        number_of(&self.places, listed.templates(), template)
    }
}
