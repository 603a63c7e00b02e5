ghost use Rattle.std.specs.Prelude.{◌≡◌, ◌≤◌};
ghost use Rattle.layout.specs.Lawful.{is_stat, stat_count};
ghost use Rattle.store.specs.Kind.{New};
ghost use Rattle.panel.specs.Kind.{panel};
ghost use Rattle.panel.specs.Opening.{stat_templates};
ghost use Rattle.panel.specs.Model.{templates_of, setup_of, model_of};

use crate::listed::Listed;
use crate::numbers::Numbers;
use crate::panel_store::PanelStore;
use layout::kinds::{Kind, Layout};
use layout::sheet::Sheet;
use layout::template::Template;

// Whether a template stands for a statistic.
fn is_stat(layout: &Layout) -> bool
    ensures { result ≡ is_stat layout.now }
{
    layout.kind() == Kind::Stat
}

// The templates that stand for statistics, of which there are few.
fn listed(templates: &[Template]) -> Listed
    requires { stat_count templates.now ≤ 16 }
    ensures { templates_of result ≡ stat_templates templates.now }
{
    let mut places = [0u16; 16];
    let mut count = 0;
    for t in templates {
        if is_stat(&t.layout) {
            places[count] = t.id;
            count += 1;
        }
    }
    Listed { places, count }
}

impl PanelStore {
    // Panels for the statistics that a sheet lists, all fresh.
    pub fn open(sheet: &Sheet) -> PanelStore
        ensures setup { setup_of result ≡ stat_templates sheet.now.templates.items }
        ensures model { New (panel (setup_of result)) 64 (model_of result) }
    {
        let none = Numbers::none();
        PanelStore {
            listed: listed(sheet.templates.as_slice()),
            panels: [none; 64],
            staged: none,
            owed: 0,
        }
    }
}
