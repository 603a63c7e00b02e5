ghost use Rattle.std.specs.Prelude.{◌≡◌};
ghost use Rattle.panel.specs.Shown.{shown};
ghost use Rattle.panel.specs.Model.{setup_of};

use crate::panel_store::PanelStore;

impl PanelStore {
    // The templates that it keeps numbers of, in the sheet's order.
    pub fn templates(&self) -> &[u16]
        ensures { result.now ≡ setup_of self.now }
    {
        self.listed.templates()
    }

    // The latest number of a template in a slot, where there is one.
    pub fn number(&self, slot: usize, template: u64) -> Option<i64>
        ensures { result ≡ shown self.now slot template }
    {
        if slot >= 64 {
            return None;
        }
        self.panels[slot].number(&self.listed, template)
    }
}
