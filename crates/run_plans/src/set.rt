ghost use Rattle.std.specs.Prelude.{◌≡◌, ◌↔◌, Err, OnOk, OnErr};
ghost use Rattle.graph_core.specs.State.{HasNoPort, with_user};
ghost use Rattle.run_plans.specs.Layouts.{FitsValue, IsLayout};

use crate::Layout;
use graph_core::{Graph, PropAt, SetFault};

impl Layout {
    /// Sets the user's value of a property, as the graph does; the layout stays one of the graph.
    pub fn set(&self, graph: &mut Graph, at: PropAt, value: u64) -> Result<(), SetFault>
        requires layout { IsLayout graph.old.diagram self.now }
        requires value { FitsValue at.prop value }
        ensures absent { (result ≡ Err SetFault.NoProperty) ↔ HasNoPort graph.old at }
        ensures ok { OnOk result (graph.new ≡ with_user graph.old at value) }
        ensures kept { IsLayout graph.new.diagram self.now }
        ensures err { OnErr result (graph.new ≡ graph.old) }
    {
        let _ = &self.blocks;
        graph.set(at, value)
    }
}
