//! The runs that a world plans.
ghost use Rattle.std.specs.Prelude.{◌≡◌, IfErr, IfOk};
ghost use Rattle.script_worlds.specs.Runs.{IsRunFault, IsRunPlan};

use crate::World;
use crate::told::of_run;
use chdr_words::Epid;
use fabric_net::Net;
use net_faults::Faults;
use net_machine::RunPlan;
use rf_base::Memory;
use run_plans::{Reaches, run_refusal};
use script_books::Refusal;
use thiserror::Error;

/// Why a run doesn't begin.
#[derive(Clone, Copy, Debug, PartialEq, Eq, Error)]
pub enum RunFault {
    #[error("{0}")]
    Refused(Refusal),
    #[error("out of memory")]
    Memory,
}

impl From<Memory> for RunFault {
    ghost use Rattle.script_worlds.specs.declared.runs.RunFault.TheVariants.{Memory as memory};

    ghost from_gives = { λ _ fault. fault ≡ memory };

    fn from(_: Memory) -> RunFault {
        RunFault::Memory
    }
}

/// The tables of a net.
#[derive(Clone, Copy)]
struct Tables<'a>(&'a Net);

impl Reaches for Tables<'_> {
    ghost tree = { λ tables. tables.0.now.present.tree };

    ghost nodes = { λ tables. tables.0.now.present.nodes };

    fn reaches(&self, a: Epid, b: Epid) -> bool {
        self.0.reaches(a, b)
    }
}

impl World {
    /// The plan of a run of all streams that loses these packets, or why it doesn't begin.
    ///
    /// The world's net can begin it. Without the net, which was taken out, the answer is `Memory` where nothing
    /// refuses the run before its routes are looked at. Rule: docs/machine.md, "How a run begins".
    pub fn run_plan(&self, faults: &Faults) -> Result<RunPlan, RunFault>
        ensures plan { IfOk result (IsRunPlan self.now faults.now) }
        ensures refused { IfErr result (IsRunFault self.now faults.now) }
    {
        if self.topology.is_none() {
            return Err(RunFault::Refused(Refusal::NoNet));
        }
        if !self.graph.is_committed() {
            return Err(RunFault::Refused(Refusal::NotCommitted));
        }
        let Some(net) = &self.net else {
            return Err(RunFault::Memory);
        };
        let plan = self.layout.plan(self.alloc, &self.graph, faults)?;
        match run_refusal(&plan, &Tables(net)) {
            Some(refusal) => Err(RunFault::Refused(of_run(refusal))),
            None => Ok(plan),
        }
    }
}
