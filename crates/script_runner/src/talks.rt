//! What the commands by which a host talks have in common.
ghost use Rattle.std.specs.Prelude.{◌≡◌, IfOk, OnOk, is_some};
ghost use Rattle.fabric_net.specs.Asking.{marked_now};
ghost use Rattle.fabric_net.specs.Standing.{StandsFor};
ghost use Rattle.host_talk.specs.Settled.{IsSettledNow};
ghost use Rattle.net_machine.specs.Moves.{marked};
ghost use Rattle.net_machine.specs.Nodes.{host_with};
ghost use Rattle.net_machine.specs.State.{State};
ghost use Rattle.script_runner.specs.ScriptWorlds.{ScriptWorld};
ghost use Rattle.script_runner.specs.Standing.{AreToldFound, HasTold, Talks, WorldStandsFor};
ghost use Rattle.script_runner.specs.Talks.{FitsIn};

use block_registers::RegisterSlots;
use chdr_words::Epid;
use fabric_net::Net;
use net_faults::Faults;
use rf_base::Memory;
use script_books::{Book, Refusal};
use script_worlds::World;
use std::alloc::Global;

/// A command by which a host of a network talks.
pub(crate) trait Talk {
    ghost use Rattle.net_machine.specs.State.{State};
    ghost use Rattle.net_topology.specs.declared.plan.Plan.{Plan};
    ghost use Rattle.script_books.specs.declared.book.Book.{Book};

    /// What it has to meet in a network.
    ghost Fits: { Self → Plan → Type 0 };

    /// Its book in a state, and the state that it leaves.
    ghost Tells: { Self → State → Book → State → Type 0 };

    /// Performs it in a net in which nothing is under way, and leaves it so.
    ///
    /// After `Memory` the net is only good to be dropped.
    fn talk<B: RegisterSlots>(
        &self,
        alloc: Global,
        net: &mut Net,
        banks: &mut B,
    ) -> Result<Book, Memory>
        requires settled { IsSettledNow net.old.present }
        requires fits { Fits self.now net.old.present.tree }
        ensures { IfOk result (λ book. HasTold (Tells self.now) net.old (B.slots banks.old) book
            net.new (B.slots banks.new)) };
}

/// Performs a command by which a host talks in a world's network, if there is one.
pub(crate) fn converse<T: Talk, B: RegisterSlots>(
    alloc: Global,
    world: &mut World,
    banks: &mut B,
    talk: &T,
) -> Result<Book, Memory>
    requires { FitsIn world.old.setup.tree (T.Fits talk.now) }
    ensures talks { IfOk result (λ book. (w : ScriptWorld) → WorldStandsFor world.old (B.slots banks.old) w →
        Talks (T.Tells talk.now) w book world.new (B.slots banks.new)) }
    ensures found { IfOk result (λ book. FitsIn world.new.setup.tree (λ tree. AreToldFound tree book)) }
{
    match world.take_net() {
        Some(mut net) => {
            let book = talk.talk(alloc, &mut net, banks)?;
            world.put_net(net);
            Ok(book)
        }
        None => Ok(Book::Refused(Refusal::NoNet)),
    }
}

/// Whether a host of a net has this EPID.
pub(crate) fn has_host(net: &Net, host: Epid) -> bool
    ensures { result ≡ is_some (host_with net.now.present.tree host) }
{
    net.host(host).is_some()
}

/// Names the requests and answers that a command loses, once nothing refuses it.
pub(crate) fn name(net: &mut Net, lose: &Faults) -> Result<(), Memory>
    requires { IsSettledNow net.old.present }
    ensures present { OnOk result (net.new.present ≡ marked_now lose.now net.old.present) }
    ensures machine { OnOk result ((w : State) → StandsFor net.old.present w → StandsFor net.new.present (marked lose.now w)) }
    ensures settled { OnOk result (IsSettledNow net.new.present) }
{
    net.mark(lose)
}
