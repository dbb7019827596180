ghost use Rattle.std.specs.Prelude.{◌≡◌, map, IfOk, IfErr};
ghost use Rattle.net_nodes.specs.FirstPlaces.{Rises, IsListedAt, IsGapFor, IsOrderOf, Lists};
ghost use Rattle.net_nodes.specs.Table.{no_exit};

use chdr_words::Epid;
use rf_base::Memory;
use std::alloc::Global;

/// The first place of an EPID in a table, by its number.
#[derive(Clone, Copy, Debug, PartialEq, Eq)]
pub struct FirstPlace {
    pub epid: Epid,
    pub at: usize,
}

/// The first place of each EPID, in the order of the EPIDs.
#[tactic(auto, using(crate::proofs::FirstPlaceLemmas::list_lemmas))]
pub(crate) fn first_places(alloc: Global, epids: &[Epid]) -> Result<Vec<FirstPlace>, Memory>
    ensures { IfOk result (λ order. IsOrderOf order.items (map no_exit epids.now)) }
{
    let mut order = Vec::new(alloc);
    for (at, epid) in epids.iter().enumerate() {
        list(&mut order, *epid, at)?;
    }
    Ok(order)
}

/// Lists the place of this number, unless its EPID has an earlier one.
fn list(order: &mut Vec<FirstPlace>, epid: Epid, at: usize) -> Result<(), Memory>
    requires { Rises order.old.items }
    ensures { IfOk result (λ done. Lists at epid order.old.items order.new.items) }
{
    if let Err(gap) = search(order.as_slice(), epid) {
        order.insert(gap, FirstPlace { epid, at })?;
    }
    Ok(())
}

/// Where an EPID is listed, or where it would go.
pub(crate) fn search(order: &[FirstPlace], epid: Epid) -> Result<usize, usize>
    requires { Rises order.now }
    ensures found { IfOk result (IsListedAt order.now epid) }
    ensures gap { IfErr result (IsGapFor order.now epid) }
{
    order.binary_search_by_key(&epid.0, |first| first.epid.0)
}
