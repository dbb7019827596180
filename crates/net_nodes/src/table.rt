ghost use Rattle.std.specs.Prelude.{◌≡◌, [], map, IfOk};
ghost use Rattle.net_nodes.specs.Table.{no_exit, exit_of, with_exit, IsPlaceOf};

use crate::first_place::{FirstPlace, first_places, search};
use chdr_words::{Epid, EpidList};
use rf_base::Memory;
use std::alloc::Global;
use std::marker::Model;

/// The place of one EPID in a table, with the port by which its packets leave, if one is known.
#[derive(Clone, Copy, Debug, PartialEq, Eq)]
pub struct Place {
    pub epid: Epid,
    pub exit: Option<u8>,
}

/// A finite map from the EPIDs that have a place to ports.
#[derive(Debug, Drop)]
pub struct Table {
    places: Vec<Place>,
    /// The first place of each EPID, in the order of the EPIDs, so that it is found by halving.
    order: Vec<FirstPlace>,
}

impl Model for Table {
    ghost use Rattle.std.specs.Prelude.{List};
    ghost use Rattle.net_nodes.specs.FirstPlaces.{IsOrderOf};
    ghost use Rattle.net_nodes.specs.declared.table.Place.{Place};

    ghost Value = { List Place };

    ghost view = { λ table. table.places.items };

    ghost invariant = { λ table. IsOrderOf table.order.items table.places.items };
}

impl Table {
    /// A place for each EPID, without entries.
    pub fn new(alloc: Global, epids: &EpidList) -> Result<Table, Memory>
        ensures { IfOk result (λ table. table ≡ map no_exit epids.now) }
    {
        let places = places_of(alloc, epids)?;
        let order = first_places(alloc, epids.as_slice())?;
        Ok(Table { places, order })
    }

    /// The map without a place.
    pub fn none(alloc: Global) -> Table
        ensures { result ≡ [] }
    {
        Table {
            places: Vec::new(alloc),
            order: Vec::new(alloc),
        }
    }

    /// The entry of an EPID.
    pub fn exit(&self, epid: Epid) -> Option<u8>
        ensures { result ≡ exit_of self.now epid }
    {
        match self.place_of(epid) {
            Some(at) => self.places.as_slice()[at].exit,
            None => None,
        }
    }

    /// Makes the port the entry of an EPID that has a place; another EPID changes nothing.
    pub fn set(&mut self, epid: Epid, port: u8)
        ensures { self.new ≡ with_exit self.old epid port }
    {
        match self.place_of(epid) {
            Some(at) => self.places[at].exit = Some(port),
            None => {}
        }
    }

    /// The number of an EPID's first place.
    fn place_of(&self, epid: Epid) -> Option<usize>
        ensures { IsPlaceOf self.now epid result }
    {
        match search(self.order.as_slice(), epid) {
            Ok(i) => Some(self.order[i].at),
            Err(_) => None,
        }
    }
}

/// A place for each EPID, without entries.
fn places_of(alloc: Global, epids: &EpidList) -> Result<Vec<Place>, Memory>
    ensures { IfOk result (λ places. places.items ≡ map no_exit epids.now) }
{
    let places = epids
        .as_slice()
        .iter()
        .map(|epid| Place {
            epid: *epid,
            exit: None,
        })
        .collect(alloc)?;
    Ok(places)
}
