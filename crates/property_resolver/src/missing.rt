ghost use Rattle.std.specs.Prelude.{◌≡◌, ◌≤◌, length};
ghost use Rattle.graph_core.specs.Ports.{block_properties, port_properties, properties, side_properties};
ghost use Rattle.property_resolver.specs.Missing.{Finds};

use block_library::BlockKind;
use graph_core::{Prop, PropAt, Side, Values, port_count};

/// The property of that name at the port.
fn property(block: u16, side: Side, port: u16, prop: Prop) -> PropAt
    ensures { result ≡ record { block = block; side = side; port = port; prop = prop } }
{
    PropAt {
        block,
        side,
        port,
        prop,
    }
}

/// The first property of the port that has no value.
fn missing_at(values: &Values, block: u16, side: Side, port: u16) -> Option<PropAt>
    ensures { Finds values.now (port_properties block side port) result }
{
    let rate = property(block, side, port, Prop::Rate);
    let item = property(block, side, port, Prop::Item);
    let spp = property(block, side, port, Prop::Spp);
    if values.get(rate).is_none() {
        return Some(rate);
    }
    if values.get(item).is_none() {
        return Some(item);
    }
    if values.get(spp).is_none() {
        return Some(spp);
    }
    None
}

/// The first property of the block's first ports on the side that has no value.
fn missing_on(values: &Values, block: u16, side: Side, ports: u16) -> Option<PropAt>
    ensures { Finds values.now (side_properties block side ports) result }
{
    for port in 0..ports {
        if let Some(at) = missing_at(values, block, side, port) {
            return Some(at);
        }
    }
    None
}

/// The first property of the block that has no value.
fn missing_in(values: &Values, block: u16, kind: BlockKind) -> Option<PropAt>
    ensures { Finds values.now (block_properties block kind) result }
{
    if let Some(at) = missing_on(values, block, Side::Into, port_count(kind, Side::Into)) {
        return Some(at);
    }
    missing_on(values, block, Side::Out, port_count(kind, Side::Out))
}

/// The first property of all that has no value.
pub(crate) fn missing(values: &Values, kinds: &[BlockKind]) -> Option<PropAt>
    requires { length kinds.now ≤ 32 }
    ensures { Finds values.now (properties kinds.now) result }
{
    for (block, kind) in kinds.iter().enumerate() {
        if let Some(at) = missing_in(values, block as u16, *kind) {
            return Some(at);
        }
    }
    None
}
