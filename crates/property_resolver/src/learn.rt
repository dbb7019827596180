ghost use Rattle.std.specs.Prelude.{OnOk, IfErr};
ghost use Rattle.property_resolver.specs.Spreads.{Learns, Contradicts};

use crate::CommitFault;
use graph_core::{PropAt, Rule, Values};

/// Takes up the value that the rule gives the property.
pub(crate) fn learn(
    values: &mut Values,
    by: Rule,
    at: PropAt,
    value: u64,
) -> Result<(), CommitFault>
    ensures ok { OnOk result (Learns values.old values.new at value) }
    ensures clash { IfErr result (Contradicts values.old by at value) }
{
    match values.get(at) {
        Some(held) => {
            if held == value {
                Ok(())
            } else {
                Err(CommitFault::Clash {
                    by,
                    prop: at.prop,
                    held,
                    derived: value,
                })
            }
        }
        None => {
            values.put(at, value)?;
            Ok(())
        }
    }
}
