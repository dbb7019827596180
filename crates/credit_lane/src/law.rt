ghost use Rattle.std.specs.Prelude.{Option};
ghost use Rattle.atomic_table.specs.Table.{State};
ghost use Rattle.chdr_packets.specs.declared.packet.Packet.{Packet};
ghost use Rattle.credit_lane.specs.Law.{IsLawful};
ghost use Rattle.credit_lane.specs.Rule.{IsLane};
ghost use Rattle.credit_lane.specs.declared.plan.LanePlan.{LanePlan};
ghost use Rattle.credit_lane.specs.declared.rule.View.{View};

/// What the rule of a lane's table says between any two steps; each step keeps the rule.
pub fn between_steps()
    ensures { (p : LanePlan) (s : State (Option Packet) View) → IsLane p s → IsLawful p s }
{}
