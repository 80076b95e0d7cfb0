//! A watch: visits, one after another.
ghost use Rattle.std.specs.Prelude.{◌≡◌};
ghost use Rattle.css_watch.specs.Configs as configs;
ghost use Rattle.css_watch.specs.Configs.{IsPlanOf, IsWritable};
ghost use Rattle.css_watch.specs.Visits.{Watches, CountsDialFaults, CountsNetFault, CountsWriteFault};
ghost use Rattle.css_watch.specs.declared.plan.Plan.{Plan as Planned};

use crate::config::WatchConfig;
use crate::ending::Watched;
use crate::plan::Plan;
use crate::progress::Begun;
use crate::visit::{Visited, by_reports, visit};
use css_drive::DriveConfig;
use css_outside::{Limit, Outside, Sink};
use std::alloc::Global;

/// The greatest number of visits.
const MOST_VISITS: u64 = 1_099_511_627_776;

/// How many nanoseconds stand between two reports of a visit's own run, which aren't written.
const SELDOM: u64 = 1_000_000_000_000;

impl Plan {
    /// What the visits of a watch with this configuration are to do.
    pub fn new(config: WatchConfig) -> Plan
        ensures { configs.IsPlanOf config result }
    {
        let WatchConfig {
            companion,
            cii,
            seconds,
            report_every,
            ask_every,
        } = config;
        Plan {
            run: DriveConfig {
                companion,
                cii,
                reports: 1_000_000,
                limit: Limit::Seconds(seconds),
                report_every: SELDOM,
                ask_every,
                present: None,
            },
            report_every,
        }
    }
}

/// Watches a television, and writes what happens as JSON lines.
pub fn watch<K: Sink, O: Outside>(
    alloc: Global,
    config: WatchConfig,
    sink: &mut K,
    outside: &mut O,
) -> Watched
    requires { IsWritable config }
    ensures watches { (plan : Planned) × IsPlanOf config plan
        × Watches plan (O.told outside.old) (O.told outside.new) (K.holds sink.old) (K.holds sink.new) result }
    ensures net_faults { CountsNetFault (O.counts outside.old).faults (O.counts outside.new).faults result }
    ensures write_faults { CountsWriteFault (K.faults sink.old) (K.faults sink.new) result }
    ensures dial_faults { CountsDialFaults (O.counts outside.old).dial_faults
        (O.counts outside.new).dial_faults result }
{
    let plan = Plan::new(config);
    let mut begun = Begun::new();
    let mut visits = 0u64;
    'visits: while visits < MOST_VISITS {
        visits += 1;
        match visit(alloc, &plan, begun, sink, outside) {
            Visited::Next(next) => begun = next,
            Visited::Over(watched) => return watched,
        }
    }
    by_reports(&begun)
}
