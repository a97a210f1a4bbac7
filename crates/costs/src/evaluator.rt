//! The evaluator, by which exchanges are judged on the schedules of one league.

ghost use Rattle.std.specs.Prelude.{◌≡◌, None};
ghost use Rattle.costs.specs.Evaluators.{IsEvaluatorOf};

use crate::counting_order::CountingOrder;
use crate::kept_deviations::KeptDeviations;
use league::League;
use rule_index::RuleIndex;
use std::marker::Model;

/// Serves to judge exchanges on a schedule of a league, and to make them on it one after another: it has which of the rules a change can
/// alter, and what was counted of them on that schedule. Whatever was counted, an exchange is judged the same. If the schedule is changed
/// in another way, what was counted has to be forgotten ([`forget`](Evaluator::forget)).
#[derive(Drop)]
pub struct Evaluator {
    pub(crate) index: RuleIndex,
    pub(crate) order: CountingOrder,
    pub(crate) deviations: KeptDeviations,
}

impl Model for Evaluator {
    ghost use Rattle.std.specs.Prelude.{◌≡◌, length};
    ghost use Rattle.league.specs.Limits.{max_rules};
    ghost use Rattle.costs.specs.Evaluators.{Known, if_known};

    ghost Value = { Known };

    ghost view = { λ e. record {
      index = e.index;
      first = e.order.first;
      next = e.order.next;
      last = e.order.last;
      deviations = if_known e.deviations.is_known e.deviations.kept e.deviations.broken;
    } };

    ghost invariant = { λ e. (length e.deviations.kept ≡ max_rules) × (length e.deviations.next ≡ max_rules) };
}

impl Evaluator {
    /// The evaluator of a league, with nothing counted. Takes no memory.
    pub fn new(league: &League) -> Evaluator
        ensures league { IsEvaluatorOf league.now.rules result }
        ensures unknown { result.deviations ≡ None }
    {
        Evaluator {
            index: RuleIndex::new(league),
            order: CountingOrder::new(league),
            deviations: KeptDeviations::new(),
        }
    }

    /// Another one of the same league, with nothing counted.
    pub fn anew(&self) -> Evaluator
        ensures { result ≡ record self.now { deviations = None } }
    {
        Evaluator {
            index: self.index,
            order: self.order,
            deviations: KeptDeviations::new(),
        }
    }

    /// Forgets what was counted of the rules on a schedule, as it serves on no other one.
    pub fn forget(&mut self)
        ensures { self.new ≡ record self.old { deviations = None } }
    {
        self.deviations.forget();
    }
}
