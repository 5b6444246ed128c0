// What a loop puts out.
ghost use Rattle.std.specs.Prelude.{◌≡◌, length};
ghost use Rattle.cm_expand.specs.Rule as spec;
ghost use Rattle.cm_expand.specs.PlanView.{plan_text, plan_words};
ghost use Rattle.cm_loop.specs.Looped.{looped_samples};
ghost use Rattle.cm_loop.specs.LoopedView.{looped_words};

use crate::rule::LoopRule;
use cm_expand::plan::Plan;
use cm_sample::planned::Planned;
use cm_sample::rule::MungeRule;

/// The filtered samples of an input command: the plan of a loop's output ring. It takes no memory.
#[derive(Clone, Copy)]
pub struct Looped<'a> {
    input: Plan<'a>,
    munge: &'a MungeRule,
    rule: &'a LoopRule,
}

impl<'a> Planned for Looped<'a> {
    ghost use Rattle.cm_loop.specs.LoopedView.{looped_words};

    ghost samples = { looped_words };
}

impl<'a> Looped<'a> {
    /// Of the plan of the input command, the munge of that command's buffer, and the loop's filter.
    #[tactic(auto, unfolding(crate::specs::LoopedView::looped_words))]
    pub fn new(input: Plan<'a>, munge: &'a MungeRule, rule: &'a LoopRule) -> Looped<'a>
        requires munge { munge.now ≡ spec.rule_of (plan_text input).sub (plan_text input).cmd }
        requires length { length rule.now.items ≡ length (plan_text input).cmd.list }
        ensures { looped_words result ≡ looped_samples (plan_words input.entry) munge.entry.now rule.entry.now }
    {
        Looped { input, munge, rule }
    }
}
