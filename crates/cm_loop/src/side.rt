// What the thread of a loop's filter has.
ghost use Rattle.std.specs.Prelude.{◌≡◌, true, []};
ghost use Rattle.cm_ring.specs.Samples.{munged_plan};
ghost use Rattle.cm_client.specs.Streamed.{EndsTruly, HeedsStop};
ghost use Rattle.cm_loop.specs.Filter.{all_filtered, AreWithin};
ghost use Rattle.cm_loop.specs.State.{StandsFor};
ghost use Rattle.cm_ring_core.specs.Lawful.{first_reader, first_writer};

use crate::rule::LoopRule;
use crate::state::LoopState;
use crate::work::loop_work;
use cm_client::client::{GaveUp, give_up};
use cm_ring::reader::Reader;
use cm_ring::writer::{Closed, Writer};
use cm_sample::planned::Planned;
use std::marker::Model;
use std::sync::Wait;

/// The filter between two rings: the reader of the input's, the writer of the output's, and the
/// filter's state. Contracts see of it the output's ring.
#[derive(Drop)]
pub struct FilterSide<'a, P: Planned, Q: Planned> {
    input: Reader<P>,
    output: Writer<Q>,
    rule: &'a LoopRule,
    state: LoopState,
}

impl<'a, P: Planned, Q: Planned> Model for FilterSide<'a, P, Q> {
    ghost use Rattle.cm_ring_core.specs.declared.view.RingConstants.{RingConstants};
    ghost use Rattle.cm_loop.specs.Side.{IsFilterSide};

    ghost Value = { RingConstants };

    ghost view = { λ s. s.output.ring };

    ghost invariant = { λ s. IsFilterSide s.input s.output s.rule.now s.state };
}

impl<'a, P: Planned, Q: Planned> FilterSide<'a, P, Q> {
    pub(crate) fn new(
        input: Reader<P>,
        output: Writer<Q>,
        rule: &'a LoopRule,
        state: LoopState,
    ) -> FilterSide<'a, P, Q>
        requires input { (input.part ≡ first_reader) × (input.mapped ≡ 0) × (input.ring.paced ≡ true) }
        requires output { (output.part ≡ first_writer) × (output.ring.paced ≡ true) }
        requires state { (state.rule ≡ rule.now) × StandsFor state [] }
        requires within { AreWithin rule.now (munged_plan input.ring) }
        requires plan { output.ring.samples ≡ all_filtered rule.now (munged_plan input.ring) }
        ensures { result ≡ output.ring }
    {
        FilterSide {
            input,
            output,
            rule,
            state,
        }
    }

    /// Asks the input's ring for the stop, and gives up.
    pub(crate) fn give_up(self) -> GaveUp<P> {
        let FilterSide { input, .. } = self;
        give_up(input)
    }

    /// Filters all samples, or ends where the stop of the output's ring was asked for.
    pub(crate) fn filter_all<R: Wait + Sync>(self, rt: &R) -> Closed<Q>
        ensures of { result.ring ≡ self.entry }
        ensures end { EndsTruly result }
        ensures heeds { HeedsStop result }
    {
        let FilterSide {
            mut input,
            output,
            rule,
            state,
        } = self;
        loop_work(rt, &mut input, output, rule, state)
    }
}
