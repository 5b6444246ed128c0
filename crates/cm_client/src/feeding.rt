// A writer that puts a list of words.
ghost use Rattle.std.specs.Prelude.{◌≡◌, ◌⊎◌, ◌+◌, ◌<◌, ◌≤◌, length, slice_index, true, MatchOption};
ghost use Rattle.cm_client.specs.Streamed.{EndsTruly, HeedsStop};
ghost use Rattle.cm_ring_core.specs.Lawful.{first_writer};
ghost use Rattle.cm_ring_core.specs.declared.view.EndKind.TheVariants.{Done, Cancelled};
ghost use Rattle.cm_ring_core.specs.declared.view.End.{End};

use crate::boarding::put_words;
use crate::words::Words;
use cm_base::gate::OpenGate;
use cm_ring::writer::{Closed, Writer};
use cm_sample::planned::Planned;
use crossbeam_utils::Backoff;
use std::sync::Wait;

// The words of a list, of which so many were given.
#[derive(Drop)]
struct ListWords<'a> {
    words: &'a [u32],
    given: usize,
}

impl Words for ListWords<'_> {
    ghost all = { λ s. s.words.now };

    ghost place = { λ s. s.given };

    #[inline(always)]
    fn next_word(&self) -> Option<u32> {
        self.words.get(self.given).copied()
    }

    #[inline(always)]
    fn step(&mut self) {
        self.given += 1;
    }
}

/// Puts all words into a paced ring, publishes them and ends with `Done`, or ends with `Cancelled`
/// where a look at the stop in this call found it asked for.
#[tactic(auto, using(crate::proofs::Fed::paced_end))]
pub fn feed<R: Wait + Sync, P: Planned>(rt: &R, writer: Writer<P>, words: &[u32]) -> Closed<P>
    requires fresh { writer.part ≡ first_writer }
    requires plan { writer.ring.samples ≡ words.now }
    requires paced { writer.ring.paced ≡ true }
    ensures of { (result.table ≡ writer.table) × (result.ring ≡ writer.ring) }
    ensures truly { EndsTruly result }
    ensures heeds { HeedsStop result }
    ensures end { (result.end ≡ record { kind = Done; count = length words.now }) ⊎ ((result.end.kind ≡ Cancelled) × (result.part.saw_stop ≡ true)) }
{
    let words = ListWords { words, given: 0 };
    let (closed, _) = put_words(rt, writer, words, true, Backoff::new(), &OpenGate, 0);
    closed
}
