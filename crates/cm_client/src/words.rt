// What a board's worker puts, word by word.
ghost use Rattle.std.specs.Prelude.{◌≡◌, ◌+◌, ◌<◌, ◌≤◌, drop, take, length, slice_index, MatchOption, IfOk, List, ℕ};
ghost use Rattle.cm_expand.specs.Items.{items_of};
ghost use Rattle.cm_expand.specs.PlanView.{plan_words, words_of};
ghost use Rattle.cm_expand.specs.Taking.{raw_words};

use cm_base::prover::shows;
use cm_base::transfer::NoMemory;
use cm_expand::board::Board;
use cm_expand::plan::Plan;
use std::alloc::Global;
use std::marker::Model;

/// Words that are given one after another.
pub trait Words: Drop {
    /// All words.
    ghost all: { Self → List ℕ };

    /// How many were given.
    ghost place: { Self → ℕ };

    /// The next word. None comes exactly where all were given.
    fn next_word(&self) -> Option<u32>
        ensures { MatchOption result
            (length (all self.now) ≤ place self.now)
            (λ word. (place self.now < length (all self.now)) × (slice_index (all self.now) (place self.now) ≡ word)) };

    /// Goes on to the word after it.
    fn step(&mut self)
        requires { place self.old < length (all self.old) }
        ensures { (all self.new ≡ all self.old) × (place self.new ≡ place self.old + 1) };
}

// How many words the board gives at once.
const PIECE: usize = 64;

/// The raw words of a plan's expansion.
#[derive(Drop)]
pub struct WordSource<'a> {
    board: Board<'a>,
    // No conversion comes later.
    horizon: u64,
    // The words that the board gave last, of which so many were given on.
    piece: [u32; PIECE],
    count: usize,
    given: usize,
}

impl<'a> Model for WordSource<'a> {
    ghost use Rattle.cm_client.specs.Source.{SourceText};
    ghost use Rattle.cm_client.specs.SourceView.{IsSource, source_text};

    ghost Value = { SourceText };

    ghost view = { source_text };

    ghost invariant = { IsSource };
}

impl<'a> Words for WordSource<'a> {
    ghost all = { λ s. s.all };

    ghost place = { λ s. s.place };

    #[inline(always)]
    fn next_word(&self) -> Option<u32> {
        if self.given < self.count {
            Some(self.piece[self.given])
        } else {
            None
        }
    }

    #[inline(always)]
    fn step(&mut self) {
        self.given += 1;
        if self.given == self.count {
            self.count = fill(&mut self.board, self.horizon, &mut self.piece);
            self.given = 0;
        }
    }
}

// Takes the words of the next conversions from a board, and reports how many.
fn fill(board: &mut Board<'_>, horizon: u64, piece: &mut [u32; PIECE]) -> usize
    requires { horizon ≡ board.old.plan.signals.horizon }
    ensures few { result ≤ 64 }
    ensures kept { take result piece.new ≡ raw_words (take result (drop board.old.place (items_of board.old.plan))) }
    ensures within { 0 < result → board.old.place + result ≤ length (items_of board.old.plan) }
    ensures some { result ≡ 0 → length (items_of board.old.plan) ≤ board.old.place }
    ensures board { board.new ≡ record board.old { place = board.old.place + result } }
{
    // The board tells what holds of each expansion: that all of it comes by the horizon.
    shows(&board.place());
    board.take_by(horizon, piece)
}

// The words of a board that has given none yet.
fn from_start(board: Board<'_>, horizon: u64) -> WordSource<'_>
    requires place { board.place ≡ 0 }
    requires horizon { horizon ≡ board.plan.signals.horizon }
    ensures { result ≡ record { all = words_of board.entry.plan; place = 0 } }
{
    let mut board = board;
    let mut piece = [0u32; PIECE];
    let count = fill(&mut board, horizon, &mut piece);
    WordSource {
        board,
        horizon,
        piece,
        count,
        given: 0,
    }
}

impl<'a> WordSource<'a> {
    /// Stands before the first word of a plan.
    #[tactic(auto, unfolding(cm_expand::specs::PlanView::plan_words))]
    pub fn new(plan: Plan<'a>) -> WordSource<'a>
        ensures { result ≡ record { all = plan_words plan.entry; place = 0 } }
    {
        let horizon = plan.horizon();
        from_start(Board::new(plan), horizon)
    }

    /// The same, and keeps what each list entry reads: that takes memory, and makes each word quick.
    #[tactic(auto, unfolding(cm_expand::specs::PlanView::plan_words))]
    pub fn with_items(alloc: Global, plan: Plan<'a>) -> Result<WordSource<'a>, NoMemory>
        ensures { IfOk result (λ words. words ≡ record { all = plan_words plan.entry; place = 0 }) }
    {
        let horizon = plan.horizon();
        let board = Board::with_items(alloc, plan)?;
        Ok(from_start(board, horizon))
    }
}
