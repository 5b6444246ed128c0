// A session whose lines come one after another.
ghost use Rattle.std.specs.Prelude.{◌≡◌, ◌≤◌, ◌++◌, IfOk, OnOk};
ghost use Rattle.cm_session.specs.Limits.{IsLimited};
ghost use Rattle.cm_signal.specs.Fitting.{FitBoard};
ghost use Rattle.cm_dialogue.specs.Asked.{session_line};
ghost use Rattle.cm_serve.specs.Asking.{asked_time};
ghost use Rattle.cm_serve.specs.Claimed.{claims_text};
ghost use Rattle.cm_serve.specs.Dialogue.{asked_reply, fetched};
ghost use Rattle.cm_serve.specs.Playing.{bounds_at, first_play, line_text, played};
ghost use Rattle.cm_dialogue.specs.Reading.{IsFetch};
ghost use Rattle.cm_replay.specs.Replies.{tried_of};

use crate::asking::ask;
use crate::claims::put_claims;
use cm_base::prover::shows;
use cm_base::transfer::NoMemory;
use cm_board::board::BoardDesc;
use cm_dialogue::asked::{Asked, Fetch};
use cm_replay::acting::step;
use cm_replay::replay::seats_of;
use cm_replay::seat::Seat;
use cm_replay::trying::BoxedAccepted;
use cm_session::op::SessionLine;
use cm_signal::bounds::Bounds;
use cm_signal::setting::Setting;
use cm_signal::signals::Signals;
use cm_sub::files::Files;
use std::alloc::Global;
use std::marker::Model;

/// A session under way, whose lines come one after another.
#[derive(Drop)]
pub struct Playing<'a> {
    setting: Setting<'a>,
    files: Files,
    seats: Vec<Seat<'a>>,
    latest: u64,
}

impl<'a> Model for Playing<'a> {
    ghost use Rattle.cm_serve.specs.Playing.{Play};

    ghost Value = { Play };

    ghost use Rattle.cm_serve.specs.PlayingView.{IsPlay, play_of};

    ghost view = { play_of };

    ghost invariant = { λ p. IsPlay (play_of p) };
}

impl<'a> Playing<'a> {
    /// A session over a board before its first line.
    pub fn new(
        alloc: Global,
        board: &'a BoardDesc,
        signals: &'a Signals,
    ) -> Result<Playing<'a>, NoMemory>
        requires { FitBoard board.now.subs signals.now }
        ensures { IfOk result (λ p. p ≡ first_play (record { board = board.now; signals = signals.now })) }
    {
        // These reads show that a board has few subdevices, and that the signals are sound.
        shows(&board.version);
        shows(&signals.horizon);
        let seats = seats_of(alloc, board)?;
        Ok(Playing {
            setting: Setting { board, signals },
            files: Files::new(board.subs.len() as u32),
            seats,
            latest: 0,
        })
    }

    /// The time of the last line, and 0 before the first.
    pub fn latest(&self) -> u64
        ensures { result ≡ self.now.latest }
    {
        self.latest
    }

    /// The board.
    pub fn board(&self) -> &'a BoardDesc
        ensures { result.now ≡ self.now.setting.board }
    {
        self.setting.board
    }

    /// The signals over the board.
    pub fn signals(&self) -> &'a Signals
        ensures { result.now ≡ self.now.setting.signals }
    {
        self.setting.signals
    }

    /// The bounds of its lines.
    pub fn bounds(&self) -> Bounds
        ensures { result ≡ bounds_at self.now }
    {
        Bounds::of(self.setting.board, self.setting.signals)
    }

    /// Appends who has each subdevice.
    pub fn put_claims(&self, text: &mut Vec<u8>) -> Result<(), NoMemory>
        ensures { OnOk result (text.new.items ≡ text.old.items ++ claims_text self.now.state.files) }
    {
        let board = self.setting.board;
        put_claims(text, &self.files, board.subs.len() as u32)
    }

    /// Answers a line. `tried` is its command where its subdevice accepts it (`try_line` gives it),
    /// which has to live as long as the session. Where memory runs out the session is over.
    pub fn answer(
        self,
        alloc: Global,
        line: &SessionLine,
        tried: &'a Option<BoxedAccepted>,
        text: &mut Vec<u8>,
    ) -> Result<Playing<'a>, NoMemory>
        requires order { self.latest ≤ line.now.time }
        requires limits { IsLimited self.setting.signals.horizon line.now }
        requires trial { tried.now ≡ tried_of self.setting.board line.now.op }
        ensures after { IfOk result (λ p. p ≡ played self.entry line.now) }
        ensures text { IfOk result (λ _. text.new.items ≡ text.old.items ++ line_text self.entry line.now) }
    {
        let Playing {
            setting,
            mut files,
            mut seats,
            latest: _,
        } = self;
        step(alloc, &setting, line, tried, &mut files, &mut seats, text)?;
        Ok(Playing {
            setting,
            files,
            seats,
            latest: line.time,
        })
    }

    /// Answers a question. Where memory runs out the session is over.
    pub fn ask(
        self,
        alloc: Global,
        asked: &Asked,
        text: &mut Vec<u8>,
    ) -> Result<Playing<'a>, NoMemory>
        requires order { self.latest ≤ asked.now.time }
        requires limits { IsLimited self.setting.signals.horizon (session_line asked.now) }
        ensures after { IfOk result (λ p. p ≡ (asked_reply self.entry asked.now).play) }
        ensures text { IfOk result (λ _. text.new.items ≡ text.old.items ++ (asked_reply self.entry asked.now).text) }
    {
        let (playing, _) = self.ask_time(alloc, asked, text)?;
        Ok(playing)
    }

    /// Answers an await, and then the codes at the time that it tells. Where memory runs out the session
    /// is over.
    pub fn fetch(
        self,
        alloc: Global,
        fetch: &Fetch,
        text: &mut Vec<u8>,
    ) -> Result<Playing<'a>, NoMemory>
        requires order { self.latest ≤ fetch.now.time }
        requires limits { IsFetch self.setting.signals.horizon fetch.now }
        ensures after { IfOk result (λ p. p ≡ (fetched self.entry fetch.now).play) }
        ensures text { IfOk result (λ _. text.new.items ≡ text.old.items ++ (fetched self.entry fetch.now).text) }
    {
        let horizon = self.signals().horizon;
        let (playing, told) = self.ask_time(alloc, &fetch.awaits(), text)?;
        let time = fetch.time.max(horizon.min(told));
        playing.ask(alloc, &fetch.takes(time), text)
    }

    // Answers a question, and gives the time that it tells.
    fn ask_time(
        self,
        alloc: Global,
        asked: &Asked,
        text: &mut Vec<u8>,
    ) -> Result<(Playing<'a>, u64), NoMemory>
        requires order { self.latest ≤ asked.now.time }
        requires limits { IsLimited self.setting.signals.horizon (session_line asked.now) }
        ensures after { IfOk result (λ r. r.0 ≡ (asked_reply self.entry asked.now).play) }
        ensures text { IfOk result (λ _. text.new.items ≡ text.old.items ++ (asked_reply self.entry asked.now).text) }
        ensures time { IfOk result (λ r. r.1 ≡ asked_time self.entry.setting asked.now self.entry.state) }
    {
        let Playing {
            setting,
            mut files,
            mut seats,
            latest: _,
        } = self;
        let told = ask(alloc, &setting, asked, &mut files, &mut seats, text)?;
        let playing = Playing {
            setting,
            files,
            seats,
            latest: asked.time,
        };
        Ok((playing, told))
    }
}
