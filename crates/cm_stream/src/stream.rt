// A stream of scans over a ring's reader.
ghost use Rattle.std.specs.Prelude.{◌≡◌, ◌+◌, ◌-◌, ◌*◌, ◌/◌, ◌<◌, ◌≤◌, ◌++◌, min, length, IfOk, IfSome, IfNone, IsTrue, OnErr, true, Some, None};
ghost use Rattle.cm_ring_core.specs.declared.view.End.{End};
ghost use Rattle.cm_ring_core.specs.Lawful.{IsFoundEnd};
ghost use Rattle.cm_ring.specs.Samples.{piece};
ghost use Rattle.cm_stream.specs.Appended.{HasAppended};
ghost use Rattle.cm_stream.specs.Stream.{want_of, asked_stream, is_over, IsOver, IsSameStream};
ghost use Rattle.cm_stream.specs.Step.{IsGiven, HasStepped};

use crate::scan::Scan;
use crate::step::StreamStep;
use cm_base::prover::shows;
use cm_base::transfer::NoMemory;
use cm_ring::reader::Reader;
use cm_ring_core::view::End;
use cm_sample::planned::Planned;
use std::alloc::{AllocError, Global};
use std::marker::Model;

// Appends the first samples that are mapped.
fn append_mapped<P: Planned>(
    reader: &mut Reader<P>,
    words: &mut Vec<u32>,
    count: u32,
) -> Result<(), AllocError>
    requires mapped { count ≤ reader.old.mapped }
    requires within { reader.old.part.released + count ≤ length reader.old.ring.samples }
    ensures same { reader.new ≡ reader.old }
    ensures words { IfOk result (λ _. words.new.items ≡ words.old.items ++ piece reader.old.ring reader.old.part.released count) }
{
    let had = words.len();
    words.resize(had + count as usize, 0)?;
    reader.copy_words(&mut words[had..], count);
    Ok(())
}

// The first samples that are mapped.
fn mapped_words<P: Planned>(
    alloc: Global,
    reader: &mut Reader<P>,
    count: u32,
) -> Result<Vec<u32>, AllocError>
    requires mapped { count ≤ reader.old.mapped }
    requires within { reader.old.part.released + count ≤ length reader.old.ring.samples }
    ensures same { reader.new ≡ reader.old }
    ensures words { IfOk result (λ words. words.items ≡ piece reader.old.ring reader.old.part.released count) }
{
    let mut words = Vec::new(alloc);
    append_mapped(reader, &mut words, count)?;
    Ok(words)
}

/// The samples of a ring in scans of `n`, each of which is released when it is given. Contracts see
/// of it `n` and its reader.
#[derive(Drop)]
pub struct ScanStream<P: Planned> {
    alloc: Global,
    reader: Reader<P>,
    n: u32,
    found: Option<End>,
}

impl<P: Planned> Model for ScanStream<P> {
    ghost use Rattle.cm_stream.specs.Stream.{Streaming, streaming, IsStream};

    ghost Value = { Streaming };

    ghost view = { λ s. streaming s.n s.reader };

    ghost invariant = { λ s. IsStream (streaming s.n s.reader) s.found };
}

impl<P: Planned> ScanStream<P> {
    /// A stream over a reader of which nothing is read or mapped and no end is found. A scan has `n`
    /// samples, at most as many as the ring has cells. It takes no memory.
    pub fn new(alloc: Global, reader: Reader<P>, n: u32) -> ScanStream<P>
        requires fresh { (reader.part.released ≡ 0) × (reader.part.found ≡ None) × (reader.mapped ≡ 0) }
        requires n { (1 ≤ n) × (n ≤ reader.ring.size) }
        ensures { result ≡ record { n = n; reader = reader } }
    {
        // It says in contracts where the reader's places are.
        shows(&reader.mapped());
        ScanStream {
            alloc,
            reader,
            n,
            found: None,
        }
    }

    // A look at the end, where none was found.
    fn look_for_end(&mut self)
        ensures kept { self.new ≡ record self.old { reader = record self.old.reader { part = record self.old.reader.part { found = self.new.reader.part.found; end_looks = self.new.reader.part.end_looks } } } }
        ensures looked { self.old.reader.part.found ≡ None → self.new.reader.part.end_looks ≡ self.old.reader.part.end_looks + 1 }
        ensures stays { (e : End) → self.old.reader.part.found ≡ Some e → self.new.reader.part ≡ self.old.reader.part }
        ensures says { (e : End) → self.new.reader.part.found ≡ Some e → IsFoundEnd self.new.reader.ring self.new.reader.part e.kind e.count }
    {
        if self.found.is_none() {
            self.found = self.reader.ended();
        }
    }

    // How many samples the next scan has.
    fn want(&self) -> u32
        ensures want { result ≡ want_of self.now }
        ensures over { result ≡ 0 → IsOver self.now }
    {
        match self.found {
            None => self.n,
            Some(end) => (end.count - self.reader.released()).min(self.n as u64) as u32,
        }
    }

    // Maps what is wanted, as far as it has come, by a look at the munged count.
    fn map_wanted(&mut self, want: u32)
        requires { want ≡ want_of self.old }
        ensures kept { self.new ≡ record self.old { reader = record self.old.reader { part = record self.old.reader.part { known = self.new.reader.part.known; munged_looks = self.old.reader.part.munged_looks + 1 }; mapped = self.new.reader.mapped } } }
        ensures mapped { self.new.reader.mapped < want → self.new.reader.part.known - self.old.reader.part.released < want }
        ensures later { self.old.reader.part.known ≤ self.new.reader.part.known }
    {
        let more = want.saturating_sub(self.reader.mapped());
        self.reader.map(more);
    }

    // The next scan, which is mapped, or none where there is no memory for it.
    fn give(&mut self, want: u32) -> Option<Scan>
        requires want { (want ≡ want_of self.old) × (1 ≤ want) }
        requires mapped { want ≤ self.old.reader.mapped }
        ensures none { IfNone result (self.new ≡ self.old) }
        ensures given { IfSome result (λ scan. IsGiven scan want self.old self.new) }
        ensures kept { IfSome result (λ scan. self.new ≡ record self.old { reader = record self.old.reader { part = record self.old.reader.part { released = self.old.reader.part.released + want }; mapped = self.old.reader.mapped - want } }) }
    {
        let first = self.reader.released();
        let words = mapped_words(self.alloc, &mut self.reader, want).ok()?;
        self.reader.release(want);
        // It says in contracts where the reader's places are.
        shows(&self.reader.mapped());
        Some(Scan { first, words })
    }

    /// The next scan, where looks in this call find all of it: at the end where none was found, and
    /// at the munged count. A scan that an end cuts has what is left up to the end's count. What is
    /// given is released, and nothing else is.
    pub fn step(&mut self) -> StreamStep
        ensures { HasStepped result self.old self.new }
    {
        self.look_for_end();
        let want = self.want();
        self.map_wanted(want);
        if want == 0 {
            return StreamStep::Ended;
        }
        if self.reader.mapped() < want {
            return StreamStep::Waiting;
        }
        match self.give(want) {
            Some(scan) => StreamStep::Given(scan),
            None => StreamStep::NoMemory,
        }
    }

    // Maps up to `most` samples, by a look at the munged count, and reports how many whole scans they
    // have.
    fn map_scans(&mut self, most: u32) -> u32
        ensures kept { self.new ≡ record self.old { reader = record self.old.reader { part = record self.old.reader.part { known = self.new.reader.part.known; munged_looks = self.old.reader.part.munged_looks + 1 }; mapped = self.new.reader.mapped } } }
        ensures scans { result ≡ min most (self.new.reader.part.known - self.old.reader.part.released) / self.old.n }
        ensures mapped { result * self.old.n ≤ self.new.reader.mapped }
        ensures later { self.old.reader.part.known ≤ self.new.reader.part.known }
    {
        let more = most.saturating_sub(self.reader.mapped());
        self.reader.map(more);
        self.reader.mapped().min(most) / self.n
    }

    // Appends the words of so many whole scans, which are mapped.
    fn append_whole(&mut self, words: &mut Vec<u32>, scans: u32) -> Result<(), AllocError>
        requires mapped { scans * self.old.n ≤ self.old.reader.mapped }
        ensures same { self.new ≡ self.old }
        ensures words { IfOk result (λ _. words.new.items ≡ words.old.items ++ piece self.old.reader.ring self.old.reader.part.released (scans * self.old.n)) }
    {
        // It says in contracts where the reader's places are.
        shows(&self.reader.mapped());
        append_mapped(&mut self.reader, words, scans * self.n)
    }

    // Releases so many whole scans, which are mapped.
    fn release_scans(&mut self, scans: u32)
        requires mapped { scans * self.old.n ≤ self.old.reader.mapped }
        ensures { self.new ≡ record self.old { reader = record self.old.reader { part = record self.old.reader.part { released = self.old.reader.part.released + scans * self.old.n }; mapped = self.old.reader.mapped - scans * self.old.n } } }
    {
        self.reader.release(scans * self.n);
        // It says in contracts where the reader's places are.
        shows(&self.reader.mapped());
    }

    /// Appends the words of the next whole scans, of at most `most` samples in all, as many as a look in
    /// this call at the munged count finds, and releases them. It reports how many scans they are. A
    /// scan that an end cuts isn't among them. Where memory runs out nothing is released.
    pub fn append_scans(&mut self, words: &mut Vec<u32>, most: u32) -> Result<u32, NoMemory>
        ensures same { IsSameStream self.old self.new }
        ensures appended { IfOk result (λ scans. HasAppended scans most words.old.items words.new.items self.old self.new) }
        ensures lack { OnErr result (self.new.reader.part.released ≡ self.old.reader.part.released) }
    {
        let scans = self.map_scans(most);
        if scans > 0 {
            self.append_whole(words, scans)?;
            self.release_scans(scans);
        }
        Ok(scans)
    }

    /// Asks the ring's writer to stop. It takes no memory.
    pub fn ask_stop(&mut self)
        ensures { self.new ≡ asked_stream self.old }
    {
        self.reader.ask_stop();
    }

    /// The end that was found.
    pub fn end(&self) -> Option<End>
        ensures end { result ≡ self.now.reader.part.found }
        ensures says { IfSome result (λ e. IsFoundEnd self.now.reader.ring self.now.reader.part e.kind e.count) }
        ensures above { IfSome result (λ e. self.now.reader.part.released ≤ e.count) }
    {
        self.found
    }

    // How many samples are released.
    pub(crate) fn released(&self) -> u64
        ensures { result ≡ self.now.reader.part.released }
    {
        self.reader.released()
    }

    // Whether an end was found and all samples up to its count are released.
    pub(crate) fn is_over(&self) -> bool
        ensures is { result ≡ is_over self.now }
        ensures over { IsTrue result → IsOver self.now }
    {
        match self.found {
            None => false,
            Some(end) => end.count == self.reader.released(),
        }
    }
}
