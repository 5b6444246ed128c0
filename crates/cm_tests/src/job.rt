// A call of the program over memory.
use crate::boards;
use crate::gates::MeetGate;
use cm_base::memory::{MemSink, MemSource};
use cm_base::transfer::NoMemory;
use cm_cli::comedi::comedi;
use cm_cli::status::Status;
use std::alloc::Global;
use std::sync::Wait;
use std::thread::Threads;

/// A call: its words, the signals and the lines of its job over the demo board, and its whole answer.
#[derive(Clone, Copy)]
pub struct Job {
    pub words: &'static [&'static str],
    pub signals: &'static str,
    pub lines: &'static str,
    pub answer: &'static str,
}

impl Job {
    // Its words, as a program has them.
    fn words(&self, alloc: Global) -> Result<Vec<String>, NoMemory> {
        let mut words = Vec::new(alloc);
        for word in self.words {
            words.push(word.to_string(alloc)?)?;
        }
        Ok(words)
    }

    // The text of the job.
    fn text(&self, alloc: Global) -> Result<Vec<u8>, NoMemory> {
        let mut text = boards::DEMO.as_bytes().to_vec(alloc)?;
        text.extend_from_slice(self.signals.as_bytes())?;
        text.extend_from_slice(self.lines.as_bytes())?;
        Ok(text)
    }

    /// Whether the call writes its whole answer under a gate, and ends so.
    pub fn is_answered<R: Threads + Wait + Sync>(
        &self,
        rt: &R,
        alloc: Global,
        gate: &MeetGate,
    ) -> Result<bool, NoMemory> {
        let words = self.words(alloc)?;
        let mut source = MemSource::new(self.text(alloc)?, 700, Vec::new(alloc));
        let mut sink = MemSink::new(alloc, 4096, 300, Vec::new(alloc))?;
        let status = comedi(rt, alloc, &words, &mut source, &mut sink, gate);
        Ok(status == Status::Done && sink.text() == self.answer.as_bytes())
    }
}
