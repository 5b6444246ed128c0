// The client of a dialogue.
ghost use Rattle.std.specs.Prelude.{◌≡◌, ℕ, ◌≤◌, List, [], ◌∷◌, length, Option, OnOk, OnErr, IfOk, IsErrOf};
ghost use Rattle.cm_base.specs.Causes.{Rose};
ghost use Rattle.cm_dialogue.specs.Ahead.{HearsNext, IsLine};
ghost use Rattle.cm_dialogue.specs.Turns.{Answer, Heard, Says, Turn};

use cm_base::transfer::{ReadError, WriteFault};

/// The most bytes of a line.
pub const LINE_LIMIT: usize = 1_048_576;

/// Whom a dialogue is held with: lines come from it, and answers go to it.
pub trait Client {
    /// What was said so far, where it reports it.
    ghost turns: { Self → Option (List Turn) };

    /// The lines that it has still to say, where it tells them.
    ghost ahead: { Self → Option (List (List ℕ)) };

    /// How often it has failed. The count never falls.
    ghost faults: { Self → ℕ };

    /// Puts the next line, without its line feed, into `line`, which is empty. False comes at the end
    /// of the input. Refused with TooLong where the line has more than a mebibyte.
    fn hear(&mut self, line: &mut Vec<u8>) -> Result<bool, ReadError>
        requires { line.old.items ≡ [] }
        ensures heard { Heard result (turns self.old) (turns self.new) line.new.items }
        ensures next { HearsNext result (ahead self.old) (ahead self.new) line.new.items }
        ensures short { IfOk result (λ _. length line.new.items ≤ 1048576) }
        ensures single { IfOk result (λ _. IsLine line.new.items) }
        ensures fault { IsErrOf result ReadError.ReadFault → Rose (faults self.old) (faults self.new) }
        ensures later { faults self.old ≤ faults self.new };

    /// Takes a whole answer.
    fn say(&mut self, text: &[u8]) -> Result<(), WriteFault>
        ensures said { OnOk result (Says (turns self.old) (turns self.new) (Answer text.now ∷ [])) }
        ensures silent { OnErr result (turns self.new ≡ turns self.old) }
        ensures still { ahead self.new ≡ ahead self.old }
        ensures fault { OnErr result (Rose (faults self.old) (faults self.new)) }
        ensures later { faults self.old ≤ faults self.new };
}
