// Commands that stay where they are.
ghost use Rattle.std.specs.Prelude.{◌≡◌, IfOk, None};

use cm_base::transfer::NoMemory;
use cm_replay::trying::BoxedAccepted;
use std::alloc::{AllocError, Global};
use std::marker::Model;
use std::sync::Wait;

/// Accepted commands of a session whose lines come one after another. Each stays where it is until
/// the session is over, since a running command looks at it. Contracts see what a line without a
/// command has.
#[derive(Drop)]
pub struct Kept {
    none: Option<BoxedAccepted>,
    commands: boxcar::Vec<Option<BoxedAccepted>>,
}

impl Model for Kept {
    ghost use Rattle.std.specs.Prelude.{◌≡◌, Option, None};
    ghost use Rattle.cm_cmd.specs.Command.{CmdText};

    ghost Value = { Option CmdText };

    ghost view = { λ k. k.none };

    ghost invariant = { λ k. k.none ≡ None };
}

impl Kept {
    /// None is kept yet.
    pub fn new(alloc: Global) -> Result<Kept, AllocError>
        ensures { IfOk result (λ kept. kept ≡ None) }
    {
        Ok(Kept {
            none: None,
            commands: boxcar::Vec::new(alloc)?,
        })
    }

    /// Keeps a command, where there is one.
    pub fn keep<R: Wait>(
        &self,
        rt: &R,
        tried: Option<BoxedAccepted>,
    ) -> Result<&Option<BoxedAccepted>, NoMemory>
        ensures { IfOk result (λ kept. kept.now ≡ tried) }
    {
        match tried {
            None => Ok(&self.none),
            Some(_) => match self.commands.push_shown(rt, tried) {
                Ok(pushed) => Ok(self.commands.value(&pushed)),
                Err(_) => Err(NoMemory),
            },
        }
    }
}
